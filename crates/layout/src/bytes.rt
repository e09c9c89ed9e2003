//! What is asked of one column's record.
ghost use Rattle.std.specs.Prelude.{◌≡◌, ◌↔◌, true, false, IsTrue};
ghost use Rattle.layout.specs.Columns.{bytes_of, kept as kept_of, wanted as wanted_of, Over, Lost, Plain};

use crate::record::ColumnRecord;
use mysql::known_buffer_size_for_ffi_type;

impl ColumnRecord {
    /// How many bytes the value has: the size that all values of its code have, or else what was reported.
    pub fn byte_count(&self) -> u64
        ensures { result ≡ bytes_of self.now }
    {
        known_buffer_size_for_ffi_type(self.code).map_or(self.length, |size| size as u64)
    }

    /// Whether it is a text that is longer than its place.
    pub fn is_over(&self) -> bool
        ensures yes { result ≡ true → Over self.now }
        ensures no { result ≡ false → Over self.now → ⊥ }
    {
        known_buffer_size_for_ffi_type(self.code).is_none()
            && !self.is_null
            && self.length > self.capacity as u64
    }

    /// Whether a figure was lost: a code of one size, marked truncated.
    pub(crate) fn is_lost(&self) -> bool
        ensures yes { result ≡ true → Lost self.now }
        ensures no { result ≡ false → Lost self.now → ⊥ }
    {
        known_buffer_size_for_ffi_type(self.code).is_some() && self.is_truncated
    }

    /// Whether it is plain: not marked truncated, and null or no longer than its place.
    #[inline(always)]
    pub(crate) fn is_plain(&self) -> bool
        ensures { IsTrue result ↔ Plain self.now }
    {
        !self.is_truncated & (self.is_null | (self.length <= self.capacity as u64))
    }

    /// How many of its bytes stand in its place: none of a null.
    pub(crate) fn kept(&self) -> usize
        ensures { result ≡ kept_of self.now }
    {
        if self.is_null {
            0
        } else {
            self.capacity.min(self.byte_count() as usize)
        }
    }

    /// What the need counts of it, which is its capacity in a tight layout: the size that all values of its code have, or else its
    /// length, and a byte at least; a byte for a null.
    pub(crate) fn counted(&self) -> usize
        ensures { result ≡ wanted_of true self.now }
    {
        match known_buffer_size_for_ffi_type(self.code) {
            Some(size) => size,
            None if self.is_null || self.length == 0 => 1,
            None => self.length as usize,
        }
    }

    /// Its capacity in a wide layout: its length where it is a text that is longer than its place, or else what it has.
    pub(crate) fn widened(&self) -> usize
        ensures { result ≡ wanted_of false self.now }
    {
        if self.is_over() {
            self.length as usize
        } else {
            self.capacity
        }
    }
}
