//! The table of a session's columns.
ghost use Rattle.std.specs.Prelude.{◌≡◌, ◌≤◌, length, take};
ghost use Rattle.layout.specs.Columns.{total, Lies, SomeRoom, Sized};

use crate::record::ColumnRecord;
use host::MOST_COLUMNS;

/// The columns, at most 64 of them, at the front of an array; and the length of the arena. Their places follow one another from the arena's
/// first byte on without a gap. A place has a byte at least, and at a code of a fixed size as many bytes as that size (docs/session.md).
#[derive(Clone, Copy)]
pub struct ColumnTable {
    pub(crate) columns: [ColumnRecord; MOST_COLUMNS],
    pub(crate) count: usize,
    pub room: usize,
    ghost array: { length columns ≡ 64 },
    ghost few: { count ≤ 64 },
    ghost laid: { Lies (take count columns) },
    ghost within: { total (take count columns) ≤ room },
    ghost roomy: { SomeRoom (take count columns) },
    ghost sized: { Sized (take count columns) },
    ghost short: { room ≤ 65536 },
}
