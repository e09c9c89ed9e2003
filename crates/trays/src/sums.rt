//! Fields, added up one by one.
ghost use Rattle.std.specs.Prelude.{List, Some, None, ◌∷◌, [], ◌++◌};

use checksum::Crc32;
use std::fmt;

/// How many rows there are, how many of them are null, how many bytes the others have, and the checksum of these bytes. Each number stops
/// at 2^64 - 1.
#[derive(Clone, Copy)]
pub struct Sums {
    pub rows: u64,
    pub nulls: u64,
    pub bytes: u64,
    pub checksum: Crc32,
}

impl Sums {
    ghost use Rattle.trays.specs.Fields.{Field};
    ghost use Rattle.trays.specs.Sums.{AddsUp};

    /// Of no row.
    pub fn none() -> Sums
        ensures { AddsUp result [] }
    {
        Sums {
            rows: 0,
            nulls: 0,
            bytes: 0,
            checksum: Crc32::new(),
        }
    }

    /// A null more.
    pub fn add_null(&mut self)
        ensures { (before : List Field) → AddsUp self.old before → AddsUp self.new (before ++ None ∷ []) }
    {
        self.rows = self.rows.saturating_add(1);
        self.nulls = self.nulls.saturating_add(1);
    }

    /// A row more that is not null.
    pub fn add(&mut self, bytes: &[u8])
        ensures { (before : List Field) → AddsUp self.old before → AddsUp self.new (before ++ Some bytes.now ∷ []) }
    {
        self.rows = self.rows.saturating_add(1);
        self.bytes = self.bytes.saturating_add(bytes.len() as u64);
        self.checksum.update(bytes);
    }
}

impl fmt::Display for Sums {
    fn fmt<W: fmt::Write>(&self, f: &mut fmt::Formatter<W>) -> fmt::Result {
        let (rows, nulls, bytes) = (self.rows, self.nulls, self.bytes);
        let checksum = self.checksum.value();
        write!(
            f,
            "{rows} rows, {nulls} nulls, {bytes} bytes, checksum {checksum:08x}"
        )
    }
}
