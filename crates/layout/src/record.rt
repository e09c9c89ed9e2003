//! A column of an opened session.
ghost use Rattle.std.specs.Prelude.{◌≡◌};
ghost use Rattle.layout.specs.Columns.{bind_of, noted};

use host::{BindRecord, Report};
use mysql::Column;

/// Its place in the arena, the code and flags that it is bound with, and what the host last reported of it: the length of its bytes in full,
/// whether it is null, and whether bytes or a figure were lost; the flags are as MYSQL_BIND has them.
#[derive(Clone, Copy, Default)]
pub struct ColumnRecord {
    pub start: usize,
    pub capacity: usize,
    pub length: u64,
    pub flags: u32,
    pub code: u8,
    pub is_null: bool,
    pub is_truncated: bool,
}

impl ColumnRecord {
    /// Notes what was reported of the column.
    #[inline(always)]
    pub(crate) fn note(&mut self, report: Report)
        ensures { self.new ≡ noted self.old report }
    {
        self.length = report.length;
        self.is_null = report.is_null;
        self.is_truncated = report.is_truncated;
    }
}

/// What the host is to be told of a column.
impl From<ColumnRecord> for BindRecord {
    ghost from_gives = { λ column told. told ≡ bind_of column };

    fn from(column: ColumnRecord) -> BindRecord {
        let pair = Column {
            code: column.code,
            flags: column.flags,
        };
        BindRecord {
            start: column.start,
            capacity: column.capacity,
            ..BindRecord::from(pair)
        }
    }
}
