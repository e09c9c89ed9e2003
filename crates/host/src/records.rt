//! What the session and the client library hand each other.
ghost use Rattle.std.specs.Prelude.{◌≡◌};
ghost use Rattle.mysql.specs.Types.{has};
ghost use Rattle.host.specs.Calls.{number_of, fetched_number};

use mysql::{Column, MYSQL_TYPE_NULL};

/// The most columns that a host has.
pub const MOST_COLUMNS: usize = 64;

/// What stands for a column past the last one.
pub const PAST_COLUMN: Column = Column {
    code: MYSQL_TYPE_NULL,
    flags: 0,
};

/// Where and how a column is to be written: its code, whether its numbers have no sign, and the bytes of the arena, from `start` on,
/// that it may be written to. The sign is a flag, as in MySQL's MYSQL_BIND.
#[derive(Clone, Copy, PartialEq, Eq, Debug, Default)]
pub struct BindRecord {
    pub code: u8,
    pub unsigned: bool,
    pub start: usize,
    pub capacity: usize,
}

/// A column at its own code and sign (flag 32: without), in no place.
impl From<Column> for BindRecord {
    ghost from_gives = { λ column told. told ≡ record { code = column.code; unsigned = has column.flags 32; start = 0; capacity = 0 } };

    fn from(column: Column) -> BindRecord {
        BindRecord {
            code: column.code,
            unsigned: column.is_unsigned(),
            ..BindRecord::default()
        }
    }
}

/// What came of a column: how long its bytes are in full, whether it is null, and whether it lost bytes or a figure. Two flags beside a length,
/// as in MYSQL_BIND, through which a client library reports.
#[derive(Clone, Copy, PartialEq, Eq, Debug, Default)]
pub struct Report {
    pub length: u64,
    pub is_null: bool,
    pub is_truncated: bool,
}

/// What a call is refused with; the numbers are those of MySQL's client library.
#[derive(Clone, Copy, PartialEq, Eq, Debug)]
pub enum ClientError {
    /// The call does not fit the result, or what is bound of it.
    InvalidParameter = 2034,
    /// A column cannot be asked for at a code.
    UnsupportedType = 2036,
    /// No row is current.
    NoData = 2051,
}

impl ClientError {
    /// Its number.
    pub fn number(self) -> u16
        ensures { result ≡ number_of self }
    {
        self as u16
    }
}

/// What a fetch answers; the numbers are those of MySQL's C API.
#[derive(Clone, Copy, PartialEq, Eq, Debug)]
pub enum Fetched {
    /// A row came, and nothing of it was truncated.
    Row = 0,
    /// The fetch failed.
    Failed = 1,
    /// There is no further row.
    NoData = 100,
    /// A row came, and something of it was truncated.
    Truncated = 101,
}

impl Fetched {
    /// Its number.
    pub fn number(self) -> u8
        ensures { result ≡ fetched_number self }
    {
        self as u8
    }
}
