//! The types that a value of a MySQL result can have.
ghost use Rattle.std.specs.Prelude.{◌≡◌};
ghost use Rattle.mysql.specs.Kept.{row_of};

/// The numbers are the rows of the table of kept pairs (`kept::KEPT`).
#[derive(Clone, Copy, PartialEq, Eq, Debug)]
pub enum MysqlType {
    Tiny = 0,
    UnsignedTiny = 1,
    Short = 2,
    UnsignedShort = 3,
    Long = 4,
    UnsignedLong = 5,
    LongLong = 6,
    UnsignedLongLong = 7,
    Float = 8,
    Double = 9,
    Numeric = 10,
    Time = 11,
    Date = 12,
    DateTime = 13,
    Timestamp = 14,
    String = 15,
    Blob = 16,
    Bit = 17,
    Set = 18,
    Enum = 19,
}

impl MysqlType {
    /// Its number.
    pub fn number(self) -> u8
        ensures { result ≡ row_of self }
    {
        self as u8
    }
}
