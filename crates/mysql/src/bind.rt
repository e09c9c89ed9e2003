//! How a column of a result is bound: the pair of code and flags that a type asks for, the type that such a pair stands for,
//! how many bytes a code takes, and which pair a column is bound with.
ghost use Rattle.std.specs.Prelude.{◌≡◌, Ok};
ghost use Rattle.mysql.specs.Types.{pair_of, type_of, size_of, known, has, read_back};
ghost use Rattle.mysql.specs.Taken.{flags_of, taken_pair};

use crate::backend::MysqlType;
use crate::fault::{Fault, Refusal};
use crate::ffi::*;
use crate::kept::is_kept;

/// A column of a result as the host describes it.
#[derive(Clone, Copy, PartialEq, Eq, Debug, Default)]
pub struct Column {
    pub code: u8,
    pub flags: u32,
}

impl Column {
    /// Whether its numbers have no sign.
    pub fn is_unsigned(self) -> bool
        ensures { result ≡ has self.flags 32 }
    {
        self.flags & UNSIGNED_FLAG != 0
    }
}

/// The code and flags that stand for a type.
impl From<MysqlType> for (u8, u32) {
    ghost from_gives = { λ tpe pair. pair ≡ pair_of tpe };

    fn from(tpe: MysqlType) -> (u8, u32) {
        match tpe {
            MysqlType::Tiny => (MYSQL_TYPE_TINY, 0),
            MysqlType::UnsignedTiny => (MYSQL_TYPE_TINY, UNSIGNED_FLAG),
            MysqlType::Short => (MYSQL_TYPE_SHORT, 0),
            MysqlType::UnsignedShort => (MYSQL_TYPE_SHORT, UNSIGNED_FLAG),
            MysqlType::Long => (MYSQL_TYPE_LONG, 0),
            MysqlType::UnsignedLong => (MYSQL_TYPE_LONG, UNSIGNED_FLAG),
            MysqlType::LongLong => (MYSQL_TYPE_LONGLONG, 0),
            MysqlType::UnsignedLongLong => (MYSQL_TYPE_LONGLONG, UNSIGNED_FLAG),
            MysqlType::Float => (MYSQL_TYPE_FLOAT, 0),
            MysqlType::Double => (MYSQL_TYPE_DOUBLE, 0),
            MysqlType::Numeric => (MYSQL_TYPE_NEWDECIMAL, 0),
            MysqlType::Time => (MYSQL_TYPE_TIME, 0),
            MysqlType::Date => (MYSQL_TYPE_DATE, 0),
            MysqlType::DateTime => (MYSQL_TYPE_DATETIME, 0),
            MysqlType::Timestamp => (MYSQL_TYPE_TIMESTAMP, 0),
            MysqlType::String => (MYSQL_TYPE_STRING, 0),
            MysqlType::Blob => (MYSQL_TYPE_BLOB, 0),
            MysqlType::Bit => (MYSQL_TYPE_BIT, 0),
            MysqlType::Set => (MYSQL_TYPE_STRING, SET_FLAG),
            MysqlType::Enum => (MYSQL_TYPE_STRING, ENUM_FLAG),
        }
    }
}

/// The type that a code and flags stand for.
impl TryFrom<(u8, u32)> for MysqlType {
    type Error = Fault;

    ghost try_from_gives = { λ pair r. r ≡ type_of pair.0 pair.1 };

    fn try_from((code, flags): (u8, u32)) -> Result<MysqlType, Fault> {
        let unsigned = flags & UNSIGNED_FLAG != 0;
        let tpe = match code {
            MYSQL_TYPE_TINY if unsigned => MysqlType::UnsignedTiny,
            MYSQL_TYPE_TINY => MysqlType::Tiny,
            MYSQL_TYPE_SHORT | MYSQL_TYPE_YEAR if unsigned => MysqlType::UnsignedShort,
            MYSQL_TYPE_SHORT => MysqlType::Short,
            MYSQL_TYPE_LONG | MYSQL_TYPE_INT24 if unsigned => MysqlType::UnsignedLong,
            MYSQL_TYPE_LONG | MYSQL_TYPE_INT24 => MysqlType::Long,
            MYSQL_TYPE_LONGLONG if unsigned => MysqlType::UnsignedLongLong,
            MYSQL_TYPE_LONGLONG => MysqlType::LongLong,
            MYSQL_TYPE_FLOAT => MysqlType::Float,
            MYSQL_TYPE_DOUBLE => MysqlType::Double,
            MYSQL_TYPE_DECIMAL | MYSQL_TYPE_NEWDECIMAL => MysqlType::Numeric,
            MYSQL_TYPE_BIT => MysqlType::Bit,
            MYSQL_TYPE_TIMESTAMP => MysqlType::Timestamp,
            MYSQL_TYPE_DATE => MysqlType::Date,
            MYSQL_TYPE_TIME => MysqlType::Time,
            MYSQL_TYPE_DATETIME => MysqlType::DateTime,
            MYSQL_TYPE_JSON => MysqlType::String,
            MYSQL_TYPE_TINY_BLOB..=MYSQL_TYPE_STRING if flags & ENUM_FLAG != 0 => MysqlType::Enum,
            MYSQL_TYPE_TINY_BLOB..=MYSQL_TYPE_STRING if flags & SET_FLAG != 0 => MysqlType::Set,
            MYSQL_TYPE_TINY_BLOB..=MYSQL_TYPE_STRING if flags & BINARY_FLAG != 0 => MysqlType::Blob,
            MYSQL_TYPE_TINY_BLOB..=MYSQL_TYPE_STRING => MysqlType::String,
            _ => return Err(Fault::new(Refusal::NoType)),
        };
        Ok(tpe)
    }
}

/// The type that a column has when it is read, after it was bound as this type asks.
pub fn round_trip(tpe: MysqlType) -> Result<MysqlType, Fault>
    ensures { result ≡ Ok (read_back tpe) }
{
    MysqlType::try_from(<(u8, u32)>::from(tpe))
}

/// How many bytes a value of each code takes, by the code; 0 where not all of its values take the same.
const SIZES: [u8; 256] = [
    0, 1, 2, 4, 4, 8, 0, 48, 8, 4, 48, 48, 48, 2, 0, 0, 0, 0, 0, 0, 0, 0, 0, 0, 0, 0, 0, 0, 0, 0,
    0, 0, 0, 0, 0, 0, 0, 0, 0, 0, 0, 0, 0, 0, 0, 0, 0, 0, 0, 0, 0, 0, 0, 0, 0, 0, 0, 0, 0, 0, 0, 0,
    0, 0, 0, 0, 0, 0, 0, 0, 0, 0, 0, 0, 0, 0, 0, 0, 0, 0, 0, 0, 0, 0, 0, 0, 0, 0, 0, 0, 0, 0, 0, 0,
    0, 0, 0, 0, 0, 0, 0, 0, 0, 0, 0, 0, 0, 0, 0, 0, 0, 0, 0, 0, 0, 0, 0, 0, 0, 0, 0, 0, 0, 0, 0, 0,
    0, 0, 0, 0, 0, 0, 0, 0, 0, 0, 0, 0, 0, 0, 0, 0, 0, 0, 0, 0, 0, 0, 0, 0, 0, 0, 0, 0, 0, 0, 0, 0,
    0, 0, 0, 0, 0, 0, 0, 0, 0, 0, 0, 0, 0, 0, 0, 0, 0, 0, 0, 0, 0, 0, 0, 0, 0, 0, 0, 0, 0, 0, 0, 0,
    0, 0, 0, 0, 0, 0, 0, 0, 0, 0, 0, 0, 0, 0, 0, 0, 0, 0, 0, 0, 0, 0, 0, 0, 0, 0, 0, 0, 0, 0, 0, 0,
    0, 0, 0, 0, 0, 0, 0, 0, 0, 0, 0, 0, 0, 0, 0, 0, 0, 0, 0, 0, 0, 0, 0, 0, 0, 0, 0, 0, 0, 0, 0, 0,
    0, 0,
];

/// How many bytes a value of a code takes; none where not all of its values take the same (docs/types.md).
#[inline(always)]
pub fn known_buffer_size_for_ffi_type(code: u8) -> Option<usize>
    ensures { result ≡ size_of code }
{
    let size = SIZES[code as usize];
    if size == 0 { None } else { Some(size as usize) }
}

/// A column's flags, unless they have a bit that no flag is known for.
pub fn known_flags(flags: u32) -> Result<u32, Fault>
    ensures { result ≡ flags_of flags }
{
    if flags & KNOWN_FLAGS == flags {
        Ok(flags)
    } else {
        Err(Fault::new(Refusal::UnknownFlags))
    }
}

/// The code and flags that a column is bound with, where this type, or none in particular, is wanted of it.
pub fn taken(wanted: Option<MysqlType>, column: Column) -> Result<(u8, u32), Fault>
    ensures { result ≡ taken_pair wanted column.code column.flags }
{
    match wanted {
        Some(tpe) if !is_kept(tpe, column.code) => Ok(tpe.into()),
        _ => Ok((column.code, known_flags(column.flags)?)),
    }
}
