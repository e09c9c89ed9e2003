//! The codes of field types and the flags of columns that this crate looks at, under the names of MySQL's C headers.
//! A library may report a code that has no name here.

pub const MYSQL_TYPE_DECIMAL: u8 = 0;

pub const MYSQL_TYPE_TINY: u8 = 1;

pub const MYSQL_TYPE_SHORT: u8 = 2;

pub const MYSQL_TYPE_LONG: u8 = 3;

pub const MYSQL_TYPE_FLOAT: u8 = 4;

pub const MYSQL_TYPE_DOUBLE: u8 = 5;

pub const MYSQL_TYPE_NULL: u8 = 6;

pub const MYSQL_TYPE_TIMESTAMP: u8 = 7;

pub const MYSQL_TYPE_LONGLONG: u8 = 8;

pub const MYSQL_TYPE_INT24: u8 = 9;

pub const MYSQL_TYPE_DATE: u8 = 10;

pub const MYSQL_TYPE_TIME: u8 = 11;

pub const MYSQL_TYPE_DATETIME: u8 = 12;

pub const MYSQL_TYPE_YEAR: u8 = 13;

pub const MYSQL_TYPE_NEWDATE: u8 = 14;

pub const MYSQL_TYPE_VARCHAR: u8 = 15;

pub const MYSQL_TYPE_BIT: u8 = 16;

pub const MYSQL_TYPE_TIMESTAMP2: u8 = 17;

pub const MYSQL_TYPE_DATETIME2: u8 = 18;

pub const MYSQL_TYPE_TIME2: u8 = 19;

pub const MYSQL_TYPE_JSON: u8 = 245;

pub const MYSQL_TYPE_NEWDECIMAL: u8 = 246;

pub const MYSQL_TYPE_ENUM: u8 = 247;

pub const MYSQL_TYPE_SET: u8 = 248;

pub const MYSQL_TYPE_TINY_BLOB: u8 = 249;

pub const MYSQL_TYPE_MEDIUM_BLOB: u8 = 250;

pub const MYSQL_TYPE_LONG_BLOB: u8 = 251;

pub const MYSQL_TYPE_BLOB: u8 = 252;

pub const MYSQL_TYPE_VAR_STRING: u8 = 253;

pub const MYSQL_TYPE_STRING: u8 = 254;

pub const MYSQL_TYPE_GEOMETRY: u8 = 255;

/// How many bytes a MYSQL_TIME takes.
pub const MYSQL_TIME_SIZE: usize = 48;

/// The number has no sign.
pub const UNSIGNED_FLAG: u32 = 32;
/// The text is binary data.
pub const BINARY_FLAG: u32 = 128;
/// The column is an enumeration.
pub const ENUM_FLAG: u32 = 256;
/// The column is a set.
pub const SET_FLAG: u32 = 2048;

/// The bits that flags are known for: 0 to 21 and 26 to 30.
pub const KNOWN_FLAGS: u32 = 0x7C3F_FFFF;
