//! Which columns keep their own code and flags though another type is wanted of them: of those the readings convert the values.
ghost use Rattle.std.specs.Prelude.{◌≡◌, ◌*◌, length};
ghost use Rattle.mysql.specs.Kept.{keeps, row_of, types, named_codes, kept_pairs};

use crate::backend::MysqlType;

const Y: bool = true;

const N: bool = false;

// The rows, a kind of wanted type each. A row has an entry for each named code: 0 to 19, and then 245 to 255.

/// Where a number is wanted, the codes of numbers are kept.
const NUMBER: [bool; 31] = [
    Y, Y, Y, Y, Y, Y, N, N, Y, Y, N, N, N, N, N, N, N, N, N, N, N, Y, N, N, N, N, N, N, N, N, N,
];

/// Text: JSON, and the codes from ENUM to STRING.
const TEXT: [bool; 31] = [
    N, N, N, N, N, N, N, N, N, N, N, N, N, N, N, N, N, N, N, N, Y, N, Y, Y, Y, Y, Y, Y, Y, Y, N,
];

/// Binary data: the four blobs.
const BINARY: [bool; 31] = [
    N, N, N, N, N, N, N, N, N, N, N, N, N, N, N, N, N, N, N, N, N, N, N, N, Y, Y, Y, Y, N, N, N,
];

/// A member of an enumeration, or members of a set: the codes from ENUM to STRING.
const MEMBER: [bool; 31] = [
    N, N, N, N, N, N, N, N, N, N, N, N, N, N, N, N, N, N, N, N, N, N, Y, Y, Y, Y, Y, Y, Y, Y, N,
];

/// Any other type: none.
const NOTHING: [bool; 31] = [N; 31];

/// A row for each type, by its number.
const KEPT: [[bool; 31]; 20] = [
    NUMBER, // Tiny
    NUMBER, // UnsignedTiny
    NUMBER, // Short
    NUMBER, // UnsignedShort
    NUMBER, // Long
    NUMBER, // UnsignedLong
    NUMBER, // LongLong
    NUMBER, // UnsignedLongLong
    NUMBER, // Float
    NOTHING, // Double
    NUMBER, // Numeric
    NOTHING, // Time
    NOTHING, // Date
    NOTHING, // DateTime
    NOTHING, // Timestamp
    TEXT, // String
    BINARY, // Blob
    NOTHING, // Bit
    MEMBER, // Set
    MEMBER, // Enum
];

/// The number of a type's row.
fn row(tpe: MysqlType) -> usize
    ensures { result ≡ row_of tpe }
{
    tpe as usize
}

/// Whether a column of this code keeps its code and flags where this type is wanted of it.
pub fn is_kept(tpe: MysqlType, code: u8) -> bool
    ensures { result ≡ keeps tpe code }
{
    match code {
        0..=19 => KEPT[row(tpe)][code as usize],
        245..=255 => KEPT[row(tpe)][code as usize - 225],
        _ => false,
    }
}

/// How many of the 620 pairs of a type and a named code are kept.
pub fn kept_pairs() -> usize
    ensures counted { result ≡ kept_pairs }
    ensures number { result ≡ 119 }
    ensures pairs { length types * length named_codes ≡ 620 }
{
    119
}
