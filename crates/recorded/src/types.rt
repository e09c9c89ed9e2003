//! Types by their numbers.
ghost use Rattle.std.specs.Prelude.{◌≡◌, ◌≤◌, MatchOption};
ghost use Rattle.mysql.specs.Kept.{row_of};

use mysql::MysqlType;

/// The type that has this number, if any.
pub fn type_numbered(number: u8) -> Option<MysqlType>
    ensures { MatchOption result (20 ≤ number) (λ tpe. row_of tpe ≡ number) }
{
    let tpe = match number {
        0 => MysqlType::Tiny,
        1 => MysqlType::UnsignedTiny,
        2 => MysqlType::Short,
        3 => MysqlType::UnsignedShort,
        4 => MysqlType::Long,
        5 => MysqlType::UnsignedLong,
        6 => MysqlType::LongLong,
        7 => MysqlType::UnsignedLongLong,
        8 => MysqlType::Float,
        9 => MysqlType::Double,
        10 => MysqlType::Numeric,
        11 => MysqlType::Time,
        12 => MysqlType::Date,
        13 => MysqlType::DateTime,
        14 => MysqlType::Timestamp,
        15 => MysqlType::String,
        16 => MysqlType::Blob,
        17 => MysqlType::Bit,
        18 => MysqlType::Set,
        19 => MysqlType::Enum,
        _ => return None,
    };
    Some(tpe)
}
