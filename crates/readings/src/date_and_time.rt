//! Values as dates and times.
ghost use Rattle.std.specs.Prelude.{◌≡◌, ◌+◌, ◌≤◌, length, take, drop};
ghost use Rattle.readings.specs.Bytes.{le};
ghost use Rattle.readings.specs.Records.{ReadsTime};
ghost use Rattle.readings.specs.Times.{is_time, record_at, time};

use crate::value::{FromNeBytes, MysqlValue};
use mysql::{Fault, MYSQL_TIME_SIZE, MysqlType, Refusal};

/// Where the record's sign lies.
const SIGN: usize = 32;

/// A date, a time or both, in the order of the fields of MYSQL_TIME. Nothing checks that they are one of a calendar.
#[derive(Clone, Copy, PartialEq, Eq, Debug)]
pub struct MysqlTime {
    pub year: u32,
    pub month: u32,
    pub day: u32,
    pub hour: u32,
    pub minute: u32,
    pub second: u32,
    /// microseconds
    pub second_part: u64,
    /// whether it is negative, a flag as in MYSQL_TIME; a reading never gives such a one
    pub neg: bool,
    /// 0 for a date, 1 for both, 2 for a time: a number as in C's record, where nothing checks it
    pub time_type: i32,
    /// in seconds
    pub time_zone_displacement: i32,
}

/// The number that lies at an offset.
fn number_at<T: FromNeBytes>(raw: &[u8], at: usize) -> T
    requires { at + T.FromNeBytes.width ≤ length raw.now }
    ensures { result ≡ T.FromNeBytes.value (le (take T.FromNeBytes.width (drop at raw.now))) }
{
    T::from_ne_prefix(&raw[at..])
}

/// Whether values of a type are times.
fn is_time(tpe: MysqlType) -> bool
    ensures { result ≡ is_time tpe }
{
    matches!(
        tpe,
        MysqlType::Time | MysqlType::Date | MysqlType::DateTime | MysqlType::Timestamp
    )
}

/// The time that a value holds, where its type is one of times.
pub fn time_value(value: &MysqlValue) -> Result<MysqlTime, Fault>
    ensures exact { result ≡ time value.now.tpe value.now.raw.now }
    ensures record_read { ReadsTime value.now.tpe value.now.raw.now result }
{
    if !is_time(value.value_type()) {
        return Err(Fault::new(Refusal::WrongType));
    }
    let raw = value.as_bytes();
    if raw.len() < MYSQL_TIME_SIZE {
        return Err(Fault::new(Refusal::TooShort));
    }
    match raw[SIGN] {
        0 => Ok(read_record(raw)),
        1 => Err(Fault::new(Refusal::NegativeTime)),
        _ => Err(Fault::new(Refusal::InvalidSign)),
    }
}

/// The record, of which the sign was looked at.
fn read_record(raw: &[u8]) -> MysqlTime
    requires { 48 ≤ length raw.now }
    ensures { result ≡ record_at raw.now }
{
    MysqlTime {
        year: number_at(raw, 0),
        month: number_at(raw, 4),
        day: number_at(raw, 8),
        hour: number_at(raw, 12),
        minute: number_at(raw, 16),
        second: number_at(raw, 20),
        second_part: number_at(raw, 24),
        neg: false,
        time_type: number_at(raw, 36),
        time_zone_displacement: number_at(raw, 40),
    }
}
