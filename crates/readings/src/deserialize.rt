//! Typed readings: what a value is as an i32, an i64 or a time.
ghost use Rattle.std.specs.Prelude.{◌≡◌, ℕ, ◌^◌, List, Result as Answer};
ghost use Rattle.mysql.specs.declared.fault.Fault.{Fault as AnyFault};
ghost use Rattle.mysql.specs.declared.backend.MysqlType.{MysqlType as AnyType};
ghost use Rattle.readings.specs.Integers.{integer};
ghost use Rattle.readings.specs.Times.{time};
ghost use Rattle.readings.specs.Nulls.{nullable};

use crate::date_and_time::{MysqlTime, time_value};
use crate::primitives::integer_value;
use crate::value::MysqlValue;
use mysql::{Fault, Refusal};

/// A type that values are read as.
pub trait FromSql: Sized {
    // What a value of a type and with some bytes is read as.
    ghost reads: { AnyType → List ℕ → Answer Self AnyFault };

    fn from_sql(value: &MysqlValue) -> Result<Self, Fault>
        ensures { result ≡ reads value.now.tpe value.now.raw.now };
}

/// Integer.
impl FromSql for i32 {
    ghost reads = { integer (2 ^ 31) };

    fn from_sql(value: &MysqlValue) -> Result<i32, Fault> {
        integer_value::<i32>(value)
    }
}

/// BigInt
impl FromSql for i64 {
    ghost reads = { integer (2 ^ 63) };

    fn from_sql(value: &MysqlValue) -> Result<i64, Fault> {
        integer_value::<i64>(value)
    }
}

/// Time, Date, Datetime and Timestamp
impl FromSql for MysqlTime {
    ghost reads = { time };

    fn from_sql(value: &MysqlValue) -> Result<MysqlTime, Fault> {
        time_value(value)
    }
}

/// The reading of a value that may be null, which is refused.
pub fn from_nullable_sql<T: FromSql>(value: Option<MysqlValue>) -> Result<T, Fault>
    ensures { result ≡ nullable T.FromSql.reads value.entry }
{
    T::from_sql(&value.ok_or(Fault::new(Refusal::UnexpectedNull))?)
}
