//! Values as integers.
ghost use Rattle.std.specs.Prelude.{◌≡◌, pos};
ghost use Rattle.mysql.specs.Answers.{through};
ghost use Rattle.numeric.specs.Targets.{in_range};
ghost use Rattle.readings.specs.Integers.{integer};

use crate::floats::{f32_to_i64, f64_to_i64};
use crate::value::{MysqlValue, NumericRepresentation};
use mysql::{Fault, Refusal};
use numeric::{Target, decimal_to_integer};

/// The whole number that a value stands for, where the target holds it.
pub fn integer_value<T: Target>(value: &MysqlValue) -> Result<T, Fault>
    ensures { through T.Target.whole result ≡ integer T.Target.half value.now.tpe value.now.raw.now }
{
    let whole = match value.numeric_value()? {
        NumericRepresentation::Tiny(x) => i64::from(x),
        NumericRepresentation::UnsignedTiny(x) => i64::from(x),
        NumericRepresentation::Small(x) => i64::from(x),
        NumericRepresentation::UnsignedSmall(x) => i64::from(x),
        NumericRepresentation::Medium(x) => i64::from(x),
        NumericRepresentation::UnsignedMedium(x) => i64::from(x),
        NumericRepresentation::Big(x) => x,
        NumericRepresentation::UnsignedBig(x) => return unsigned_value(x),
        NumericRepresentation::Float(x) => f32_to_i64(x)?,
        NumericRepresentation::Double(x) => f64_to_i64(x)?,
        NumericRepresentation::Decimal(text) => return decimal_to_integer(text),
    };
    T::narrow(whole)
}

/// The same of a number without a sign, which may lie above every i64.
fn unsigned_value<T: Target>(x: u64) -> Result<T, Fault>
    ensures { through T.Target.whole result ≡ in_range T.Target.half (pos x) }
{
    if x >= T::half_range() {
        return Err(Fault::new(Refusal::OutOfRange));
    }
    T::narrow(x as i64)
}
