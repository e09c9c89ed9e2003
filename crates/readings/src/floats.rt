//! Floats as whole numbers of 64 bits. (In the original this stands with the readings of integers.)
ghost use Rattle.std.specs.Prelude.{◌≡◌};
ghost use Rattle.readings.specs.Floats.{truncated};

use mysql::{Fault, Refusal};
use std::num::{saturating_f32_to_i64, saturating_f64_to_i64};

/// The two ends, -2^63 and 2^63.
const LOW_32: f32 = -9223372036854775808.0;

const HIGH_32: f32 = 9223372036854775808.0;

const LOW_64: f64 = -9223372036854775808.0;

const HIGH_64: f64 = 9223372036854775808.0;

/// A number from one end to the other, without its fraction; 2^63 itself gives the largest i64.
pub fn f32_to_i64(x: f32) -> Result<i64, Fault>
    ensures { result ≡ truncated x }
{
    if x >= LOW_32 && x <= HIGH_32 {
        Ok(saturating_f32_to_i64(x))
    } else {
        Err(Fault::new(Refusal::OutOfRange))
    }
}

/// The same of a double.
pub fn f64_to_i64(x: f64) -> Result<i64, Fault>
    ensures { result ≡ truncated x }
{
    if x >= LOW_64 && x <= HIGH_64 {
        Ok(saturating_f64_to_i64(x))
    } else {
        Err(Fault::new(Refusal::OutOfRange))
    }
}
