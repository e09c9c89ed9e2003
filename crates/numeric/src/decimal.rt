//! Numeric text as an integer. (In the original this stands with the readings of integers.)
ghost use Rattle.std.specs.Prelude.{◌≡◌, ℕ, ◌-◌, ◌^◌, ◌<◌, ◌≤◌, true, false, IfSome};
ghost use Rattle.numeric.specs.Utf8.{utf8};
ghost use Rattle.mysql.specs.Answers.{through};
ghost use Rattle.numeric.specs.Decimals.{dots, before_dot, natural, positive, negative, integer_text, decimal};

use crate::target::Target;
use mysql::{Fault, Refusal};

/// Whether bytes are UTF-8.
fn is_utf8(bytes: &[u8]) -> bool
    ensures { result ≡ utf8 bytes.now }
{
    std::str::from_utf8(bytes).is_ok()
}

/// How many dots there are.
fn count_dots(bytes: &[u8]) -> usize
    ensures { result ≡ dots bytes.now }
{
    bytes.iter().map(|b| usize::from(*b == b'.')).sum()
}

/// The number that the digits before the first dot write, where it is at most `limit`.
fn magnitude(text: &[u8], limit: u64) -> Option<u64>
    requires { 9 ≤ limit }
    ensures { result ≡ natural limit (before_dot text.now) }
{
    let [b'0'..=b'9', ..] = text else {
        return None;
    };
    let mut sum: u64 = 0;
    for b in text {
        match *b {
            b'.' => return Some(sum),
            b'0'..=b'9' => {
                let digit = u64::from(*b - b'0');
                if sum > (limit - digit) / 10 {
                    return None;
                }
                sum = 10 * sum + digit;
            }
            _ => return None,
        }
    }
    Some(sum)
}

/// A magnitude as a number.
fn plain(magnitude: Option<u64>) -> Result<i64, Fault>
    requires { IfSome magnitude (λ n. n < 2 ^ 63) }
    ensures { result ≡ positive magnitude }
{
    match magnitude {
        Some(n) => Ok(n as i64),
        None => Err(Fault::new(Refusal::InvalidInteger)),
    }
}

/// A magnitude as a number below zero. The lowest i64 has a magnitude that no i64 has.
fn negated(magnitude: Option<u64>) -> Result<i64, Fault>
    requires { IfSome magnitude (λ n. n ≤ 2 ^ 63) }
    ensures { result ≡ negative magnitude }
{
    match magnitude {
        Some(n) => Ok(-i128::from(n) as i64),
        None => Err(Fault::new(Refusal::InvalidInteger)),
    }
}

/// The integer before the first dot, from -half up to half - 1.
fn integer_part(text: &[u8], half: u64) -> Result<i64, Fault>
    requires low { 10 ≤ half }
    requires high { half ≤ 2 ^ 63 }
    ensures { result ≡ integer_text half (before_dot text.now) }
{
    match text {
        [b'-', digits @ ..] => negated(magnitude(digits, half)),
        [b'+', digits @ ..] => plain(magnitude(digits, half - 1)),
        [] => Err(Fault::new(Refusal::InvalidInteger)),
        digits => plain(magnitude(digits, half - 1)),
    }
}

/// The integer before the dot of a numeric text; what stands after the dot is dropped.
pub fn decimal_to_integer<T: Target>(bytes: &[u8]) -> Result<T, Fault>
    ensures { through T.Target.whole result ≡ decimal T.Target.half bytes.now }
{
    if !is_utf8(bytes) {
        return Err(Fault::new(Refusal::NotUtf8));
    }
    if count_dots(bytes) > 1 {
        return Err(Fault::new(Refusal::ManyDots));
    }
    T::narrow(integer_part(bytes, T::half_range())?)
}
