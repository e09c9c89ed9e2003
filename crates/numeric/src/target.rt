//! The integer types that values are read as.
ghost use Rattle.std.specs.Prelude.{◌≡◌, ℕ, ◌^◌, ◌≤◌, ℤ};
ghost use Rattle.mysql.specs.Answers.{through};
ghost use Rattle.numeric.specs.Targets.{in_range};

use mysql::{Fault, Refusal};

/// An integer type, which holds the numbers from -half up to half - 1.
pub trait Target: Sized {
    ghost half: { ℕ };

    // The whole number that it is.
    ghost whole: { Self → ℤ };

    fn half_range() -> u64
        ensures is { result ≡ half }
        ensures low { 10 ≤ result }
        ensures high { result ≤ 2 ^ 63 };

    /// The same number, where the type holds it.
    fn narrow(x: i64) -> Result<Self, Fault>
        ensures { through whole result ≡ in_range half x };
}

/// Two impls of two lines each: a default body of `narrow` would ask `TryFrom<i64>` of every target.
impl Target for i32 {
    ghost half = { 2 ^ 31 };

    ghost whole = { λ x. x };

    fn half_range() -> u64 {
        1 << 31
    }

    fn narrow(x: i64) -> Result<i32, Fault> {
        i32::try_from(x).map_err(|_| Fault::new(Refusal::OutOfRange))
    }
}

impl Target for i64 {
    ghost half = { 2 ^ 63 };

    ghost whole = { λ x. x };

    fn half_range() -> u64 {
        1 << 63
    }

    fn narrow(x: i64) -> Result<i64, Fault> {
        Ok(x)
    }
}
