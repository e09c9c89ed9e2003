//! A value of a result, and the number that it holds.
ghost use Rattle.std.specs.Prelude.{◌≡◌, ℕ, ◌<◌, ◌≤◌, length, take, from_bits};
ghost use Rattle.std.specs.Float.{binary32, binary64};
ghost use Rattle.std.proofs.Common.{to_z};
ghost use Rattle.std.specs.Int.{w8, w16, w32, w64};
ghost use Rattle.mysql.specs.Answers.{through};
ghost use Rattle.readings.specs.Bytes.{le, prefix};
ghost use Rattle.readings.specs.Values.{Holds, representation};

use mysql::{Fault, MysqlType, Refusal};
use std::num::{f32_from_bits_with_nan, f64_from_bits_with_nan};

/// Bytes with the type that they have: a view, which copies nothing.
#[derive(Clone, Copy)]
pub struct MysqlValue<'a> {
    raw: &'a [u8],
    tpe: MysqlType,
}

/// A number as a value holds it.
#[derive(Clone, Copy)]
pub enum NumericRepresentation<'a> {
    Tiny(i8),
    UnsignedTiny(u8),
    Small(i16),
    UnsignedSmall(u16),
    Medium(i32),
    UnsignedMedium(u32),
    Big(i64),
    UnsignedBig(u64),
    Float(f32),
    Double(f64),
    Decimal(&'a [u8]),
}

impl<'a> MysqlValue<'a> {
    pub fn new(raw: &'a [u8], tpe: MysqlType) -> MysqlValue<'a>
        ensures raw { result.raw.now ≡ raw.now }
        ensures tpe { result.tpe ≡ tpe }
    {
        MysqlValue { raw, tpe }
    }

    pub fn as_bytes(&self) -> &'a [u8]
        ensures { result.now ≡ self.now.raw.now }
    {
        self.raw
    }

    pub fn value_type(&self) -> MysqlType
        ensures { result ≡ self.now.tpe }
    {
        self.tpe
    }

    /// The number that the value holds, where its type is one of numbers.
    pub fn numeric_value(&self) -> Result<NumericRepresentation<'a>, Fault>
        ensures holds { Holds self.now.tpe self.now.raw result }
        ensures exact { result ≡ representation self.now.tpe self.now.raw }
    {
        let raw = self.raw;
        Ok(match self.tpe {
            MysqlType::Tiny => NumericRepresentation::Tiny(read(raw)?),
            MysqlType::UnsignedTiny => NumericRepresentation::UnsignedTiny(read(raw)?),
            MysqlType::Short => NumericRepresentation::Small(read(raw)?),
            MysqlType::UnsignedShort => NumericRepresentation::UnsignedSmall(read(raw)?),
            MysqlType::Long => NumericRepresentation::Medium(read(raw)?),
            MysqlType::UnsignedLong => NumericRepresentation::UnsignedMedium(read(raw)?),
            MysqlType::LongLong => NumericRepresentation::Big(read(raw)?),
            MysqlType::UnsignedLongLong => NumericRepresentation::UnsignedBig(read(raw)?),
            MysqlType::Float => NumericRepresentation::Float(read(raw)?),
            MysqlType::Double => NumericRepresentation::Double(read(raw)?),
            MysqlType::Numeric => NumericRepresentation::Decimal(raw),
            _ => return Err(Fault::new(Refusal::WrongType)),
        })
    }
}

/// A number that lies in so many bytes, lowest first.
pub(crate) trait FromNeBytes: Sized {
    /// How many bytes it takes.
    const WIDTH: usize;

    ghost width: { ℕ };

    // The number, from the one that its bytes are without a sign.
    ghost value: { ℕ → Self };

    /// `WIDTH`, with what generic code has to know of it.
    fn needed() -> usize
        ensures { result ≡ width };

    fn from_ne_prefix(bytes: &[u8]) -> Self
        requires { width ≤ length bytes.now }
        ensures { result ≡ value (le (take width bytes.now)) };
}

/// The number in the first bytes, where there are enough.
pub(crate) fn read<T: FromNeBytes>(raw: &[u8]) -> Result<T, Fault>
    ensures { result ≡ through T.FromNeBytes.value (prefix T.FromNeBytes.width raw.now) }
{
    if raw.len() < T::needed() {
        return Err(Fault::new(Refusal::TooShort));
    }
    Ok(T::from_ne_prefix(raw))
}

impl FromNeBytes for i8 {
    const WIDTH: usize = 1;

    ghost width = { 1 };

    ghost value = { to_z w8 };

    fn needed() -> usize {
        Self::WIDTH
    }

    fn from_ne_prefix(bytes: &[u8]) -> i8 {
        i8::from_ne_bytes([bytes[0]])
    }
}

impl FromNeBytes for u8 {
    const WIDTH: usize = 1;

    ghost width = { 1 };

    ghost value = { λ n. n };

    fn needed() -> usize {
        Self::WIDTH
    }

    fn from_ne_prefix(bytes: &[u8]) -> u8 {
        u8::from_ne_bytes([bytes[0]])
    }
}

impl FromNeBytes for i16 {
    const WIDTH: usize = 2;

    ghost width = { 2 };

    ghost value = { to_z w16 };

    fn needed() -> usize {
        Self::WIDTH
    }

    fn from_ne_prefix(bytes: &[u8]) -> i16 {
        i16::from_ne_bytes([bytes[0], bytes[1]])
    }
}

impl FromNeBytes for u16 {
    const WIDTH: usize = 2;

    ghost width = { 2 };

    ghost value = { λ n. n };

    fn needed() -> usize {
        Self::WIDTH
    }

    fn from_ne_prefix(bytes: &[u8]) -> u16 {
        u16::from_ne_bytes([bytes[0], bytes[1]])
    }
}

impl FromNeBytes for i32 {
    const WIDTH: usize = 4;

    ghost width = { 4 };

    ghost value = { to_z w32 };

    fn needed() -> usize {
        Self::WIDTH
    }

    fn from_ne_prefix(bytes: &[u8]) -> i32 {
        i32::from_ne_bytes([bytes[0], bytes[1], bytes[2], bytes[3]])
    }
}

impl FromNeBytes for u32 {
    const WIDTH: usize = 4;

    ghost width = { 4 };

    ghost value = { λ n. n };

    fn needed() -> usize {
        Self::WIDTH
    }

    fn from_ne_prefix(bytes: &[u8]) -> u32 {
        u32::from_ne_bytes([bytes[0], bytes[1], bytes[2], bytes[3]])
    }
}

impl FromNeBytes for i64 {
    const WIDTH: usize = 8;

    ghost width = { 8 };

    ghost value = { to_z w64 };

    fn needed() -> usize {
        Self::WIDTH
    }

    fn from_ne_prefix(bytes: &[u8]) -> i64 {
        i64::from_ne_bytes([
            bytes[0], bytes[1], bytes[2], bytes[3], bytes[4], bytes[5], bytes[6], bytes[7],
        ])
    }
}

impl FromNeBytes for u64 {
    const WIDTH: usize = 8;

    ghost width = { 8 };

    ghost value = { λ n. n };

    fn needed() -> usize {
        Self::WIDTH
    }

    fn from_ne_prefix(bytes: &[u8]) -> u64 {
        u64::from_ne_bytes([
            bytes[0], bytes[1], bytes[2], bytes[3], bytes[4], bytes[5], bytes[6], bytes[7],
        ])
    }
}

impl FromNeBytes for f32 {
    const WIDTH: usize = 4;

    ghost width = { 4 };

    ghost value = { from_bits binary32 };

    fn needed() -> usize {
        Self::WIDTH
    }

    fn from_ne_prefix(bytes: &[u8]) -> f32 {
        f32_from_bits_with_nan(u32::from_ne_prefix(bytes))
    }
}

impl FromNeBytes for f64 {
    const WIDTH: usize = 8;

    ghost width = { 8 };

    ghost value = { from_bits binary64 };

    fn needed() -> usize {
        Self::WIDTH
    }

    fn from_ne_prefix(bytes: &[u8]) -> f64 {
        f64_from_bits_with_nan(u64::from_ne_prefix(bytes))
    }
}
