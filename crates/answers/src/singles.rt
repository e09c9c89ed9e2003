//! Answers of a type, a size, a flag or one reading.
ghost use Rattle.std.specs.Prelude.{◌≡◌, ◌≤◌, cond, Ok};
ghost use Rattle.mysql.specs.Refusals.{kind_of};
ghost use Rattle.mysql.specs.Types.{type_of, size_of};
ghost use Rattle.mysql.specs.Taken.{flags_of};
ghost use Rattle.mysql.specs.Kept.{keeps};
ghost use Rattle.readings.specs.Times.{time};
ghost use Rattle.answers.specs.Texts.{number, Puts};
ghost use Rattle.answers.specs.Singles.{asks, keeps_word, kept_bits, type_word, size_word, flags_word, kind_number, integer_word, date_words, clock_words, further_words, time_words};
ghost use Rattle.answers.specs.Answers.{read};

use crate::text::Text;
use itoa::Integer;
use mysql::*;
use readings::{FromSql, MysqlTime, MysqlValue, from_nullable_sql};

/// A value that may be null, read as a type.
fn reading<T: FromSql>(tpe: MysqlType, bytes: Option<&[u8]>) -> Result<T, Fault>
    ensures { result ≡ read T.FromSql.reads tpe bytes.entry }
{
    from_nullable_sql(bytes.map(|bytes| MysqlValue::new(bytes, tpe)))
}

/// Whether a type keeps a code, as a bit.
fn kept_bit(tpe: MysqlType, code: u8) -> u8
    ensures bit { result ≡ cond (keeps tpe code) 1 0 }
    ensures small { result ≤ 1 }
{
    u8::from(is_kept(tpe, code))
}

/// Which of four codes, and of eight, a type keeps.
fn kept_half(tpe: MysqlType, first: u8) -> u8
    requires { first ≤ 252 }
    ensures bits { result ≡ kept_bits tpe first 4 }
    ensures small { result ≤ 15 }
{
    let low = kept_bit(tpe, first) + 2 * kept_bit(tpe, first + 1);
    let high = kept_bit(tpe, first + 2) + 2 * kept_bit(tpe, first + 3);
    low + 4 * high
}

fn kept_byte(tpe: MysqlType, first: u8) -> u8
    requires { first ≤ 248 }
    ensures { result ≡ kept_bits tpe first 8 }
{
    kept_half(tpe, first) + 16 * kept_half(tpe, first + 4)
}

impl Text {
    /// The pair that a type asks for.
    pub(crate) fn asks(&mut self, tpe: MysqlType)
        ensures { Puts self.old self.new (asks tpe) }
    {
        let (code, flags) = <(u8, u32)>::from(tpe);
        self.number(code);
        self.number(flags);
    }

    /// The type of a pair; `-` is refusal 12.
    pub(crate) fn tpe(&mut self, code: u8, flags: u32)
        ensures { Puts self.old self.new (type_word (type_of code flags)) }
    {
        match MysqlType::try_from((code, flags)) {
            Ok(tpe) => self.number(tpe.number()),
            Err(fault) if fault.number() == Refusal::NoType.number() => self.part(b" -"),
            Err(fault) => self.refusal(fault),
        }
    }

    /// The size of a code; `-` is none.
    pub(crate) fn size(&mut self, code: u8)
        ensures { Puts self.old self.new (size_word (size_of code)) }
    {
        match known_buffer_size_for_ffi_type(code) {
            Some(size) => self.number(size),
            None => self.part(b" -"),
        }
    }

    /// Whether a type keeps a code, as 0 or 1.
    pub(crate) fn kept(&mut self, tpe: MysqlType, code: u8)
        ensures { Puts self.old self.new (number (cond (keeps tpe code) 1 0)) }
    {
        self.number(u8::from(is_kept(tpe, code)));
    }

    /// Which codes a type keeps: a bit each, the lowest of each byte first.
    pub(crate) fn keeps(&mut self, tpe: MysqlType)
        ensures { Puts self.old self.new (keeps_word tpe) }
    {
        self.part(b" ");
        for i in 0..32 {
            self.hexadecimal(&[kept_byte(tpe, 8 * i)]);
        }
    }

    /// Whether flags are taken; `no` is refusal 7.
    pub(crate) fn flags(&mut self, flags: u32)
        ensures { Puts self.old self.new (flags_word flags (flags_of flags)) }
    {
        match known_flags(flags) {
            Ok(taken) if taken == flags => self.part(b" ok"),
            Ok(taken) => self.number(taken),
            Err(fault) if fault.number() == Refusal::UnknownFlags.number() => self.part(b" no"),
            Err(fault) => self.refusal(fault),
        }
    }

    /// The kind of an error number.
    pub(crate) fn kind(&mut self, error: u16)
        ensures { Puts self.old self.new (number (kind_number (kind_of error))) }
    {
        self.number(DatabaseErrorKind::from(error).number());
    }

    /// A value as an integer.
    pub(crate) fn integer<T: FromSql + Integer>(&mut self, tpe: MysqlType, bytes: Option<&[u8]>)
        ensures { Puts self.old self.new (integer_word T.Integer.text (read T.FromSql.reads tpe bytes.entry)) }
    {
        match reading::<T>(tpe, bytes) {
            Ok(number) => self.number(number),
            Err(fault) => self.refusal(fault),
        }
    }

    /// A value as a time.
    pub(crate) fn time(&mut self, tpe: MysqlType, bytes: Option<&[u8]>)
        ensures { Puts self.old self.new (time_words (read time tpe bytes.entry)) }
    {
        match reading::<MysqlTime>(tpe, bytes) {
            Ok(time) => self.fields(&time),
            Err(fault) => self.refusal(fault),
        }
    }

    fn fields(&mut self, time: &MysqlTime)
        ensures { Puts self.old self.new (time_words (Ok time.now)) }
    {
        self.date(time);
        self.clock(time);
        self.further(time);
    }

    fn date(&mut self, time: &MysqlTime)
        ensures { Puts self.old self.new (date_words time.now) }
    {
        self.number(time.year);
        self.number(time.month);
        self.number(time.day);
    }

    fn clock(&mut self, time: &MysqlTime)
        ensures { Puts self.old self.new (clock_words time.now) }
    {
        self.number(time.hour);
        self.number(time.minute);
        self.number(time.second);
    }

    fn further(&mut self, time: &MysqlTime)
        ensures { Puts self.old self.new (further_words time.now) }
    {
        self.number(time.second_part);
        self.number(time.time_type);
        self.number(time.time_zone_displacement);
    }
}
