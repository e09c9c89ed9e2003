//! What can be asked of a session, and what it answers.
ghost use Rattle.std.specs.Prelude.{◌≡◌};
ghost use Rattle.play.specs.declared.calls.Answer.TheVariants.{Integer, BigInt, Time};
ghost use Rattle.play.specs.Calls.{fetch_answered, held_in};

use mysql::{Fault, MysqlType};
use readings::MysqlTime;
use rows::Fetch;

/// One call of a session over one arena.
#[derive(Clone, Copy)]
pub enum Call<'a> {
    /// An opening with these wanted types.
    Open(&'a [Option<MysqlType>]),
    Fetch,
    /// A reading of a column: raw, as an i32, as an i64, or as a time.
    Read(usize),
    ReadInteger(usize),
    ReadBigInt(usize),
    ReadTime(usize),
}

/// What a call answers. The bytes of a value are lent (`Answer<&[u8]>`) or a copy (`Answer<Vec<u8>>`).
#[derive(Drop)]
pub enum Answer<B> {
    Opened,
    Row,
    End,
    Null,
    /// The bytes, with their type.
    Bytes(MysqlType, B),
    Integer(i32),
    BigInt(i64),
    Time(MysqlTime),
    Refused(Fault),
}

/// What a fetch came to.
impl<B> From<Result<Fetch, Fault>> for Answer<B> {
    ghost from_gives = { λ fetched answer. answer ≡ fetch_answered fetched };

    fn from(fetched: Result<Fetch, Fault>) -> Answer<B> {
        match fetched {
            Ok(Fetch::Row) => Answer::Row,
            Ok(Fetch::End) => Answer::End,
            Err(fault) => Answer::Refused(fault),
        }
    }
}

/// What a reading as a type came to.
impl<B> From<Result<i32, Fault>> for Answer<B> {
    ghost from_gives = { λ read answer. answer ≡ held_in Integer read };

    fn from(read: Result<i32, Fault>) -> Answer<B> {
        match read {
            Ok(value) => Answer::Integer(value),
            Err(fault) => Answer::Refused(fault),
        }
    }
}

impl<B> From<Result<i64, Fault>> for Answer<B> {
    ghost from_gives = { λ read answer. answer ≡ held_in BigInt read };

    fn from(read: Result<i64, Fault>) -> Answer<B> {
        match read {
            Ok(value) => Answer::BigInt(value),
            Err(fault) => Answer::Refused(fault),
        }
    }
}

impl<B> From<Result<MysqlTime, Fault>> for Answer<B> {
    ghost from_gives = { λ read answer. answer ≡ held_in Time read };

    fn from(read: Result<MysqlTime, Fault>) -> Answer<B> {
        match read {
            Ok(value) => Answer::Time(value),
            Err(fault) => Answer::Refused(fault),
        }
    }
}
