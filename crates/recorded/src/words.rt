//! The words of a line.
ghost use Rattle.std.specs.Prelude.{◌≡◌, ℕ, ◌≤◌, None, Some, Option, MatchResult, vec_capacity};
ghost use Rattle.recorded.specs.declared.unread.Unread.TheVariants.{TooShort, NoNumber};
ghost use Rattle.recorded.specs.Lines.{left, text_of, Cuts};
ghost use Rattle.recorded.specs.Grammar.{a_type, a_number, some_bytes, a_value, the_wanted, of_type, of_number, of_bytes, of_value, of_wanted, Entry, Lists, Writes};
ghost use Rattle.recorded.specs.Refused.{IsReason, Misspelled, Reads, ReadsWord};

use crate::types::type_numbered;
use crate::unread::Unread;
use mysql::MysqlType;
use std::alloc::AllocError;
use std::str::FromStr;

/// What is left of a line, where anything is: words with a space between each two. A word that is refused is taken off too.
#[derive(Clone, Copy)]
pub(crate) struct Words<'a> {
    rest: Option<&'a str>,
}

impl<'a> Words<'a> {
    pub(crate) fn new(line: &'a str) -> Words<'a>
        ensures { left result ≡ Some line.now }
    {
        Words { rest: Some(line) }
    }

    /// All that is left.
    pub(crate) fn rest(self) -> Result<&'a str, Unread>
        ensures { MatchResult result (λ rest. left self.entry ≡ Some rest.now) (λ e. (e ≡ TooShort) × (left self.entry ≡ None)) }
    {
        self.rest.ok_or(Unread::TooShort)
    }

    /// The next word.
    pub(crate) fn word(&mut self) -> Result<&'a str, Unread>
        ensures { MatchResult result (λ word. Cuts (left self.old) word.now (left self.new)) (λ e. (e ≡ TooShort) × (left self.old ≡ None) × (left self.new ≡ None)) }
    {
        let rest = self.rest.ok_or(Unread::TooShort)?;
        match rest.split_once(' ') {
            Some((word, after)) => {
                self.rest = Some(after);
                Ok(word)
            }
            None => {
                self.rest = None;
                Ok(rest)
            }
        }
    }

    pub(crate) fn read_u8(&mut self) -> Result<u8, Unread>
        ensures { (room : ℕ) → Reads (λ n. a_number 8 n) (of_number 8) room (left self.old) result (left self.new) }
    {
        number_in(self.word()?)
    }

    pub(crate) fn read_u16(&mut self) -> Result<u16, Unread>
        ensures { (room : ℕ) → Reads (λ n. a_number 16 n) (of_number 16) room (left self.old) result (left self.new) }
    {
        number_in(self.word()?)
    }

    pub(crate) fn read_u32(&mut self) -> Result<u32, Unread>
        ensures { (room : ℕ) → Reads (λ n. a_number 32 n) (of_number 32) room (left self.old) result (left self.new) }
    {
        number_in(self.word()?)
    }

    pub(crate) fn tpe(&mut self) -> Result<MysqlType, Unread>
        ensures { (room : ℕ) → Reads a_type of_type room (left self.old) result (left self.new) }
    {
        type_in(self.word()?)
    }

    /// Bytes, put in place of those that the vector has.
    pub(crate) fn bytes<'b>(&mut self, bytes: &'b mut Vec<u8>) -> Result<&'b [u8], Unread>
        ensures { (room : ℕ) → room ≤ vec_capacity bytes.old → Reads (λ b. some_bytes b.now) of_bytes room (left self.old) result (left self.new) }
    {
        bytes_in(self.word()?, bytes)?;
        Ok(bytes.as_slice())
    }

    /// The bytes of a value; none where it is null.
    pub(crate) fn value<'b>(&mut self, bytes: &'b mut Vec<u8>) -> Result<Option<&'b [u8]>, Unread>
        ensures { (room : ℕ) → room ≤ vec_capacity bytes.old → Reads (λ b. a_value (text_of b)) of_value room (left self.old) result (left self.new) }
    {
        let word = self.word()?;
        if word == "null" {
            return Ok(None);
        }
        bytes_in(word, bytes)?;
        Ok(Some(bytes.as_slice()))
    }

    /// Wanted types, put in place of those that the vector has.
    pub(crate) fn wanted<'b>(
        &mut self,
        wanted: &'b mut Vec<Option<MysqlType>>,
    ) -> Result<&'b [Option<MysqlType>], Unread>
        ensures { (room : ℕ) → room ≤ vec_capacity wanted.old → Reads (λ w. the_wanted w.now) of_wanted room (left self.old) result (left self.new) }
    {
        wanted_in(self.word()?, wanted)?;
        Ok(wanted.as_slice())
    }
}

fn number_in<N: FromStr>(word: &str) -> Result<N, Unread>
where
    N::Err: Drop,
    ensures { MatchResult result (λ n. N.FromStr.from_str_gives word.now (Ok n)) (λ e. (e ≡ NoNumber) × ((x : N.Err) × N.FromStr.from_str_gives word.now (Err x))) }
{
    word.parse::<N>().map_err(|_| Unread::NoNumber)
}

fn type_in(word: &str) -> Result<MysqlType, Unread>
    ensures { (room : ℕ) → ReadsWord a_type of_type room word.now result }
{
    type_numbered(number_in(word)?).ok_or(Unread::NoType)
}

/// `_` is none.
fn entry_in(word: &str) -> Result<Option<MysqlType>, Unread>
    ensures { MatchResult result (λ entry. Entry word.now entry) (λ e. IsReason of_wanted e × ((entry : Option _) → Entry word.now entry → ⊥)) }
{
    if word == "_" {
        Ok(None)
    } else {
        Ok(Some(type_in(word)?))
    }
}

/// `-` is the empty list.
fn wanted_in(word: &str, wanted: &mut Vec<Option<MysqlType>>) -> Result<(), Unread>
    ensures { (room : ℕ) → room ≤ vec_capacity wanted.old → MatchResult result (λ _. Lists word.now wanted.new.items) (λ e. Misspelled room word.now of_wanted e) }
{
    wanted.clear();
    if word != "-" {
        for entry in word.split(',') {
            wanted.push(entry_in(entry)?).map_err(AllocError::from)?;
        }
    }
    Ok(())
}

/// `-` is no bytes.
fn bytes_in(word: &str, bytes: &mut Vec<u8>) -> Result<(), Unread>
    ensures { (room : ℕ) → room ≤ vec_capacity bytes.old → MatchResult result (λ _. Writes word.now bytes.new.items) (λ e. Misspelled room word.now of_bytes e) }
{
    bytes.clear();
    if word.is_empty() {
        return Err(Unread::NoBytes);
    }
    if word != "-" {
        bytes.resize(word.len() / 2, 0)?;
        hex::decode_to_slice(word, bytes.as_mut_slice()).map_err(|_| Unread::NoBytes)?;
    }
    Ok(())
}
