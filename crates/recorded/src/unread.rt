//! Why a line cannot be read.
use std::alloc::AllocError;
use std::error::Error;
use std::fmt;

#[derive(Clone, Copy, PartialEq, Eq, Debug)]
pub enum Unread {
    /// The input ends in the middle of it.
    CutShort,
    NotUtf8,
    /// Its first word says of no kind of case that it is one.
    UnknownKind,
    /// Some words are missing.
    TooShort,
    /// A word is no number, or is out of range.
    NoNumber,
    /// No type has the number.
    NoType,
    /// A word does not write bytes in hexadecimal.
    NoBytes,
    /// There was no memory for it.
    OutOfMemory,
}

impl fmt::Display for Unread {
    fn fmt<W: fmt::Write>(&self, f: &mut fmt::Formatter<W>) -> fmt::Result {
        f.write_str(match self {
            Unread::CutShort => "it has no end",
            Unread::NotUtf8 => "it is not UTF-8",
            Unread::UnknownKind => "its first word is unknown",
            Unread::TooShort => "words are missing",
            Unread::NoNumber => "a word is no number, or out of range",
            Unread::NoType => "no type has the number",
            Unread::NoBytes => "a word is not bytes in hexadecimal",
            Unread::OutOfMemory => "there is no memory for it",
        })
    }
}

impl Error for Unread {}

impl From<AllocError> for Unread {
    ghost use Rattle.std.specs.Prelude.{◌≡◌};
    ghost use Rattle.recorded.specs.declared.unread.Unread.TheVariants.{OutOfMemory};

    ghost from_gives = { λ _ e. e ≡ OutOfMemory };

    fn from(_e: AllocError) -> Unread {
        Unread::OutOfMemory
    }
}
