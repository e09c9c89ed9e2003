//! Refusals in words, for people who read what a program prints. It is a crate of its own since a type's `Display` is proved
//! again with each edit that its crate must refuse.
#![tactic(auto)]

use mysql::{Fault, HostError, Layer, NO_COLUMN, Refusal};
use std::fmt;

/// A fault, a layer or a refusal, to be printed in words.
#[derive(Clone, Copy)]
pub struct InWords<T>(pub T);

/// As `refusal 10 (layer 2, session), column 1: the number lost a figure on its way into the column`.
impl fmt::Display for InWords<Fault> {
    fn fmt<W: fmt::Write>(&self, f: &mut fmt::Formatter<W>) -> fmt::Result {
        let fault = self.0;
        let layer = fault.layer();
        write!(
            f,
            "refusal {} (layer {}, {})",
            fault.number(),
            layer.number(),
            InWords(layer)
        )?;
        let column = fault.column();
        if column != NO_COLUMN {
            write!(f, ", column {column}")?;
        }
        write!(f, ": {}", InWords(fault.refusal()))?;
        if let Some(HostError { number, kind }) = fault.host_error() {
            write!(f, ", error {number} ({kind:?})")?;
        }
        Ok(())
    }
}

impl fmt::Display for InWords<Layer> {
    fn fmt<W: fmt::Write>(&self, f: &mut fmt::Formatter<W>) -> fmt::Result {
        f.write_str(match self.0 {
            Layer::Host => "host",
            Layer::Session => "session",
            Layer::Reading => "reading",
        })
    }
}

impl fmt::Display for InWords<Refusal> {
    fn fmt<W: fmt::Write>(&self, f: &mut fmt::Formatter<W>) -> fmt::Result {
        f.write_str(match self.0 {
            Refusal::Unopened => "the session is not opened",
            Refusal::AlreadyOpened => "the session is opened already",
            Refusal::ArenaLength =>
                "the arena is over 65536 bytes long, or not as long as at the opening",
            Refusal::NoSuchColumn => "there is no such column",
            Refusal::NoCurrentRow => "no row is current",
            Refusal::UnknownFlags => "the column's flags have an unknown bit",
            Refusal::LayoutTooLong => "the arena is too short for the columns",
            Refusal::HostFailed => "the client library failed",
            Refusal::NumericOverflow => "the number lost a figure on its way into the column",
            Refusal::NoRoom => "the arena is too short for the row",
            Refusal::NoType => "the column's code and flags stand for no type",
            Refusal::UnexpectedNull => "the value is null",
            Refusal::WrongType => "the value has another type",
            Refusal::TooShort => "the value has too few bytes",
            Refusal::InvalidSign => "the byte for the time's sign is neither 0 nor 1",
            Refusal::NegativeTime => "the time is negative",
            Refusal::OutOfRange => "the number is out of range",
            Refusal::NotUtf8 => "the text is not UTF-8",
            Refusal::ManyDots => "the text has more than one dot",
            Refusal::InvalidInteger => "the text before the dot is no integer of the type",
            Refusal::BrokenTape => "the bytes are no tape",
        })
    }
}
