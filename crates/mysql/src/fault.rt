//! Why a call was refused.
ghost use Rattle.std.specs.Prelude.{◌≡◌};
ghost use Rattle.mysql.specs.Refusals.{number_of, layer_number, layer_of, names_column, kind_of};
ghost use Rattle.mysql.specs.Faults.{refused, host_failed, at_column, column_of, host_error_of};

use crate::result::DatabaseErrorKind;

/// The numbers by which refusals go.
#[derive(Clone, Copy, PartialEq, Eq, Debug)]
pub enum Refusal {
    /// The session is not opened.
    Unopened = 1,
    /// The session is opened already.
    AlreadyOpened = 2,
    /// The arena is longer than 65,536 bytes, or not as long as it was at the opening.
    ArenaLength = 3,
    /// There is no such column.
    NoSuchColumn = 4,
    /// No row is current.
    NoCurrentRow = 5,
    /// A column's flags have a bit that no flag is known for.
    UnknownFlags = 7,
    /// The layout at the opening is longer than the arena.
    LayoutTooLong = 8,
    /// The host refused a bind, or a fetch failed.
    HostFailed = 9,
    /// A column of a fixed size lost a figure.
    NumericOverflow = 10,
    /// The row needs more bytes than the arena has.
    NoRoom = 11,
    /// A column's code and flags stand for no type.
    NoType = 12,
    /// The value is null.
    UnexpectedNull = 13,
    /// The value has another type than the reading wants.
    WrongType = 14,
    /// The value has too few bytes.
    TooShort = 15,
    /// The byte for a time's sign is neither 0 nor 1.
    InvalidSign = 16,
    /// The time is negative.
    NegativeTime = 17,
    /// The number is out of range, or is no number.
    OutOfRange = 18,
    /// The text is not UTF-8.
    NotUtf8 = 19,
    /// The text has more than one dot.
    ManyDots = 20,
    /// What stands before the dot is no integer of the type.
    InvalidInteger = 21,
    /// The bytes are no tape.
    BrokenTape = 23,
}

impl Refusal {
    /// Its number.
    pub fn number(self) -> u8
        ensures { result ≡ number_of self }
    {
        self as u8
    }
}

/// Which part refused.
#[derive(Clone, Copy, PartialEq, Eq, Debug)]
pub enum Layer {
    Host = 1,
    Session = 2,
    Reading = 3,
}

impl Layer {
    /// Its number.
    pub fn number(self) -> u8
        ensures { result ≡ layer_number self }
    {
        self as u8
    }
}

/// What a host failed with: its error number, and the kind that this number stands for.
#[derive(Clone, Copy, PartialEq, Eq, Debug)]
pub struct HostError {
    pub number: u16,
    pub kind: DatabaseErrorKind,
}

/// The column of a fault that names none.
pub const NO_COLUMN: u8 = 255;

/// A refusal with what is known of it. Layer, column and host error are answered by the refusal's number,
/// so no fault can be made that contradicts the table of refusals.
#[derive(Clone, Copy, PartialEq, Eq, Debug)]
pub struct Fault {
    refusal: Refusal,
    /// The column that the refusal names; 255 where it names none.
    column: u8,
    /// The host's error number, where the host failed; 0 where none is known.
    host: u16,
}

impl Fault {
    /// A refusal of which no column and no host error is known.
    pub fn new(refusal: Refusal) -> Fault
        ensures { result ≡ refused refusal }
    {
        Fault {
            refusal,
            column: NO_COLUMN,
            host: 0,
        }
    }

    /// The host failed with this error number.
    pub fn host(number: u16) -> Fault
        ensures { result ≡ host_failed number }
    {
        Fault {
            refusal: Refusal::HostFailed,
            column: NO_COLUMN,
            host: number,
        }
    }

    /// The same fault with its column put in, where its refusal can name one.
    pub fn at(self, column: u8) -> Fault
        ensures { result ≡ at_column self column }
    {
        if names_column(self.refusal) {
            Fault { column, ..self }
        } else {
            self
        }
    }

    pub fn refusal(self) -> Refusal
        ensures { result ≡ self.refusal }
    {
        self.refusal
    }

    pub fn number(self) -> u8
        ensures { result ≡ number_of self.refusal }
    {
        self.refusal.number()
    }

    pub fn layer(self) -> Layer
        ensures { result ≡ layer_of self.refusal }
    {
        match self.refusal {
            Refusal::HostFailed | Refusal::BrokenTape => Layer::Host,
            Refusal::Unopened
            | Refusal::AlreadyOpened
            | Refusal::ArenaLength
            | Refusal::NoSuchColumn
            | Refusal::NoCurrentRow
            | Refusal::UnknownFlags
            | Refusal::LayoutTooLong
            | Refusal::NumericOverflow
            | Refusal::NoRoom
            | Refusal::NoType => Layer::Session,
            Refusal::UnexpectedNull
            | Refusal::WrongType
            | Refusal::TooShort
            | Refusal::InvalidSign
            | Refusal::NegativeTime
            | Refusal::OutOfRange
            | Refusal::NotUtf8
            | Refusal::ManyDots
            | Refusal::InvalidInteger => Layer::Reading,
        }
    }

    /// The column that the fault names, or 255.
    pub fn column(self) -> u8
        ensures { result ≡ column_of self }
    {
        if names_column(self.refusal) {
            self.column
        } else {
            NO_COLUMN
        }
    }

    /// What the host failed with, where it was the host that failed.
    pub fn host_error(self) -> Option<HostError>
        ensures { result ≡ host_error_of self }
    {
        match self.refusal {
            Refusal::HostFailed => Some(HostError {
                number: self.host,
                kind: DatabaseErrorKind::from(self.host),
            }),
            _ => None,
        }
    }
}

/// Whether a refusal can name a column.
fn names_column(refusal: Refusal) -> bool
    ensures { result ≡ names_column refusal }
{
    matches!(
        refusal,
        Refusal::UnknownFlags
            | Refusal::NumericOverflow
            | Refusal::NoType
            | Refusal::UnexpectedNull
            | Refusal::WrongType
            | Refusal::TooShort
            | Refusal::InvalidSign
            | Refusal::NegativeTime
            | Refusal::OutOfRange
            | Refusal::NotUtf8
            | Refusal::ManyDots
            | Refusal::InvalidInteger
    )
}

/// The kind of failure that a MySQL error number stands for, under the original's name.
pub fn last_error_type(number: u16) -> DatabaseErrorKind
    ensures { result ≡ kind_of number }
{
    DatabaseErrorKind::from(number)
}
