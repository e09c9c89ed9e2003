//! What kind of failure a database reported.
ghost use Rattle.std.specs.Prelude.{◌≡◌};
ghost use Rattle.mysql.specs.Refusals.{kind_number, kind_of};

/// The numbers are those of the original, where they do not follow the order of declaration.
#[derive(Clone, Copy, PartialEq, Eq, Debug)]
pub enum DatabaseErrorKind {
    UniqueViolation = 0,
    ForeignKeyViolation = 1,
    UnableToSendCommand = 2,
    SerializationFailure = 3,
    ReadOnlyTransaction = 4,
    RestrictViolation = 9,
    NotNullViolation = 5,
    CheckViolation = 6,
    ExclusionViolation = 10,
    ClosedConnection = 7,
    Unknown = 8,
}

impl DatabaseErrorKind {
    /// Its number.
    pub fn number(self) -> u8
        ensures { result ≡ kind_number self }
    {
        self as u8
    }
}

/// The kind of failure that a MySQL error number stands for.
impl From<u16> for DatabaseErrorKind {
    ghost from_gives = { λ number kind. kind ≡ kind_of number };

    fn from(number: u16) -> DatabaseErrorKind {
        match number {
            1062 | 1586 | 1859 => DatabaseErrorKind::UniqueViolation,
            1216 | 1217 | 1451 | 1452 | 1830 | 1834 => DatabaseErrorKind::ForeignKeyViolation,
            1792 => DatabaseErrorKind::ReadOnlyTransaction,
            1048 | 1364 => DatabaseErrorKind::NotNullViolation,
            3819 => DatabaseErrorKind::CheckViolation,
            1213 => DatabaseErrorKind::SerializationFailure,
            _ => DatabaseErrorKind::Unknown,
        }
    }
}
