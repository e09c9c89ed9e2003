//! What is asked, and of what kind it is.
use mysql::MysqlType;

/// A question: what the original was asked.
#[derive(Clone, Copy)]
pub enum Question<'a> {
    /// the pair that a type asks for
    Asks(MysqlType),
    /// the type of a code and flags
    Type(u8, u32),
    /// the size of a code
    Size(u8),
    /// whether a type keeps a code; and whether it does, for every code
    Kept(MysqlType, u8),
    Keeps(MysqlType),
    /// whether flags are taken
    Flags(u32),
    /// the kind of an error number
    Kind(u16),
    /// a value as an i32, as an i64, and as a time; no bytes where it is null
    Int(MysqlType, Option<&'a [u8]>),
    Big(MysqlType, Option<&'a [u8]>),
    Time(MysqlType, Option<&'a [u8]>),
    /// the events of a recorded result, opened with these wanted types
    Tape(&'a [Option<MysqlType>], &'a [u8]),
    /// what the rows of a tray have, opened with these wanted types
    Tray(u16, &'a [Option<MysqlType>]),
}

/// The kinds of questions.
#[derive(Clone, Copy, PartialEq, Eq, Debug)]
pub enum Kind {
    Asks,
    Type,
    Size,
    Kept,
    Keeps,
    Flags,
    Kind,
    Int,
    Big,
    Time,
    Tape,
    Tray,
}

impl Kind {
    ghost use Rattle.std.specs.Prelude.{◌≡◌, ◌≢◌, MatchOption};
    ghost use Rattle.recorded.specs.declared.question.Kind.{Kind as AnyKind};
    ghost use Rattle.recorded.specs.Kinds.{word_of};

    pub const ALL: [Kind; 12] = [
        Kind::Asks,
        Kind::Type,
        Kind::Size,
        Kind::Kept,
        Kind::Keeps,
        Kind::Flags,
        Kind::Kind,
        Kind::Int,
        Kind::Big,
        Kind::Time,
        Kind::Tape,
        Kind::Tray,
    ];

    /// The kind that a word stands for.
    pub fn of_word(word: &str) -> Option<Kind>
        ensures { MatchOption result ((kind : AnyKind) → word.now ≢ word_of kind) (λ kind. word.now ≡ word_of kind) }
    {
        Some(match word {
            "asks" => Kind::Asks,
            "type" => Kind::Type,
            "size" => Kind::Size,
            "kept" => Kind::Kept,
            "keeps" => Kind::Keeps,
            "flags" => Kind::Flags,
            "kind" => Kind::Kind,
            "int" => Kind::Int,
            "big" => Kind::Big,
            "time" => Kind::Time,
            "tape" => Kind::Tape,
            "tray" => Kind::Tray,
            _ => return None,
        })
    }

    /// The word that begins the lines of its cases.
    pub fn word(self) -> &'static str
        ensures { result.now ≡ word_of self }
    {
        match self {
            Kind::Asks => "asks",
            Kind::Type => "type",
            Kind::Size => "size",
            Kind::Kept => "kept",
            Kind::Keeps => "keeps",
            Kind::Flags => "flags",
            Kind::Kind => "kind",
            Kind::Int => "int",
            Kind::Big => "big",
            Kind::Time => "time",
            Kind::Tape => "tape",
            Kind::Tray => "tray",
        }
    }
}
