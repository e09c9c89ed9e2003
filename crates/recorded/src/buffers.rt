//! Reading a line.
ghost use Rattle.std.specs.Prelude.{◌≡◌, ℕ, ◌≤◌, List, length, MatchResult, IfOk, IfErr};
ghost use Rattle.recorded.specs.declared.question.Question.{Question as AnyQuestion};
ghost use Rattle.recorded.specs.declared.unread.Unread.TheVariants.{OutOfMemory};
ghost use Rattle.recorded.specs.Kinds.{kind_of};
ghost use Rattle.recorded.specs.Lines.{left};
ghost use Rattle.recorded.specs.Grammar.{fields_of, shapes, Spells, LineSpells};
ghost use Rattle.recorded.specs.Refused.{Refused, LineRefused};
ghost use Rattle.recorded.specs.Rooms.{room};

use crate::question::{Kind, Question};
use crate::unread::Unread;
use crate::words::Words;
use mysql::MysqlType;
use std::alloc::Global;

/// Room for what a question has of bytes and wanted types. It is kept from line to line, so that no line allocates what an earlier one did.
#[derive(Drop)]
pub struct Buffers {
    bytes: Vec<u8>,
    wanted: Vec<Option<MysqlType>>,
}

/// What a line has: a question and the recorded answer to it.
#[derive(Clone, Copy)]
pub struct Case<'a> {
    pub kind: Kind,
    pub question: Question<'a>,
    pub answer: &'a str,
}

impl Buffers {
    pub fn new(heap: Global) -> Buffers {
        Buffers {
            bytes: Vec::new(heap),
            wanted: Vec::new(heap),
        }
    }

    /// Reads a line, which is without its end. There is memory enough where the buffers had room for a byte and an entry more than the line is long.
    pub fn line<'a>(&'a mut self, line: &'a str) -> Result<Case<'a>, Unread>
        ensures read { IfOk result (λ case. (kind_of case.question ≡ case.kind) × LineSpells line.now case.question case.answer.now) }
        ensures refused { IfErr result (λ e. LineRefused (room self.old) line.now e) }
        ensures spelled { (q : AnyQuestion) (answer : List ℕ) → LineSpells line.now q answer → MatchResult result (λ case. (case.kind ≡ kind_of q) × (fields_of case.question ≡ fields_of q) × (case.answer.now ≡ answer)) (λ e. (e ≡ OutOfMemory) × (room self.old ≤ length line.now)) }
    {
        let mut words = Words::new(line);
        let kind = Kind::of_word(words.word()?).ok_or(Unread::UnknownKind)?;
        let question = self.question(kind, &mut words)?;
        let answer = words.rest()?;
        Ok(Case {
            kind,
            question,
            answer,
        })
    }

    /// Takes a question of this kind off the words of a line; what is left of them is the answer.
    fn question<'a>(&'a mut self, kind: Kind, words: &mut Words) -> Result<Question<'a>, Unread>
        ensures { MatchResult result (λ question. (kind_of question ≡ kind) × Spells (left words.old) (fields_of question) (left words.new)) (λ e. Refused (room self.old) (left words.old) (shapes kind) e (left words.new)) }
    {
        Ok(match kind {
            Kind::Asks => Question::Asks(words.tpe()?),
            Kind::Type => Question::Type(words.read_u8()?, words.read_u32()?),
            Kind::Size => Question::Size(words.read_u8()?),
            Kind::Kept => Question::Kept(words.tpe()?, words.read_u8()?),
            Kind::Keeps => Question::Keeps(words.tpe()?),
            Kind::Flags => Question::Flags(words.read_u32()?),
            Kind::Kind => Question::Kind(words.read_u16()?),
            Kind::Int => Question::Int(words.tpe()?, words.value(&mut self.bytes)?),
            Kind::Big => Question::Big(words.tpe()?, words.value(&mut self.bytes)?),
            Kind::Time => Question::Time(words.tpe()?, words.value(&mut self.bytes)?),
            Kind::Tape => Question::Tape(
                words.wanted(&mut self.wanted)?,
                words.bytes(&mut self.bytes)?,
            ),
            Kind::Tray => Question::Tray(words.read_u16()?, words.wanted(&mut self.wanted)?),
        })
    }
}
