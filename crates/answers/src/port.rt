//! The port, asked.
use crate::text::Text;
use crate::trays::Sum;
use mysql::MysqlType;
use recorded::Question;
use std::alloc::{AllocError, Global};
use tape_host::Tape;
use walk::walk;

/// What is kept from question to question: the answer, and memory for it.
#[derive(Drop)]
pub struct Port {
    sum: Sum,
}

impl Port {
    ghost use Rattle.std.specs.Prelude.{◌≡◌, ◌<◌, ◌^◌, List, ℕ, length, MatchResult};
    ghost use Rattle.answers.specs.Answers.{Answered};

    /// Takes memory for answers of up to 2^20 bytes.
    pub fn new(heap: Global) -> Result<Port, AllocError> {
        Ok(Port {
            sum: Sum::new(heap)?,
        })
    }

    /// Answers a question in words, each with a space before it. Results are opened over this arena. Only an answer that is longer than 2^20
    /// bytes can lack memory.
    pub fn answer(&mut self, arena: &mut [u8], question: Question) -> Result<&[u8], AllocError>
        ensures { (words : List ℕ) × Answered (length arena.old) question.entry words × MatchResult result (λ text. text.now ≡ words) (λ _. 2 ^ 20 < length words) }
    {
        self.sum.clear();
        self.sum.answer(arena, question);
        self.sum.text.words()
    }
}

impl Sum {
    ghost use Rattle.std.specs.Prelude.{List, ℕ, [], length};
    ghost use Rattle.answers.specs.Texts.{Has};
    ghost use Rattle.answers.specs.Sums.{Holds};
    ghost use Rattle.answers.specs.Answers.{Answered};

    /// Puts what is answered to a question into words.
    fn answer(&mut self, arena: &mut [u8], question: Question)
        requires { Holds self.old [] }
        ensures { (words : List ℕ) × Answered (length arena.old) question.entry words × Has self.new.text words }
    {
        match question {
            Question::Asks(tpe) => self.text.asks(tpe),
            Question::Type(code, flags) => self.text.tpe(code, flags),
            Question::Size(code) => self.text.size(code),
            Question::Kept(tpe, code) => self.text.kept(tpe, code),
            Question::Keeps(tpe) => self.text.keeps(tpe),
            Question::Flags(flags) => self.text.flags(flags),
            Question::Kind(number) => self.text.kind(number),
            Question::Int(tpe, bytes) => self.text.integer::<i32>(tpe, bytes),
            Question::Big(tpe, bytes) => self.text.integer::<i64>(tpe, bytes),
            Question::Time(tpe, bytes) => self.text.time(tpe, bytes),
            Question::Tape(wanted, bytes) => self.text.tape(arena, wanted, bytes),
            Question::Tray(rows, wanted) => self.tray(arena, wanted, rows),
        }
    }
}

impl Text {
    ghost use Rattle.std.specs.Prelude.{List, ℕ, [], length};
    ghost use Rattle.answers.specs.Texts.{Has};
    ghost use Rattle.answers.specs.Answers.{TapeAnswered};

    /// The events of a recorded result.
    fn tape(&mut self, arena: &mut [u8], wanted: &[Option<MysqlType>], bytes: &[u8])
        requires { Has self.old [] }
        ensures { (words : List ℕ) × TapeAnswered (length arena.old) wanted.now bytes.now words × Has self.new words }
    {
        match Tape::new(bytes) {
            Ok(tape) => walk(tape, arena, wanted, self),
            Err(fault) => self.refusal(fault),
        }
    }
}

#[cfg(test)]
mod tests {
    use super::*;
    use std::test::Fail;

    /// Once there is a port, answers of up to 2^20 bytes need no more memory.
    #[test]
    fn short_answers_are_given(rt: HostRuntime) -> Result<(), Fail> {
        let mut port = Port::new(rt.alloc())?;
        let answer = port.answer(&mut [], Question::Type(252, 128))?;
        assert!(rt; answer == b" 16".as_slice());
        Ok(())
    }

    /// A longer one, of ten rows of 60,000 bytes, is given where there is memory, and refused where there is none.
    #[test]
    fn long_answers_are_given_or_refused(rt: HostRuntime) -> Result<(), Fail> {
        let bytes = vec![in rt.alloc(); 7; 60_000]?;
        let mut arena = vec![in rt.alloc(); 0; 65_536]?;
        let mut tape = Vec::with_capacity(rt.alloc(), 601_000)?;
        tape.extend_from_slice(&[1, 0, 10, 0, 252, 0, 0, 0, 0])?;
        for _ in 0..10 {
            tape.extend_from_slice(&[0, 1, 0x60, 0xea, 0, 0])?;
            tape.extend_from_slice(&bytes)?;
        }
        let mut port = Port::new(rt.alloc())?;
        match port.answer(&mut arena, Question::Tape(&[], &tape)) {
            Ok(answer) => assert!(rt; answer.len() == 1_200_084),
            Err(AllocError) => {}
        }
        Ok(())
    }
}
