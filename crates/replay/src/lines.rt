//! Lines, compared one by one.
ghost use Rattle.std.specs.Prelude.{◌≡◌, ◌⊎◌, ◌∷◌, ◌++◌, [], true, vec_len, IfOk};
ghost use Rattle.replay.specs.Same.{LostAfter, StopsAlike, Same};
ghost use Rattle.replay.specs.Compares.{Told};

use answers::Port;
use recorded::{Buffers, Kind, Unread};
use std::alloc::{AllocError, Global};

/// How long the arena is that results are opened over.
const ARENA: usize = 65_536;

/// What came of a line that could be read.
#[derive(Clone, Copy)]
pub enum Compared<'a> {
    Comment,
    Same(Kind),
    /// The port answers otherwise; the answer has a space before it.
    Different {
        kind: Kind,
        line: &'a str,
        answer: &'a str,
    },
}

/// What is kept from line to line.
#[derive(Drop)]
pub struct Comparer {
    buffers: Buffers,
    port: Port,
    arena: Vec<u8>,
}

/// A line without its end.
fn text_of(line: &[u8]) -> Result<&str, Unread>
    ensures { IfOk result (λ text. line.now ≡ text.now ++ 10 ∷ []) }
{
    match line {
        [text @ .., b'\n'] => std::str::from_utf8(text).map_err(|_| Unread::NotUtf8),
        _ => Err(Unread::CutShort),
    }
}

/// Whether an answer begins so, and a figure is lost there.
fn is_lost_after(front: &[u8], answer: &[u8]) -> bool
    ensures { result ≡ true → LostAfter front.now answer.now }
{
    match answer.strip_prefix(front) {
        Some(rest) => rest.starts_with(b"lost:"),
        None => false,
    }
}

/// Whether words are the recorded ones. After `stop` nothing is compared: a figure is lost there.
fn are_same(recorded: &[u8], words: &[u8]) -> bool
    ensures { result ≡ true → (words.now ≡ recorded.now) ⊎ StopsAlike recorded.now words.now }
{
    match recorded.strip_suffix(b"stop") {
        Some(front) => is_lost_after(front, words),
        None => words == recorded,
    }
}

/// Whether an answer, with a space before it, is the recorded one.
fn is_same(recorded: &[u8], answer: &[u8]) -> bool
    ensures { result ≡ true → Same recorded.now answer.now }
{
    match answer.strip_prefix(b" ") {
        Some(words) => are_same(recorded, words),
        None => false,
    }
}

impl Comparer {
    pub fn new(heap: Global) -> Result<Comparer, AllocError> {
        Ok(Comparer {
            buffers: Buffers::new(heap),
            port: Port::new(heap)?,
            arena: vec![in heap; 0; ARENA]?,
        })
    }

    /// Compares a line with what the port answers.
    pub fn compare<'a>(&'a mut self, line: &'a [u8]) -> Result<Compared<'a>, Unread>
        ensures { IfOk result (Told (vec_len self.old.arena) line.now) }
    {
        let line = text_of(line)?;
        if line.starts_with('#') {
            return Ok(Compared::Comment);
        }
        let case = self.buffers.line(line)?;
        let kind = case.kind;
        let answer = self.port.answer(&mut self.arena, case.question)?;
        if is_same(case.answer.as_bytes(), answer) {
            return Ok(Compared::Same(kind));
        }
        // It is ASCII.
        let answer = std::str::from_utf8(answer).unwrap_or("?");
        Ok(Compared::Different { kind, line, answer })
    }
}

#[cfg(test)]
mod tests {
    use super::*;
    use std::test::Fail;

    #[test]
    fn wrong_lines_are_told(rt: HostRuntime) -> Result<(), Fail> {
        let mut comparer = Comparer::new(rt.alloc())?;
        let different = [
            "asks 0 1 1\n",
            "asks 0 1\n",
            "asks 0 1 0 0\n",
            "type 13 0 3\n",
            "int 0 - 0\n",
            "tape - 01000000fd00000000 row end\n",
            "tape - 01000000fd00000000 stop\n",
            "tray 1 - 0 37 0\n",
        ];
        for line in different {
            let compared = comparer.compare(line.as_bytes());
            assert!(rt;
                matches!(compared, Ok(Compared::Different { .. })),
                "{line}"
            );
        }
        let unread = [
            "\n",
            "asks 0 1 0",
            "Asks 0 1 0\n",
            "asks 0\n",
            "asks 20 1 0\n",
            "asks  0 1 0\n",
            "int 0 0 5\n",
            "tape - 01000000fd00000000\n",
        ];
        for line in unread {
            assert!(rt; comparer.compare(line.as_bytes()).is_err(), "{line}");
        }
        Ok(())
    }
}
