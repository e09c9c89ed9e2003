//! Answers that are kept.
ghost use Rattle.std.specs.Prelude.{◌≡◌, ◌≤◌, Ok, None, length, vec_items};
ghost use Rattle.host.specs.Calls.{freed};
ghost use Rattle.layout.specs.Moves.{Beyond};
ghost use Rattle.play.specs.Histories.{Entry, granted};
ghost use Rattle.play.specs.Law.{Lawful};
ghost use Rattle.play.specs.Lays.{reached};
ghost use Rattle.play.specs.Machine.{start, told};
ghost use Rattle.play.specs.Calls.{said_by};
ghost use Rattle.play.specs.Collected.{history, Copies, KeepsOne, Keeps};

use crate::calls::{Answer, Call};
use crate::listening::Listener;
use crate::playing::play_to;
use host::Host;
use session::Session;
use std::alloc::{AllocError, Global};

/// The same answer with a copy of its bytes.
fn copied(answer: Answer<&[u8]>, heap: Global) -> Result<Answer<Vec<u8>>, AllocError>
    ensures { Copies result (said_by (λ bytes. bytes.now) answer.entry) }
{
    Ok(match answer {
        Answer::Opened => Answer::Opened,
        Answer::Row => Answer::Row,
        Answer::End => Answer::End,
        Answer::Null => Answer::Null,
        Answer::Bytes(tpe, bytes) => Answer::Bytes(tpe, bytes.to_vec(heap)?),
        Answer::Integer(number) => Answer::Integer(number),
        Answer::BigInt(number) => Answer::BigInt(number),
        Answer::Time(time) => Answer::Time(time),
        Answer::Refused(fault) => Answer::Refused(fault),
    })
}

/// Keeps a copy of each answer, until memory runs out.
struct Collector {
    heap: Global,
    answers: Vec<Answer<Vec<u8>>>,
    ended: Result<(), AllocError>,
}

impl Collector {
    fn keep(&mut self, answer: Answer<&[u8]>) -> Result<(), AllocError>
        ensures { KeepsOne result (vec_items self.old.answers) (vec_items self.new.answers) (said_by (λ bytes. bytes.now) answer.entry) }
    {
        self.answers.push(copied(answer, self.heap)?)?;
        Ok(())
    }
}

impl Listener for Collector {
    ghost heard = { λ collector history. Keeps (vec_items collector.answers) collector.ended history };

    fn hear(&mut self, _call: Call, answer: Answer<&[u8]>) {
        if self.ended.is_ok() {
            self.ended = self.keep(answer);
        }
    }
}

/// What a list of calls left: the host, and copies of the answers, in order. Where memory ran out, those so far.
pub struct Played<H> {
    pub host: H,
    pub answers: Vec<Answer<Vec<u8>>>,
    pub ended: Result<(), AllocError>,
}

/// Plays calls over a new session and one arena, and keeps the answers. The session has the host, which is handed back freed.
pub fn play<H: Host>(heap: Global, host: H, arena: &mut [u8], calls: &[Call]) -> Played<H>
    ensures host { H.Host.meaning result.host ≡ freed (H.Host.meaning host) }
    ensures lawful { Lawful (H.Host.meaning host) (length arena.old) (history calls.now (vec_items result.answers)) }
    ensures few { length (vec_items result.answers) ≤ length calls.now }
    ensures all { result.ended ≡ Ok tt → length (vec_items result.answers) ≡ length calls.now }
    ensures past { Beyond (reached (H.Host.meaning host) (length arena.old) (told (start (H.Host.meaning host) (length arena.old)) calls.now)) arena.old arena.new }
    ensures untouched { granted (told (start (H.Host.meaning host) (length arena.old)) calls.now) ≡ None → arena.new ≡ arena.old }
{
    let mut session = Session::new(host);
    let mut collector = Collector {
        heap,
        answers: Vec::new(heap),
        ended: Ok(()),
    };
    let slip = play_to(&mut session, arena, calls, &mut collector);
    let Collector {
        heap: _,
        answers,
        ended,
    } = collector;
    Played {
        host: session.close(slip),
        answers,
        ended,
    }
}
