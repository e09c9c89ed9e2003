//! Calls of a session, each with what it must answer.
use host::Host;
use mysql::{Fault, MysqlType};
use play::{Answer, Call, Listener, Played, play};
use std::alloc::{AllocError, Global};

/// What a call must answer.
#[derive(Clone, Copy)]
pub(crate) enum Due<'a> {
    Opened,
    Row,
    End,
    Null,
    Bytes(MysqlType, &'a [u8]),
    Integer(i32),
    BigInt(i64),
    /// A time of this year.
    Year(u32),
    /// A refusal's number and column.
    Refused(u8, u8),
    /// A refusal 9, by the host's error number and the number of its kind.
    Failed(u16, u8),
}

/// Whether an answer whose bytes are a copy is the one that is due.
pub(crate) fn is_due(answer: &Answer<Vec<u8>>, due: Due) -> bool {
    match (answer, due) {
        (Answer::Bytes(tpe, bytes), Due::Bytes(wanted, text)) => {
            *tpe == wanted && bytes.as_slice() == text
        }
        (answer, due) => is_plain_due(answer, due),
    }
}

/// The same of an answer without bytes.
fn is_plain_due<B>(answer: &Answer<B>, due: Due) -> bool {
    match (answer, due) {
        (Answer::Opened, Due::Opened)
        | (Answer::Row, Due::Row)
        | (Answer::End, Due::End)
        | (Answer::Null, Due::Null) => true,
        (Answer::Integer(n), Due::Integer(wanted)) => *n == wanted,
        (Answer::BigInt(n), Due::BigInt(wanted)) => *n == wanted,
        (Answer::Time(time), Due::Year(wanted)) => time.year == wanted,
        (Answer::Refused(fault), due) => is_fault_due(*fault, due),
        _ => false,
    }
}

pub(crate) fn is_fault_due(fault: Fault, due: Due) -> bool {
    match due {
        Due::Refused(number, column) => fault.number() == number && fault.column() == column,
        Due::Failed(number, kind) => fault.host_error().is_some_and(|error| error.number == number
            && error.kind.number() == kind),
        _ => false,
    }
}

/// Whether a call of a session was refused with this number.
pub(crate) fn is_refused<T: Drop>(answer: Result<T, Fault>, number: u8) -> bool {
    matches!(answer, Err(fault) if fault.number() == number)
}

/// The calls alone.
pub(crate) fn asked<'a>(
    heap: Global,
    calls: &[(Call<'a>, Due)],
) -> Result<Vec<Call<'a>>, AllocError> {
    let mut asked = Vec::new(heap);
    for (call, _) in calls {
        asked.push(*call)?;
    }
    Ok(asked)
}

/// The first of these calls that was not answered as it must be, if one was not.
pub(crate) fn first_wrong<H: Drop>(
    played: Played<H>,
    calls: &[(Call, Due)],
) -> Result<Option<usize>, AllocError> {
    let Played {
        host: _,
        answers,
        ended,
    } = played;
    ended?;
    Ok(
        answers
            .iter()
            .zip(calls)
            .position(|(answer, (_, due))| !is_due(answer, *due)),
    )
}

/// The same, of calls that are played over a new session of the host and an arena of `room` bytes.
pub(crate) fn first_other<H: Host + Drop>(
    heap: Global,
    host: H,
    room: usize,
    calls: &[(Call, Due)],
) -> Result<Option<usize>, AllocError> {
    let mut arena = vec![in heap; 7u8; room]?;
    let asked = asked(heap, calls)?;
    first_wrong(play(heap, host, &mut arena, &asked), calls)
}

/// A listener who looks whether each answer is the one that is due, and keeps no answer.
#[derive(Drop)]
pub(crate) struct Checker<'a> {
    calls: &'a [(Call<'a>, Due<'a>)],
    /// How many answers were right so far, one after the other.
    pub(crate) right: usize,
}

impl<'a> Checker<'a> {
    pub(crate) fn new(calls: &'a [(Call<'a>, Due<'a>)]) -> Checker<'a> {
        Checker { calls, right: 0 }
    }
}

impl Listener for Checker<'_> {
    ghost heard = { λ _ _. Unit {0} };

    fn hear(&mut self, _call: Call, answer: Answer<&[u8]>) {
        if let Some((_, due)) = self.calls.get(self.right) {
            let is_right = match (answer, *due) {
                (Answer::Bytes(tpe, bytes), Due::Bytes(wanted, text)) => tpe == wanted
                    && bytes == text,
                (answer, due) => is_plain_due(&answer, due),
            };
            if is_right {
                self.right += 1;
            }
        }
    }
}
