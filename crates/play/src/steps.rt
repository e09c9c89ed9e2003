//! One call of a session, whose answer a listener is told.
ghost use Rattle.std.specs.Prelude.{◌≡◌, ◌||◌, List, [], ◌∷◌, ◌++◌, true, is_some};
ghost use Rattle.session.specs.Sessions.{is_open};
ghost use Rattle.play.specs.Histories.{Entry, opening, reading, granted_by};
ghost use Rattle.play.specs.Calls.{asked_of, said_by};
ghost use Rattle.play.specs.Moves.{Stands, standing, Steps, said_at, Answered};

use crate::calls::{Answer, Call};
use crate::listening::Listener;
use host::Host;
use mysql::MysqlType;
use readings::MysqlTime;
use session::{Session, Slip};

/// An opening; its slip is kept.
fn open<'b, H: Host>(
    session: &mut Session<H>,
    arena: &mut [u8],
    slip: &mut Option<Slip>,
    wanted: &[Option<MysqlType>],
) -> Answer<&'b [u8]>
    requires { is_some slip.old ≡ true → is_open session.old ≡ true }
    ensures kept { is_some slip.new ≡ true → is_open session.new ≡ true }
    ensures steps { Stands H.Host.meaning session.old arena.old → Steps H.Host.meaning (opening wanted.now) (said_by (λ bytes. bytes.now) result) session.old session.new arena.old arena.new }
    ensures slip { is_some slip.new ≡ (is_some slip.old || is_some (granted_by (opening wanted.now) (said_by (λ bytes. bytes.now) result))) }
{
    match session.open(arena, wanted) {
        Ok(granted) => match slip.replace(granted) {
            None => Answer::Opened,
            Some(_) => unreachable!(),
        },
        Err(fault) => Answer::Refused(fault),
    }
}

/// A raw reading.
fn read<H: Host, L: Listener>(session: &Session<H>, arena: &[u8], column: usize, listener: &mut L)
    ensures { Stands H.Host.meaning session.now arena.now → (history : List Entry) → L.Listener.heard listener.old history → L.Listener.heard listener.new (history ++ said_at (standing H.Host.meaning session.now arena.now) (reading column) ∷ []) }
{
    let call = Call::Read(column);
    match session.read(arena, column) {
        Ok(Some(shown)) => {
            let value = shown.value();
            listener.hear(call, Answer::Bytes(value.value_type(), value.as_bytes()))
        }
        Ok(None) => listener.hear(call, Answer::Null),
        Err(fault) => listener.hear(call, Answer::Refused(fault)),
    }
}

/// One call; the listener is told its answer.
pub(crate) fn answer<H: Host, L: Listener>(
    session: &mut Session<H>,
    arena: &mut [u8],
    slip: &mut Option<Slip>,
    call: Call,
    listener: &mut L,
)
    requires { is_some slip.old ≡ true → is_open session.old ≡ true }
    ensures kept { is_some slip.new ≡ true → is_open session.new ≡ true }
    ensures answered { Stands H.Host.meaning session.old arena.old → Answered H.Host.meaning L.Listener.heard (asked_of call.entry) slip.old slip.new session.old session.new arena.old arena.new listener.old listener.new }
{
    match call {
        Call::Open(wanted) => {
            let answer = open(session, arena, slip, wanted);
            listener.hear(call, answer)
        }
        Call::Fetch => {
            let answer = Answer::from(session.fetch(arena));
            listener.hear(call, answer)
        }
        Call::Read(column) => read(session, arena, column, listener),
        Call::ReadInteger(column) => {
            let answer = Answer::from(session.read_as::<i32>(arena, column));
            listener.hear(call, answer)
        }
        Call::ReadBigInt(column) => {
            let answer = Answer::from(session.read_as::<i64>(arena, column));
            listener.hear(call, answer)
        }
        Call::ReadTime(column) => {
            let answer = Answer::from(session.read_as::<MysqlTime>(arena, column));
            listener.hear(call, answer)
        }
    }
}
