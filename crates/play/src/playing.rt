//! Whole lists of calls.
ghost use Rattle.play.specs.Plays.{IsReady, Heard, HeardAlike};

use crate::calls::Call;
use crate::listening::Listener;
use crate::steps::answer;
use host::Host;
use session::{Session, Slip};

/// Plays calls over a session and one arena: a listener is told each answer. Hands out the slip, if an opening was granted.
/// A session that is opened already must have been opened over an arena of this length.
pub fn play_to<H: Host, L: Listener>(
    session: &mut Session<H>,
    arena: &mut [u8],
    calls: &[Call],
    listener: &mut L,
) -> Option<Slip>
    ensures { IsReady H.Host.meaning session.old arena.old → Heard H.Host.meaning L.Listener.heard calls.now result session.old session.new arena.old arena.new listener.old listener.new }
{
    let mut slip = None;
    for call in calls {
        answer(session, arena, &mut slip, *call, listener);
    }
    slip
}

/// Plays two lists of calls over two sessions, whose hosts may be of two types, each with an arena and a listener of its own.
pub fn play_both<G: Host, H: Host, K: Listener, L: Listener>(
    first_session: &mut Session<G>,
    first_arena: &mut [u8],
    first_calls: &[Call],
    first_listener: &mut K,
    second_session: &mut Session<H>,
    second_arena: &mut [u8],
    second_calls: &[Call],
    second_listener: &mut L,
) -> (Option<Slip>, Option<Slip>)
    ensures first { IsReady G.Host.meaning first_session.old first_arena.old → Heard G.Host.meaning K.Listener.heard first_calls.now result.0 first_session.old first_session.new first_arena.old first_arena.new first_listener.old first_listener.new }
    ensures second { IsReady H.Host.meaning second_session.old second_arena.old → Heard H.Host.meaning L.Listener.heard second_calls.now result.1 second_session.old second_session.new second_arena.old second_arena.new second_listener.old second_listener.new }
    ensures alike { HeardAlike G.Host.meaning H.Host.meaning first_calls.now second_calls.now first_session.old second_session.old first_arena.old second_arena.old }
{
    let first = play_to(first_session, first_arena, first_calls, first_listener);
    let second = play_to(second_session, second_arena, second_calls, second_listener);
    (first, second)
}
