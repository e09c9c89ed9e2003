//! Going through the result of an opened session: one fetch after the other.
#![tactic(auto)]

ghost use Rattle.std.specs.Prelude.{◌≡◌, ℕ, List, true, false};
ghost use Rattle.mysql.specs.declared.bind.Column.{Column};
ghost use Rattle.host.specs.Meanings.{Meaning};
ghost use Rattle.session.specs.Sessions.{IsSound, passes, fetch_due, NotFetched, Fetches};
ghost use Rattle.going.specs.Going.{Going, Leaves};

use host::Host;
use mysql::Fault;
use rows::Fetch;
use session::Session;

/// Fetches once, as `Session::fetch` does. Of a session that goes through a result the answer depends on the event that was next, on the bound
/// columns and on the arena's length; the session goes on, and that event is gone.
pub fn fetch_next<H: Host>(session: &mut Session<H>, arena: &mut [u8]) -> Result<Fetch, Fault>
    ensures answer { IsSound H.Host.meaning session.old → result ≡ fetch_due H.Host.meaning session.old arena.old }
    ensures refused { passes session.old arena.old ≡ false → result ≡ fetch_due H.Host.meaning session.old arena.old }
    ensures unchecked { passes session.old arena.old ≡ false → NotFetched session.old session.new arena.old arena.new }
    ensures after { IsSound H.Host.meaning session.old → passes session.old arena.old ≡ true → Fetches H.Host.meaning result session.old session.new arena.old arena.new }
    ensures goes { (m : Meaning) (pairs : List Column) (n : ℕ) → Going H.Host.meaning m pairs n session.old arena.old → Leaves H.Host.meaning m pairs n result session.old session.new arena.old arena.new }
{
    session.fetch(arena)
}
