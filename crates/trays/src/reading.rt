//! Reading the first column of a result to its end.
ghost use Rattle.std.specs.Prelude.{◌≡◌, false, [], length};
ghost use Rattle.host.specs.Calls.{freed};
ghost use Rattle.rows.specs.Dues.{opening};
ghost use Rattle.going.specs.Arenas.{LeavesArena, LeavesPast};
ghost use Rattle.going.specs.Going.{Kept, Ready};
ghost use Rattle.trays.specs.Reads.{SumsFrom, ReadsTo};

use crate::sums::Sums;
use going::fetch_next;
use host::Host;
use mysql::Fault;
use rows::Fetch;
use session::Session;

/// The column that is read.
const COLUMN: usize = 0;

/// A host whose result was read, and the sums, or what was refused.
pub struct Summed<H> {
    pub host: H,
    pub sums: Result<Sums, Fault>,
}

/// Reads a host's result to its end, or to the first event that is refused; the host is handed back freed.
pub fn read_all<H: Host>(host: H, arena: &mut [u8]) -> Summed<H>
    ensures host { H.Host.meaning result.host ≡ freed (H.Host.meaning host) }
    ensures sums { ReadsTo (H.Host.meaning host) (length arena.old) result.sums }
    ensures arena { LeavesArena (opening false (length arena.old) (H.Host.meaning host).carries [] (H.Host.meaning host).columns) (H.Host.meaning host).coming arena.old arena.new }
{
    let mut session = Session::new(host);
    match session.open(arena, &[]) {
        Ok(slip) => {
            let sums = add_up(&mut session, arena);
            Summed {
                host: session.close(Some(slip)),
                sums,
            }
        }
        Err(fault) => Summed {
            host: session.close(None),
            sums: Err(fault),
        },
    }
}

/// Fetches to the end, and adds up.
fn add_up<H: Host>(session: &mut Session<H>, arena: &mut [u8]) -> Result<Sums, Fault>
    requires { Ready H.Host.meaning session.old arena.old }
    ensures host { Kept (H.Host.meaning session.old.host) (H.Host.meaning session.new.host) }
    ensures sums { SumsFrom H.Host.meaning session.old arena.old result }
    ensures arena { LeavesPast session.old (H.Host.meaning session.old.host).coming arena.old arena.new }
{
    let mut sums = Sums::none();
    loop {
        match fetch_next(session, arena)? {
            Fetch::End => return Ok(sums),
            Fetch::Row => match session.read(arena, COLUMN)? {
                Some(shown) => sums.add(shown.value().as_bytes()),
                None => sums.add_null(),
            },
        }
    }
}
