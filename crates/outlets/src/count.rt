//! How many rows of a result a session shows.
ghost use Rattle.std.specs.Prelude.{◌≡◌, false, [], length};
ghost use Rattle.rows.specs.Standing.{pairs_of};
ghost use Rattle.rows.specs.Dues.{opening};
ghost use Rattle.session.specs.Sessions.{table_of};
ghost use Rattle.going.specs.Arenas.{LeavesArena, LeavesPast};
ghost use Rattle.going.specs.Going.{Ready};
ghost use Rattle.outlets.specs.Events.{counts_of, CountsDue};

use going::fetch_next;
use host::Host;
use mysql::Fault;
use rows::Fetch;
use session::Session;

/// How many rows are shown, how many are refused, and how many failures come in place of rows; each at most 2^64 - 1.
#[repr(C)]
#[derive(Clone, Copy, Default)]
pub struct RowCounts {
    pub shown: u64,
    pub refused: u64,
    pub failures: u64,
}

/// Fetches to the end, and counts. A loop: each turn has what its fetch answered.
fn count_fetches<H: Host>(session: &mut Session<H>, arena: &mut [u8]) -> RowCounts
    requires { Ready H.Host.meaning session.old arena.old }
    ensures arena { LeavesPast session.old (H.Host.meaning session.old.host).coming arena.old arena.new }
    ensures counts { result ≡ counts_of (pairs_of (table_of session.old)) (length arena.old) (H.Host.meaning session.old.host).coming }
{
    let mut counts = RowCounts::default();
    loop {
        match fetch_next(session, arena) {
            Ok(Fetch::Row) => counts.shown = counts.shown.saturating_add(1),
            Ok(Fetch::End) => return counts,
            Err(fault) => match fault.host_error() {
                Some(_) => counts.failures = counts.failures.saturating_add(1),
                None => counts.refused = counts.refused.saturating_add(1),
            },
        }
    }
}

/// Counts the rows that a session over this host and arena shows, to the end of the result, or says why it cannot be opened.
pub fn count_rows<H: Host + Drop>(host: H, arena: &mut [u8]) -> Result<RowCounts, Fault>
    ensures arena { LeavesArena (opening false (length arena.old) (H.Host.meaning host).carries [] (H.Host.meaning host).columns) (H.Host.meaning host).coming arena.old arena.new }
    ensures counts { CountsDue (opening false (length arena.old) (H.Host.meaning host).carries [] (H.Host.meaning host).columns) (length arena.old) (H.Host.meaning host).coming result }
{
    let mut session = Session::new(host);
    match session.open(arena, &[]) {
        Ok(slip) => {
            let counts = count_fetches(&mut session, arena);
            let _host = session.close(Some(slip));
            Ok(counts)
        }
        Err(fault) => {
            let _host = session.close(None);
            Err(fault)
        }
    }
}
