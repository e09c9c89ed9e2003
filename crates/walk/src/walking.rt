//! The walk.
ghost use Rattle.std.specs.Prelude.{false, List, [], ◌∷◌, ◌++◌, length};
ghost use Rattle.rows.specs.Dues.{opening};
ghost use Rattle.rows.specs.Standing.{pairs_of};
ghost use Rattle.session.specs.Sessions.{shown_row, row_due, table_of};
ghost use Rattle.going.specs.Arenas.{LeavesArena, LeavesPast};
ghost use Rattle.going.specs.Going.{Ready};
ghost use Rattle.walk.specs.Walks.{Said, a_column, row_said, events_said, walk_said};

use crate::watch::Watch;
use going::fetch_next;
use host::Host;
use mysql::MysqlType;
use rows::Fetch;
use session::Session;

/// Hands on what was read of a column.
fn watch_column<H: Host, W: Watch>(session: &Session<H>, arena: &[u8], column: usize, watch: &mut W)
    requires { Ready H.Host.meaning session.now arena.now }
    ensures { (said : List Said) → W.Watch.heard watch.old said → W.Watch.heard watch.new (said ++ a_column (row_due H.Host.meaning session.now column) ∷ []) }
{
    match session.read(arena, column) {
        Ok(Some(shown)) => watch.value(shown.value()),
        Ok(None) => watch.null(),
        Err(fault) => watch.unread(fault),
    }
}

/// Hands on what the shown row has in each column.
fn watch_row<H: Host, W: Watch>(session: &Session<H>, arena: &[u8], watch: &mut W)
    requires { Ready H.Host.meaning session.now arena.now }
    ensures { (said : List Said) → W.Watch.heard watch.old said → W.Watch.heard watch.new (said ++ row_said (pairs_of (table_of session.now)) (shown_row (H.Host.meaning session.now.host) session.now)) }
{
    watch.row();
    for column in 0..session.column_count() {
        watch_column(session, arena, column, watch);
    }
}

/// Hands on what each fetch comes to, up to the end.
fn watch_events<H: Host, W: Watch>(session: &mut Session<H>, arena: &mut [u8], watch: &mut W)
    requires { Ready H.Host.meaning session.old arena.old }
    ensures arena { LeavesPast session.old (H.Host.meaning session.old.host).coming arena.old arena.new }
    ensures said { (said : List Said) → W.Watch.heard watch.old said → W.Watch.heard watch.new (said ++ events_said (pairs_of (table_of session.old)) (length arena.old) (H.Host.meaning session.old.host).coming) }
{
    loop {
        match fetch_next(session, arena) {
            Ok(Fetch::Row) => watch_row(session, arena, watch),
            Ok(Fetch::End) => return watch.end(),
            Err(fault) => watch.refused(fault),
        }
    }
}

/// Opens the result, fetches it to its end over this arena, and hands on all that is answered.
pub fn walk<H: Host + Drop, W: Watch>(
    host: H,
    arena: &mut [u8],
    wanted: &[Option<MysqlType>],
    watch: &mut W,
)
    ensures arena { LeavesArena (opening false (length arena.old) (H.Host.meaning host).carries wanted.now (H.Host.meaning host).columns) (H.Host.meaning host).coming arena.old arena.new }
    ensures said { (said : List Said) → W.Watch.heard watch.old said → W.Watch.heard watch.new (said ++ walk_said (H.Host.meaning host) wanted.now (length arena.old)) }
{
    let mut session = Session::new(host);
    match session.open(arena, wanted) {
        Ok(slip) => {
            watch_events(&mut session, arena, watch);
            let _host = session.close(Some(slip));
        }
        Err(fault) => {
            let _host = session.close(None);
            watch.unopened(fault);
        }
    }
}
