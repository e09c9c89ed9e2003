//! Going through a class list.
ghost use Rattle.std.specs.Prelude.{◌≡◌, List, [], ◌∷◌, ◌++◌, length};
ghost use Rattle.host.specs.Calls.{freed};
ghost use Rattle.rows.specs.Standing.{pairs_of};
ghost use Rattle.session.specs.Sessions.{table_of};
ghost use Rattle.going.specs.Arenas.{LeavesPast};
ghost use Rattle.going.specs.Going.{Kept, Ready};
ghost use Rattle.class_list.specs.Lines.{Line, row, lines_of};
ghost use Rattle.class_list.specs.Lists.{listed, lines_in, outcome_of, LeavesArena};
ghost use Rattle.class_list.specs.Steps.{refusal_line, row_due};

use crate::lines::{CLASS, COLUMNS, DIAMETER, OUTLET};
use crate::listener::{Listener, SeenRow};
use going::fetch_next;
use host::Host;
use mysql::{Fault, MysqlType};
use rows::Fetch;
use session::Session;

/// Why there is no class list.
#[derive(Clone, Copy)]
pub enum NotListed {
    /// The result has only so many columns.
    FewColumns(usize),
    /// The opening was refused.
    NotOpened(Fault),
}

/// A host whose result was gone through, and whether it was a class list.
pub struct Listed<H> {
    pub host: H,
    pub outcome: Result<(), NotListed>,
}

/// Opens a host's result with these wanted types, over an arena, fetches to the end, and tells each line; the host is handed back freed. Nothing is
/// allocated.
pub fn tell_lines<H: Host, L: Listener>(
    host: H,
    arena: &mut [u8],
    wanted: &[Option<MysqlType>],
    listener: &mut L,
) -> Listed<H>
    ensures host { H.Host.meaning result.host ≡ freed (H.Host.meaning host) }
    ensures outcome { result.outcome ≡ outcome_of (listed (H.Host.meaning host) (length arena.old) wanted.now) }
    ensures lines { (told : List Line) → L.Listener.heard listener.old told → L.Listener.heard listener.new (told ++ lines_in (listed (H.Host.meaning host) (length arena.old) wanted.now)) }
    ensures arena { LeavesArena (H.Host.meaning host) wanted.now arena.old arena.new }
{
    let columns = host.column_count();
    let mut session = Session::new(host);
    if columns < COLUMNS {
        return Listed {
            host: session.close(None),
            outcome: Err(NotListed::FewColumns(columns)),
        };
    }
    match session.open(arena, wanted) {
        Ok(slip) => {
            tell_events(&mut session, arena, listener);
            Listed {
                host: session.close(Some(slip)),
                outcome: Ok(()),
            }
        }
        Err(fault) => Listed {
            host: session.close(None),
            outcome: Err(NotListed::NotOpened(fault)),
        },
    }
}

/// Fetches to the end.
fn tell_events<H: Host, L: Listener>(session: &mut Session<H>, arena: &mut [u8], listener: &mut L)
    requires { Ready H.Host.meaning session.old arena.old }
    ensures host { Kept (H.Host.meaning session.old.host) (H.Host.meaning session.new.host) }
    ensures lines { (told : List Line) → L.Listener.heard listener.old told → L.Listener.heard listener.new (told ++ lines_of (pairs_of (table_of session.old)) (length arena.old) (H.Host.meaning session.old.host).coming) }
    ensures arena { LeavesPast session.old (H.Host.meaning session.old.host).coming arena.old arena.new }
{
    loop {
        match fetch_next(session, arena) {
            Ok(Fetch::Row) => tell_row(session, arena, listener),
            Ok(Fetch::End) => return,
            Err(fault) => tell_refusal(fault, listener),
        }
    }
}

/// A failure of the host, or a row that was refused.
fn tell_refusal<L: Listener>(fault: Fault, listener: &mut L)
    ensures { (told : List Line) → L.Listener.heard listener.old told → L.Listener.heard listener.new (told ++ refusal_line fault ∷ []) }
{
    match fault.host_error() {
        Some(_) => listener.failed(fault),
        None => listener.row_refused(fault),
    }
}

/// Reads the row that is shown.
fn tell_row<H: Host, L: Listener>(session: &Session<H>, arena: &[u8], listener: &mut L)
    requires { Ready H.Host.meaning session.now arena.now }
    ensures { (told : List Line) → L.Listener.heard listener.old told → L.Listener.heard listener.new (told ++ row (row_due H.Host.meaning session.now) ∷ []) }
{
    let class = session.read_as(arena, CLASS);
    let diameter = session.read_as(arena, DIAMETER);
    match session.read(arena, OUTLET) {
        Ok(Some(shown)) => {
            let value = shown.value();
            let outlet = Ok(Some(value.as_bytes()));
            listener.row(SeenRow {
                class,
                outlet,
                diameter,
            })
        }
        Ok(None) => listener.row(SeenRow {
            class,
            outlet: Ok(None),
            diameter,
        }),
        Err(fault) => listener.row(SeenRow {
            class,
            outlet: Err(fault),
            diameter,
        }),
    }
}
