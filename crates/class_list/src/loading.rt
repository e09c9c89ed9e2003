//! Loading a class list into memory.
ghost use Rattle.std.specs.Prelude.{◌≡◌, List, [], ◌∷◌, ◌++◌, length, IfOk, vec_items};
ghost use Rattle.host.specs.Calls.{freed};
ghost use Rattle.class_list.specs.Lists.{listed, LeavesArena};
ghost use Rattle.class_list.specs.Lines.{Line as ToldLine};
ghost use Rattle.class_list.specs.Loads.{LoadsAs, Holds};
ghost use Rattle.class_list.specs.Told.{told_row, told_outlet, told, seen_row, seen_outlet};

use crate::lines::{ClassRow, Line};
use crate::listener::{Listener, SeenRow};
use crate::telling::{Listed, NotListed, tell_lines};
use host::Host;
use mysql::{Fault, MysqlType};
use std::alloc::{AllocError, Global};

/// Why a class list was not loaded whole.
#[derive(Clone, Copy)]
pub enum LoadError {
    /// There is none.
    NotListed(NotListed),
    /// There was no memory for a line.
    OutOfMemory,
}

/// A host whose result was loaded, the lines, and whether these are all: where memory ran out they are those before the line for which there was none.
pub struct Loaded<H> {
    pub host: H,
    pub lines: Vec<Line>,
    pub outcome: Result<(), LoadError>,
}

/// Opens a host's result with these wanted types, over an arena, and fetches to the end; the host is handed back freed.
pub fn load<H: Host>(
    heap: Global,
    host: H,
    arena: &mut [u8],
    wanted: &[Option<MysqlType>],
) -> Loaded<H>
    ensures host { H.Host.meaning result.host ≡ freed (H.Host.meaning host) }
    ensures lines { LoadsAs (listed (H.Host.meaning host) (length arena.old) wanted.now) (vec_items result.lines) result.outcome }
    ensures arena { LeavesArena (H.Host.meaning host) wanted.now arena.old arena.new }
{
    let mut collector = Collector {
        heap,
        lines: Vec::new(heap),
        is_full: false,
    };
    let Listed { host, outcome } = tell_lines(host, arena, wanted, &mut collector);
    let Collector { lines, is_full, .. } = collector;
    let outcome = match outcome {
        Err(error) => Err(LoadError::NotListed(error)),
        Ok(()) if is_full => Err(LoadError::OutOfMemory),
        Ok(()) => Ok(()),
    };
    Loaded {
        host,
        lines,
        outcome,
    }
}

/// Keeps the lines that it is told, until there is no memory for one.
#[derive(Drop)]
struct Collector {
    heap: Global,
    lines: Vec<Line>,
    is_full: bool,
}

impl Collector {
    /// One line more, where there is memory for it, and was for those before.
    fn add(&mut self, line: Result<Line, AllocError>)
        ensures { (before : List ToldLine) (next : ToldLine) → IfOk line (λ kept. told kept ≡ next) → Holds self.old before → Holds self.new (before ++ next ∷ []) }
    {
        if self.is_full {
            return;
        }
        self.is_full = match line {
            Ok(line) => self.lines.push(line).is_err(),
            Err(_) => true,
        };
    }
}

impl Listener for Collector {
    ghost heard = { Holds };

    fn row(&mut self, seen: SeenRow) {
        let row = keep_row(self.heap, seen);
        self.add(row.map(Line::Row));
    }

    fn row_refused(&mut self, fault: Fault) {
        self.add(Ok(Line::RowRefused(fault)));
    }

    fn failed(&mut self, fault: Fault) {
        self.add(Ok(Line::Failed(fault)));
    }
}

/// Copies a row.
fn keep_row(heap: Global, seen: SeenRow) -> Result<ClassRow, AllocError>
    ensures { IfOk result (λ kept. told_row kept ≡ seen_row seen.entry) }
{
    Ok(ClassRow {
        class: seen.class,
        outlet: keep_outlet(heap, seen.outlet)?,
        diameter: seen.diameter,
    })
}

/// Copies an outlet. A match: of the three cases only the copy can fail.
fn keep_outlet(
    heap: Global,
    outlet: Result<Option<&[u8]>, Fault>,
) -> Result<Result<Option<Vec<u8>>, Fault>, AllocError>
    ensures { IfOk result (λ kept. told_outlet kept ≡ seen_outlet outlet.entry) }
{
    match outlet {
        Ok(Some(bytes)) => Ok(Ok(Some(bytes.to_vec(heap)?))),
        Ok(None) => Ok(Ok(None)),
        Err(fault) => Ok(Err(fault)),
    }
}
