//! A class list in print, or why there is none.
ghost use Rattle.std.specs.Prelude.{◌≡◌, is_ok, IfOk};

use crate::cells::Cells;
use crate::table::print_table;
use class_list::{Counts, Line, LoadError, NotListed, count};
use std::alloc::{AllocError, Global};
use std::fmt;
use words::InWords;

/// Prints what was loaded of a file where that is a whole class list, or why it is not, and says whether it is.
pub fn print_list(
    rt: &HostRuntime,
    name: &str,
    lines: &[Line],
    outcome: Result<(), LoadError>,
) -> anyhow::Result<bool>
    ensures { IfOk result (λ whole. whole ≡ is_ok outcome) }
{
    if let Err(error) = outcome {
        eprintln!(rt; "{name}: {}", Reason(error))?;
        return Ok(false);
    }
    let cells = all_cells(rt.alloc(), lines)?;
    println!(rt; "{name}")?;
    print_table(rt, &cells)?;
    let Counts {
        rows,
        partial,
        refused,
        failures,
    } = count(lines);
    print!(rt; "  rows shown: {rows} (with a value not read: {partial}), ")?;
    println!(rt; "rows refused: {refused}, failures: {failures}")?;
    Ok(true)
}

fn all_cells(heap: Global, lines: &[Line]) -> Result<Vec<Cells>, AllocError> {
    let mut all = Vec::new(heap);
    for line in lines {
        all.push(Cells::of(heap, line)?)?;
    }
    Ok(all)
}

/// Why there is no class list.
#[derive(Clone, Copy)]
struct Reason(LoadError);

impl fmt::Display for Reason {
    fn fmt<W: fmt::Write>(&self, f: &mut fmt::Formatter<W>) -> fmt::Result {
        match self.0 {
            LoadError::NotListed(NotListed::FewColumns(count)) => {
                write!(
                    f,
                    "a class list has three columns (class, outlet, diameter), and this has {count}"
                )
            }
            LoadError::NotListed(NotListed::NotOpened(fault)) => write!(
                f,
                "not opened: {}",
                InWords(fault)
            ),
            LoadError::OutOfMemory => write!(f, "there is not enough memory for its lines"),
        }
    }
}
