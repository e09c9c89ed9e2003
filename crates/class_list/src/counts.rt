//! How many lines of each kind there are.
ghost use Rattle.std.specs.Prelude.{◌≡◌, count_by};
ghost use Rattle.class_list.specs.Kinds.{is_row, is_partial, is_refused, is_failed};

use crate::lines::Line;

/// Rows that were shown, and how many of them lack a value that could not be read; rows that were refused; and failures.
#[derive(Clone, Copy)]
pub struct Counts {
    pub rows: usize,
    pub partial: usize,
    pub refused: usize,
    pub failures: usize,
}

pub fn count(lines: &[Line]) -> Counts
    ensures rows { result.rows ≡ count_by is_row lines.now }
    ensures partial { result.partial ≡ count_by is_partial lines.now }
    ensures refused { result.refused ≡ count_by is_refused lines.now }
    ensures failures { result.failures ≡ count_by is_failed lines.now }
{
    Counts {
        rows: rows(lines),
        partial: partial(lines),
        refused: refused(lines),
        failures: failures(lines),
    }
}

fn rows(lines: &[Line]) -> usize
    ensures { result ≡ count_by is_row lines.now }
{
    lines
        .iter()
        .filter(|line| matches!(line, Line::Row(_)))
        .count()
}

fn partial(lines: &[Line]) -> usize
    ensures { result ≡ count_by is_partial lines.now }
{
    lines.iter().filter(|line| is_partial(line)).count()
}

fn is_partial(line: &Line) -> bool
    ensures { result ≡ is_partial line.now }
{
    match line {
        Line::Row(row) => row.class.is_err() || row.outlet.is_err() || row.diameter.is_err(),
        Line::RowRefused(_) | Line::Failed(_) => false,
    }
}

fn refused(lines: &[Line]) -> usize
    ensures { result ≡ count_by is_refused lines.now }
{
    lines
        .iter()
        .filter(|line| matches!(line, Line::RowRefused(_)))
        .count()
}

fn failures(lines: &[Line]) -> usize
    ensures { result ≡ count_by is_failed lines.now }
{
    lines
        .iter()
        .filter(|line| matches!(line, Line::Failed(_)))
        .count()
}
