//! A table of cells, aligned.
use crate::cells::Cells;
use anyhow::Result;
use std::fmt;

/// What stands above the columns.
const NUMBER: &str = "no.";

const CLASS: &str = "class";

const OUTLET: &str = "outlet";

const DIAMETER: &str = "diameter (mm)";

const REMARKS: &str = "remarks";

/// How wide the columns are.
#[derive(Clone, Copy)]
struct Widths {
    number: usize,
    class: usize,
    outlet: usize,
    diameter: usize,
}

impl Widths {
    fn of(rows: &[Cells]) -> Widths {
        let mut widths = Widths {
            number: NUMBER.len().max(digits(rows.len())),
            class: CLASS.len(),
            outlet: OUTLET.len(),
            diameter: DIAMETER.len(),
        };
        for row in rows {
            widths.class = widths.class.max(row.class.as_str().chars().count());
            widths.outlet = widths.outlet.max(row.outlet.as_str().chars().count());
            widths.diameter = widths.diameter.max(row.diameter.as_str().chars().count());
        }
        widths
    }
}

/// How many digits a number has.
fn digits(number: usize) -> usize {
    number.checked_ilog10().map_or(1, |tens| tens as usize + 1)
}

/// Prints a heading and then the rows, with their numbers from 1 on.
pub fn print_table(rt: &HostRuntime, rows: &[Cells]) -> Result<()> {
    let Widths {
        number,
        class,
        outlet,
        diameter,
    } = Widths::of(rows);
    println!(rt;
        "  {NUMBER:>number$}  {CLASS:>class$}  {OUTLET:<outlet$}  {DIAMETER:>diameter$}  {REMARKS}"
    )?;
    for (i, row) in rows.iter().enumerate() {
        let place = i.saturating_add(1);
        print!(rt; "  {place:>number$}  {:>class$}", row.class)?;
        print!(rt; "  {:<outlet$}  {:>diameter$}", row.outlet, row.diameter)?;
        println!(rt; "{}", Remarks(row.remarks.as_str()))?;
    }
    Ok(())
}

/// Remarks, where there are any.
#[derive(Clone, Copy)]
struct Remarks<'a>(&'a str);

impl fmt::Display for Remarks<'_> {
    fn fmt<W: fmt::Write>(&self, f: &mut fmt::Formatter<W>) -> fmt::Result {
        if self.0.is_empty() {
            return Ok(());
        }
        write!(f, "  {}", self.0)
    }
}
