//! The count of a tray, for the programs that print it.
#![tactic(auto)]

ghost use Rattle.std.specs.Prelude.{◌≡◌, IfOk};
ghost use Rattle.tally.specs.Tallies.{counted};
ghost use Rattle.counts.specs.Trays.{new_tray, CountDue};

use anyhow::Result;
use std::fmt;
use std::fmt::Display;
use tally::{Totals, tally};
use tray::Tray;

/// The count of a tray of so many rows. There is one: the one column carries its own code.
pub fn tray_totals(rows: u16) -> Totals
    ensures { result ≡ counted (new_tray rows) }
{
    tally(&mut Tray::new(rows)).unwrap()
}

/// The count of a tray, in words too. Its rows do not fail, so that no failures are said.
#[derive(Clone, Copy)]
pub struct TrayCount {
    pub rows: u16,
    pub totals: Totals,
}

impl Display for TrayCount {
    fn fmt<W: fmt::Write>(&self, f: &mut fmt::Formatter<W>) -> fmt::Result {
        let tray = self.rows;
        let Totals {
            rows,
            nulls,
            bytes,
            ..
        } = self.totals;
        write!(
            f,
            "tray of {tray}: {rows} rows, {nulls} nulls, {bytes} bytes"
        )
    }
}

/// The count of a tray of as many rows as a word says, if one can have so many.
pub fn count_tray(rows: &str) -> Option<TrayCount>
    ensures { CountDue rows.now result }
{
    let Ok(rows) = rows.parse::<u16>() else {
        return None;
    };
    Some(TrayCount {
        rows,
        totals: tray_totals(rows),
    })
}

/// Prints that count, or on standard error that no tray has so many rows, and answers the count. An error is one of printing.
pub fn print_tray<R: Print + Eprint>(rt: &R, rows: &str) -> Result<Option<TrayCount>>
    ensures { IfOk result (λ counted. CountDue rows.now counted) }
{
    let counted = count_tray(rows);
    match counted {
        Some(counted) => println!(rt; "{counted}")?,
        None => eprintln!(rt; "{rows}: a tray has 0 to 65535 rows")?,
    }
    Ok(counted)
}
