//! Counts in words.
use std::fmt;
use std::fmt::Display;
use tally::Totals;

/// What was counted of a host, in a line, or that it could not be.
#[derive(Clone, Copy)]
pub struct Counted<T>(pub Option<T>);

impl<T: Display> Display for Counted<T> {
    fn fmt<W: fmt::Write>(&self, f: &mut fmt::Formatter<W>) -> fmt::Result {
        match &self.0 {
            Some(all) => writeln!(f, "{all}"),
            None => writeln!(f, "not counted"),
        }
    }
}

/// The count of a tape.
#[derive(Clone, Copy)]
pub struct OfTape(pub Totals);

impl Display for OfTape {
    fn fmt<W: fmt::Write>(&self, f: &mut fmt::Formatter<W>) -> fmt::Result {
        let Totals {
            rows,
            failures,
            nulls,
            bytes,
        } = self.0;
        write!(
            f,
            "{rows} rows, {failures} failures, {nulls} nulls, {bytes} bytes"
        )
    }
}
