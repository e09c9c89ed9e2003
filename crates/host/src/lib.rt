//! What a client library is to a session: a trait, whose ghost member says what an implementation means.
#![tactic(auto)]

ghost use Rattle.std.specs.Prelude.{◌≡◌, true, false, length, ◌==◌, slice_index_or};
ghost use Rattle.host.specs.Meanings.{Meaning, Formed, no_column};
ghost use Rattle.host.specs.Calls.{bind_error, after_bind, allows, Fetches, Parts, freed};

mod binding;
mod records;
mod whole;

pub use binding::bind_all;
use mysql::Column;
pub use records::{BindRecord, ClientError, Fetched, MOST_COLUMNS, PAST_COLUMN, Report};
pub use whole::fetch_whole;

/// A client library that holds the result of one statement. The calls are those of MySQL's C API: a call answers a flag or a number, and
/// what it failed with is asked for by a call of its own; `bind_all` makes a Result of the two.
pub trait Host {
    ghost meaning: { Self → Meaning };

    // What every meaning keeps to: each host gives a proof of it.
    ghost formed: { (x : Self) → Formed (meaning x) };

    fn column_count(&self) -> usize
        ensures { result ≡ length (meaning self.now).columns };

    /// A column; past the last one it has code 6 and flags 0.
    fn column(&self, i: usize) -> Column
        ensures { result ≡ slice_index_or (meaning self.now).columns i no_column };

    /// What the last call failed with, or 0.
    fn error_number(&self) -> u16
        ensures { result ≡ (meaning self.now).error };

    /// Whether a fetch into an arena of this length, with this many reports, would be allowed.
    fn can_fetch(&self, arena: usize, reports: usize) -> bool
        ensures { result ≡ allows (meaning self.now) arena reports };

    /// Tells the host where to write the columns of each row that is fetched from now on.
    fn bind(&mut self, records: &[BindRecord]) -> bool
        ensures granted { result ≡ (bind_error (meaning self.old) records.now == 0) }
        ensures after { meaning self.new ≡ after_bind (meaning self.old) records.now };

    /// Takes the next event off; the fields of a row go to their places in the arena, with a report for each.
    fn fetch(&mut self, arena: &mut [u8], reports: &mut [Report]) -> Fetched
        ensures { Fetches result (meaning self.old) (meaning self.new) reports.old reports.new arena.old arena.new };

    /// Writes a column of the current row once more, from an offset on, into a part of the arena.
    fn fetch_column(
        &mut self,
        column: usize,
        offset: usize,
        part: &mut [u8],
        report: &mut Report,
    ) -> bool
        ensures { Parts result (meaning self.old) (meaning self.new) column offset report.old report.new part.old part.new };

    /// Lets go of the result: no event, no row and no bind list is left.
    fn free(&mut self)
        ensures { meaning self.new ≡ freed (meaning self.old) };
}
