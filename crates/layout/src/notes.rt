//! What was reported of the columns, noted in the table, and what is asked of it.
ghost use Rattle.std.specs.Prelude.{◌≡◌, ◌↔◌, ◌<◌, ◌≤◌, true, false, length, take, drop, IsTrue, MatchOption};
ghost use Rattle.layout.specs.Tables.{items, count_of, col, NotedAt, Noted, SamePlaces, AllFit, AllPlain, NoneLost, LowestLost, binds, end as end_of};
ghost use Rattle.layout.specs.Columns.{Plain};

use crate::record::ColumnRecord;
use crate::table::ColumnTable;
use host::{BindRecord, MOST_COLUMNS, Report};

impl ColumnTable {
    /// How many columns there are.
    pub fn count(&self) -> usize
        ensures value { result ≡ count_of self.now }
        ensures few { result ≤ 64 }
    {
        self.count
    }

    /// The columns.
    #[inline(always)]
    pub fn columns(&self) -> &[ColumnRecord]
        ensures { result.now ≡ items self.now }
    {
        &self.columns[..self.count]
    }

    /// Column `i`, if there is one.
    pub fn column(&self, i: usize) -> Option<ColumnRecord>
        ensures { MatchOption result (count_of self.now ≤ i) (λ c. (i < count_of self.now) × (c ≡ col self.now i)) }
    {
        self.columns().get(i).copied()
    }

    /// Notes what was reported of column `i`, if there is one, and says whether it is plain then: not marked truncated, and null or no longer
    /// than its place. Where there is no such column the answer is yes.
    #[inline(always)]
    pub fn note(&mut self, i: usize, report: Report) -> bool
        ensures noted { NotedAt i self.old report self.new }
        ensures places { SamePlaces self.old self.new }
        ensures plain { i < count_of self.old → (IsTrue result ↔ Plain (col self.new i)) }
        ensures past { count_of self.old ≤ i → IsTrue result }
    {
        if i >= self.count {
            return true;
        }
        let column = &mut self.columns[i];
        column.note(report);
        column.is_plain()
    }

    /// Notes the reports from the first column on, as many as there are columns for them, and says whether each column has one and is plain then.
    #[inline(always)]
    pub fn note_all(&mut self, reports: &[Report]) -> bool
        ensures noted { Noted self.old reports.now self.new }
        ensures places { SamePlaces self.old self.new }
        ensures plain { IsTrue result ↔ ((count_of self.old ≤ length reports.now) × AllPlain self.new) }
    {
        let mut plain = self.count() <= reports.len();
        for (i, report) in reports.iter().enumerate() {
            plain &= self.note(i, *report);
        }
        plain
    }

    /// The lowest column of a fixed size that is marked truncated.
    pub fn lost(&self) -> Option<usize>
        ensures { MatchOption result (NoneLost self.now) (LowestLost self.now) }
    {
        self.columns[..self.count]
            .iter()
            .position(ColumnRecord::is_lost)
    }

    /// Whether what was reported of each column fits its place.
    pub fn fits(&self) -> bool
        ensures yes { result ≡ true → AllFit self.now }
        ensures no { result ≡ false → AllFit self.now → ⊥ }
    {
        !self.columns().iter().any(ColumnRecord::is_over)
    }

    /// Writes what the host is to be told of the columns to the front of an array, and leaves the rest of it.
    pub fn write_binds(&self, records: &mut [BindRecord; MOST_COLUMNS])
        ensures told { take (count_of self.now) records.new ≡ binds self.now }
        ensures rest { drop (count_of self.now) records.new ≡ drop (count_of self.now) records.old }
    {
        for (i, column) in self.columns().iter().enumerate() {
            records[i] = BindRecord::from(*column);
        }
    }

    /// Where the places end.
    pub fn end(&self) -> usize
        ensures { result ≡ end_of self.now }
    {
        match self.columns().last() {
            Some(last) => last.start + last.capacity,
            None => 0,
        }
    }
}
