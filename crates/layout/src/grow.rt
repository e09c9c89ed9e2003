//! Places that grow, so that a row fits which did not.
ghost use Rattle.std.specs.Prelude.{◌≡◌, ◌<◌, ◌≤◌, Bool, MatchOption};
ghost use Rattle.std.specs.Fn.{FnReturnsAt};
ghost use Rattle.layout.specs.Columns.{RuleOf};
ghost use Rattle.layout.specs.Tables.{items, count_of, Grown, Relaid, sum_of, need};
ghost use Rattle.layout.specs.Moves.{Grows};

use crate::moves::{left, right};
use crate::record::ColumnRecord;
use crate::table::ColumnTable;

impl ColumnTable {
    /// Makes `new` the table with places that what was reported fits, and moves the bytes that stand in the old places to the new ones, inside
    /// the arena. None where the row needs more than there is, or the arena is shorter than the table says; the arena is then as it was, and which
    /// columns `new` has is left open.
    pub fn grow(&self, arena: &mut [u8], new: &mut ColumnTable) -> Option<()>
        ensures { Grows self.now arena.old result new.new arena.new }
    {
        if arena.len() < self.room {
            return None;
        }
        self.grown(new)?;
        right(arena, self, new);
        left(arena, self, new);
        Some(())
    }

    /// Gives `new` the table's columns in their new places: a wide layout if the arena is long enough for it, else a tight one.
    pub(crate) fn grown(&self, new: &mut ColumnTable) -> Option<()>
        ensures { MatchOption result (self.now.room < need self.now) (λ _. Grown self.now new.new) }
    {
        match self.relaid(ColumnRecord::widened, new) {
            Some(()) => Some(()),
            None => self.relaid(ColumnRecord::counted, new),
        }
    }

    /// Gives `new` the same columns, one after another, with these capacities. None where the arena is too short for these.
    #[inline(always)]
    pub(crate) fn relaid<F: Fn(&ColumnRecord) -> usize>(
        &self,
        capacity: F,
        new: &mut ColumnTable,
    ) -> Option<()>
        requires callable { F.IsAlwaysCallable capacity }
        requires layout { (tight : Bool) × RuleOf (FnReturnsAt F.Fn capacity) tight }
        ensures { (tight : Bool) → RuleOf (FnReturnsAt F.Fn capacity) tight → MatchOption result (self.now.room < sum_of tight self.now) (λ _. (sum_of tight self.now ≤ self.now.room) × (Relaid tight self.now new.new)) }
    {
        new.clear(self.room);
        for column in self.columns() {
            new.push(ColumnRecord {
                capacity: capacity(column),
                ..*column
            })?;
        }
        Some(())
    }

    /// Takes the columns of another table, in their places.
    pub fn take_from(&mut self, new: &ColumnTable)
        ensures columns { items self.new ≡ items new.now }
        ensures room { self.new.room ≡ new.now.room }
    {
        self.clear(new.room);
        for (i, column) in new.columns().iter().enumerate() {
            self.columns[i] = *column;
        }
        self.count = new.count;
    }
}
