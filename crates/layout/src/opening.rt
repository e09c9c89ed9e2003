//! The table at an opening, and one column more of a table.
ghost use Rattle.std.specs.Prelude.{◌≡◌, ◌+◌, ◌<◌, ◌≤◌, MatchOption};
ghost use Rattle.mysql.specs.Types.{size_of};
ghost use Rattle.layout.specs.Columns.{bytes_by};
ghost use Rattle.layout.specs.Tables.{LaysOut, Added, first_capacity, count_of, end as end_of};

use crate::record::ColumnRecord;
use crate::table::ColumnTable;
use host::MOST_COLUMNS;
use mysql::{Column, known_buffer_size_for_ffi_type};

/// The most bytes that an arena has.
pub const MOST_BYTES: usize = 65536;

impl ColumnTable {
    /// The table of no session: no columns, and no room.
    pub fn new() -> ColumnTable
        ensures count { count_of result ≡ 0 }
        ensures room { result.room ≡ 0 }
    {
        ColumnTable {
            columns: [ColumnRecord::default(); MOST_COLUMNS],
            count: 0,
            room: 0,
        }
    }

    /// Makes this the table of columns that are bound with these codes and flags, in an arena of `room` bytes: places of the least capacity,
    /// one after another. None where there are too many columns, or the arena is too long, or too short for the places; which columns it has then
    /// is left open.
    pub fn open(&mut self, columns: &[Column], room: usize) -> Option<()>
        ensures { LaysOut columns.now room result self.new }
    {
        if columns.len() > MOST_COLUMNS || room > MOST_BYTES {
            return None;
        }
        self.clear(room);
        for column in columns {
            self.push(ColumnRecord {
                code: column.code,
                flags: column.flags,
                capacity: least_capacity(column.code),
                ..ColumnRecord::default()
            })?;
        }
        Some(())
    }

    /// Leaves no columns, in an arena of `room` bytes.
    pub(crate) fn clear(&mut self, room: usize)
        requires { room ≤ 65536 }
        ensures count { count_of self.new ≡ 0 }
        ensures room { self.new.room ≡ room }
    {
        self.count = 0;
        self.room = room;
    }

    /// Adds a column, in a place of its capacity after the last one. None where the arena is too short for it.
    pub(crate) fn push(&mut self, column: ColumnRecord) -> Option<()>
        requires few { count_of self.old < 64 }
        requires some { 1 ≤ column.capacity }
        requires sized { bytes_by (size_of column.code) column.capacity ≡ column.capacity }
        ensures { MatchOption result (self.old.room < end_of self.old + column.capacity) (λ _. Added column self.old self.new) }
    {
        let start = self.end();
        if column.capacity > self.room - start {
            return None;
        }
        self.columns[self.count] = ColumnRecord { start, ..column };
        self.count += 1;
        Some(())
    }
}

/// How many bytes a place has at an opening: the size of the code's values, or a byte where they have no one size.
fn least_capacity(code: u8) -> usize
    ensures { result ≡ first_capacity (size_of code) }
{
    known_buffer_size_for_ffi_type(code).unwrap_or(1)
}
