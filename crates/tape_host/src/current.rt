//! The current row of a tape, and how far its fields were gone through.
ghost use Rattle.std.specs.Prelude.{◌≡◌, ◌<◌, ◌≤◌, length, slice_index_or};
ghost use Rattle.host.specs.Fields.{null};
ghost use Rattle.tape.specs.Format.{RowContents, RowIn};
ghost use Rattle.tape.specs.Unique.{one_row};
ghost use Rattle.tape.specs.Views.{field_of, RowShows};
ghost use Rattle.tape_host.specs.Walks.{Left, Asked};

use crate::write::first_field;
use host::BindRecord;
use tape::{Field, Row};

/// A row, and its bytes from one of its fields on. A field that is asked for is looked for from there, so that asking for one after another
/// goes through the row once.
#[derive(Clone, Copy)]
pub(crate) struct Current<'a> {
    pub(crate) row: Row<'a>,
    /// the bytes from the field of column `at` on
    pub(crate) at: usize,
    pub(crate) rest: &'a [u8],
    // its columns and its fields
    ghost shows: { (r : RowContents) × RowIn row.columns.now row.bytes.now r } by { one_row row.columns.now row.bytes.now },
    ghost left: { (r : RowContents) → RowIn row.columns.now row.bytes.now r → Left r at rest.now },
}

impl<'a> Current<'a> {
    /// A row of which no field was asked for.
    pub(crate) fn new(row: Row<'a>) -> Current<'a>
        requires { (r : RowContents) × RowShows row r }
        ensures row { result.row ≡ row.entry }
        ensures first { result.at ≡ 0 }
    {
        Current {
            row,
            at: 0,
            rest: row.bytes,
        }
    }

    /// The row with its bytes from the field of a column on, or from one before it.
    fn before(self, column: usize) -> Current<'a>
        ensures row { result.row ≡ self.entry.row }
        ensures before { result.at ≤ column }
    {
        if column < self.at {
            Current::new(self.row)
        } else {
            self
        }
    }

    /// The field of a column, by the codes that the places ask for, and the row with its bytes from the next field on.
    pub(crate) fn field_at(self, column: usize, places: &[BindRecord]) -> (Field<'a>, Current<'a>)
        requires bound { column < length places.now }
        requires asked { Asked self.row places.now }
        ensures field { (r : RowContents) → RowShows self.entry.row r → field_of result.0 ≡ slice_index_or r.fields column null }
        ensures row { result.1.row ≡ self.entry.row }
    {
        let Current { row, at, mut rest } = self.before(column);
        for i in at..column {
            (_, rest) = first_field(places[i].code, rest);
        }
        let (field, rest) = first_field(places[column].code, rest);
        let at = column + 1;
        (field, Current { row, at, rest })
    }
}
