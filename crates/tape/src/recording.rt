//! A recorded result, and how it is gone through: its columns, its events, and the fields of a row, one after the other.
ghost use Rattle.std.specs.Prelude.{◌≡◌, ◌*◌, ◌/◌, ◌^◌, ◌<◌, ◌≤◌, List, length};
ghost use Rattle.std.specs.List.{flat_map, slice_get, AllByRecursion};
ghost use Rattle.std.specs.Iterator.{at_most};
ghost use Rattle.mysql.specs.declared.bind.Column.{Column as Listed};
ghost use Rattle.tape.specs.Format.{Contents, event_bytes, ColumnsIn, EventsOf, Holds, RowContents};
ghost use Rattle.tape.specs.Steps.{Passes};
ghost use Rattle.tape.specs.Views.{RowShows};
ghost use Rattle.tape.specs.Recordings.{contents, Read, Opened, OneReading, ColumnsLeft, EventsLeft, FieldsLeft, GivesColumn, GivesEvent, GivesField, StepsColumn, StepsEvent, StepsField, Both, Peeks, PassesRow, Stops};

use crate::event::{Event, Row};
use crate::field::Field;
use crate::parts::Recording;
use crate::walk::{NO_FAILURE, take_column, take_event, take_field, take_u16};
use host::MOST_COLUMNS;
use mysql::{Column, Fault, Refusal};

/// How many bytes a column takes.
pub const COLUMN_SIZE: usize = 5;

/// The recording that bytes hold.
fn read(bytes: &[u8]) -> Option<Recording<'_>>
    ensures { Read bytes.now result }
{
    let (width, rest) = take_u16(bytes)?;
    let (count, rest) = take_u16(rest)?;
    let width = usize::from(width);
    let size = width * COLUMN_SIZE;
    if width > MOST_COLUMNS || size > rest.len() {
        return None;
    }
    let (columns, bytes) = rest.split_at(size);
    let events = Events {
        columns,
        bytes,
        count,
    };
    if !events.end()?.is_empty() {
        return None;
    }
    Some(Recording {
        columns,
        events: bytes,
        count,
    })
}

impl<'a> Recording<'a> {
    /// Takes bytes that are a tape, and refuses all others.
    pub fn new(bytes: &'a [u8]) -> Result<Recording<'a>, Fault>
        ensures opened { Opened bytes.now result }
        ensures one { OneReading bytes.now }
    {
        read(bytes).ok_or(Fault::new(Refusal::BrokenTape))
    }

    /// The bytes of its columns, those of its events, and how many events there are, for a caller that keeps them apart.
    pub fn parts(&self) -> (&'a [u8], &'a [u8], u16)
        ensures { Holds result.0.now result.1.now result.2 (contents self.now) }
    {
        (self.columns, self.events, self.count)
    }

    /// Its columns, one after the other.
    pub fn columns(&self) -> Columns<'a>
        ensures all { ColumnsLeft result (contents self.now).columns }
        ensures few { length (contents self.now).columns < 2 ^ 64 }
    {
        Columns {
            bytes: self.columns,
        }
    }

    /// Its events, one after the other.
    pub fn events(&self) -> Events<'a>
        ensures all { EventsLeft result (contents self.now) }
        ensures few { length (contents self.now).events < 65536 }
    {
        Events {
            columns: self.columns,
            bytes: self.events,
            count: self.count,
        }
    }
}

impl<'a> Row<'a> {
    /// Its fields, one after the other.
    pub fn fields(&self) -> Fields<'a>
        ensures all { (r : RowContents) → RowShows self.now r → FieldsLeft result r }
        ensures few { (r : RowContents) → RowShows self.now r → length r.fields < 2 ^ 64 }
        ensures whole { result.rest ≡ self.now }
    {
        Fields { rest: *self }
    }
}

/// The columns that are to come.
#[derive(Clone, Copy)]
pub struct Columns<'a> {
    pub(crate) bytes: &'a [u8],
}

impl Columns<'_> {
    /// How many there are.
    pub fn len(&self) -> usize
        ensures counted { (cs : List Listed) → ColumnsLeft self.now cs → result ≡ length cs }
        ensures room { COLUMN_SIZE * result ≤ length self.now.bytes.now }
    {
        self.bytes.len() / COLUMN_SIZE
    }

    /// The one at an index, in constant time.
    pub fn get(&self, i: usize) -> Option<Column>
        ensures { (cs : List Listed) → ColumnsLeft self.now cs → result ≡ slice_get cs i }
    {
        if i >= self.len() {
            return None;
        }
        let (found, _) = take_column(&self.bytes[COLUMN_SIZE * i..])?;
        Some(found)
    }
}

impl Iterator for Columns<'_> {
    type Item = Column;

    ghost next_gives = { Both GivesColumn StepsColumn };

    ghost remaining = { λ s. at_most (length s.bytes.now / 5) };

    fn next(&mut self) -> Option<Column> {
        let (column, rest) = take_column(self.bytes)?;
        self.bytes = rest;
        Some(column)
    }
}

/// The events that are to come: their bytes, and how many there are.
#[derive(Clone, Copy)]
pub struct Events<'a> {
    pub(crate) columns: &'a [u8],
    pub(crate) bytes: &'a [u8],
    pub(crate) count: u16,
}

impl<'a> Events<'a> {
    /// The columns that each of its rows has a field for.
    pub fn columns(&self) -> Columns<'a>
        ensures { (t : Contents) → EventsLeft self.now t → ColumnsLeft result t.columns }
    {
        let bytes = self.columns;
        Columns { bytes }
    }

    /// The next of them, which is not taken off; none where none is left. The fields of a row are not gone through: its bytes go to the end of
    /// the recording.
    #[inline(always)]
    pub fn peek(&self) -> Option<Event<'a>>
        ensures { Peeks self.now result }
    {
        if self.count == 0 {
            return None;
        }
        let columns = self.columns;
        match self.bytes {
            [0, bytes @ ..] => Some(Event::Row(Row { columns, bytes })),
            [1, number @ ..] => {
                let (number, _) = take_u16(number)?;
                if number == NO_FAILURE {
                    return None;
                }
                Some(Event::Failure(number))
            }
            _ => None,
        }
    }

    /// Takes the row off that `peek` showed, of which `rest` is what its fields leave: the bytes after the last of them, as `take_field` gives
    /// these. With any other row or bytes, nothing is said of the events that are then left.
    #[inline(always)]
    pub fn pass_row(&mut self, row: Row<'a>, rest: &'a [u8])
        ensures { PassesRow self.old row.entry rest.now self.new }
    {
        self.bytes = rest;
        self.count = self.count.saturating_sub(1);
    }

    /// Lets no more of them come.
    pub fn stop(&mut self)
        ensures { Stops self.old self.new }
    {
        self.bytes = &[];
        self.count = 0;
    }

    /// The bytes after them; none where they do not all stand.
    fn end(&self) -> Option<&'a [u8]>
        ensures { (cs : List Listed) → ColumnsIn self.now.columns.now cs → Passes (EventsOf cs self.now.count) (flat_map event_bytes) self.now.bytes.now result }
    {
        let mut rest = self.bytes;
        for _ in 0..self.count {
            (_, rest) = take_event(self.columns, rest)?;
        }
        Some(rest)
    }
}

impl<'a> Iterator for Events<'a> {
    type Item = Event<'a>;

    ghost next_gives = { Both GivesEvent StepsEvent };

    ghost remaining = { λ s. at_most s.count };

    fn next(&mut self) -> Option<Event<'a>> {
        let count = self.count.checked_sub(1)?;
        let (event, rest) = take_event(self.columns, self.bytes)?;
        self.bytes = rest;
        self.count = count;
        Some(event)
    }
}

/// The fields of a row that are to come, as what is left of the row.
#[derive(Clone, Copy)]
pub struct Fields<'a> {
    pub(crate) rest: Row<'a>,
}

impl<'a> Iterator for Fields<'a> {
    type Item = Field<'a>;

    ghost next_gives = { Both GivesField StepsField };

    ghost remaining = { λ s. at_most (length s.rest.columns.now / 5) };

    fn next(&mut self) -> Option<Field<'a>> {
        let Row { columns, bytes } = self.rest;
        let (column, columns) = take_column(columns)?;
        let (field, bytes) = take_field(column.code, bytes)?;
        self.rest = Row { columns, bytes };
        Some(field)
    }
}
