//! Steps over a tape's bytes: each takes one thing off their front, and gives it with the bytes after it.
ghost use Rattle.std.specs.Prelude.{◌^◌, ◌<◌, List, ◌∷◌};
ghost use Rattle.std.specs.List.{flat_map};
ghost use Rattle.mysql.specs.declared.bind.Column.{Column as Listed};
ghost use Rattle.host.specs.Fields.{FieldAt};
ghost use Rattle.host.specs.Meanings.{ColumnFits};
ghost use Rattle.tape.specs.Format.{two, four, tag, field_bytes, column_bytes, RowOf, ColumnsIn};
ghost use Rattle.tape.specs.Steps.{Takes, Passes};
ghost use Rattle.tape.specs.Views.{field_of, ColumnsFrom, TakesEvent, TakesEventOf};

use crate::event::{Event, Row};
use crate::field::Field;
use crate::recording::Columns;
use mysql::{Column, known_buffer_size_for_ffi_type};

/// The number that no failure has in the format.
pub(crate) const NO_FAILURE: u16 = 0;

/// A number in two bytes, the low one first.
#[inline(always)]
pub fn take_u16(bytes: &[u8]) -> Option<(u16, &[u8])>
    ensures { Takes (λ n. n < 2 ^ 16) two (λ n. n) bytes.now result }
{
    let (number, rest) = bytes.split_first_chunk()?;
    Some((u16::from_le_bytes(*number), rest))
}

/// A number in four bytes, the lowest first.
#[inline(always)]
pub fn take_u32(bytes: &[u8]) -> Option<(u32, &[u8])>
    ensures { Takes (λ n. n < 2 ^ 32) four (λ n. n) bytes.now result }
{
    let (number, rest) = bytes.split_first_chunk()?;
    Some((u32::from_le_bytes(*number), rest))
}

/// A field that is not null, after its first byte.
#[inline(always)]
fn take_held(code: u8, lost: bool, bytes: &[u8]) -> Option<(Field<'_>, &[u8])>
    ensures { Takes (FieldAt code) field_bytes field_of (tag lost ∷ bytes.now) result }
{
    let (length, rest) = take_u32(bytes)?;
    match known_buffer_size_for_ffi_type(code) {
        Some(size) => {
            if length != size as u32 || size > rest.len() {
                return None;
            }
            let (held, rest) = rest.split_at(size);
            Some((Field::Held { bytes: held, lost }, rest))
        }
        None => {
            let length = length as usize;
            if lost || length > rest.len() {
                return None;
            }
            let (held, rest) = rest.split_at(length);
            Some((Field::Held { bytes: held, lost }, rest))
        }
    }
}

/// A field of a column with this code. The bytes 0, 1 and 2 are the format's.
#[inline(always)]
pub fn take_field(code: u8, bytes: &[u8]) -> Option<(Field<'_>, &[u8])>
    ensures { Takes (FieldAt code) field_bytes field_of bytes.now result }
{
    match bytes {
        [0, rest @ ..] => Some((Field::Null, rest)),
        [1, rest @ ..] => take_held(code, false, rest),
        [2, rest @ ..] => take_held(code, true, rest),
        _ => None,
    }
}

/// A column.
#[inline(always)]
pub fn take_column(bytes: &[u8]) -> Option<(Column, &[u8])>
    ensures { Takes ColumnFits column_bytes (λ c. c) bytes.now result }
{
    let (code, rest) = bytes.split_first()?;
    let (flags, rest) = take_u32(rest)?;
    Some((Column { code: *code, flags }, rest))
}

/// The bytes after the fields of a row with these columns.
#[inline(never)]
fn skip_fields<'a>(columns: &[u8], bytes: &'a [u8]) -> Option<&'a [u8]>
    ensures { (cs : List Listed) → ColumnsFrom columns.now cs → Passes (RowOf cs) (flat_map field_bytes) bytes.now result }
{
    let mut rest = bytes;
    for column in (Columns { bytes: columns }) {
        (_, rest) = take_field(column.code, rest)?;
    }
    Some(rest)
}

/// An event of a recording with these columns. The bytes 0 and 1 are the format's.
pub fn take_event<'a>(columns: &'a [u8], bytes: &'a [u8]) -> Option<(Event<'a>, &'a [u8])>
    ensures event { (cs : List Listed) → ColumnsIn columns.now cs → TakesEvent cs bytes.now result }
    ensures any { (cs : List Listed) → ColumnsFrom columns.now cs → TakesEventOf columns.now cs bytes.now result }
{
    match bytes {
        [0, bytes @ ..] => {
            let rest = skip_fields(columns, bytes)?;
            Some((Event::Row(Row { columns, bytes }), rest))
        }
        [1, number @ ..] => {
            let (number, rest) = take_u16(number)?;
            if number == NO_FAILURE {
                return None;
            }
            Some((Event::Failure(number), rest))
        }
        _ => None,
    }
}
