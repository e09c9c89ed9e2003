//! Fields, written to their places and reported.
ghost use Rattle.std.specs.Prelude.{◌≡◌, ℕ, List, ◌+◌, ◌^◌, ◌<◌, ◌≤◌, min, true, length, drop, slice_index};
ghost use Rattle.host.specs.Fields as recorded;
ghost use Rattle.host.specs.Calls.{from_offset, PartReported, Stands, in_order, all_end_by};
ghost use Rattle.tape.specs.Format.{field_bytes, RowContents};
ghost use Rattle.tape.specs.Steps.{Begins};
ghost use Rattle.tape.specs.Views.{field_of, RowShows};
ghost use Rattle.tape_host.specs.Walks.{Asked};
ghost use Rattle.tape_host.specs.Wholes.{Wrote};

use host::{BindRecord, Report};
use tape::{Field, Row, take_field};

/// Copies bytes to a part's front, as many as fit.
fn copy_front(bytes: &[u8], part: &mut [u8])
    ensures { (j : ℕ) → j < min (length part.old) (length bytes.now) → slice_index part.new j ≡ slice_index bytes.now j }
{
    let count = bytes.len().min(part.len());
    copy_same(&bytes[..count], &mut part[..count]);
}

/// Copies bytes over as many others. Up to 16 of them go in one or two copies of a fixed size, which are a load and a store each.
#[inline(always)]
fn copy_same(bytes: &[u8], part: &mut [u8])
    requires { length part.old ≡ length bytes.now }
    ensures { part.new ≡ bytes.now }
{
    if bytes.len() > 16 {
        part.copy_from_slice(bytes);
    } else if bytes.len() >= 8 {
        copy_ends::<8>(bytes, part);
    } else if bytes.len() >= 4 {
        copy_ends::<4>(bytes, part);
    } else if bytes.len() >= 2 {
        copy_ends::<2>(bytes, part);
    } else if bytes.len() == 1 {
        part[0] = bytes[0];
    }
}

/// Copies the first and the last `N` bytes, which together are all of them.
#[inline(always)]
fn copy_ends<const N: usize>(bytes: &[u8], part: &mut [u8])
    requires small { N < 2 ^ 32 }
    requires as_many { length part.old ≡ length bytes.now }
    requires enough { N ≤ length bytes.now }
    requires few { length bytes.now ≤ N + N }
    ensures { part.new ≡ bytes.now }
{
    if let (Some(first), Some(last)) = (bytes.first_chunk::<N>(), bytes.last_chunk::<N>()) {
        let first = *first;
        let last = *last;
        if let Some(to) = part.first_chunk_mut::<N>() {
            *to = first;
        }
        if let Some(to) = part.last_chunk_mut::<N>() {
            *to = last;
        }
    }
}

/// The bytes from an offset on; past their end there are none.
fn after(bytes: &[u8], offset: usize) -> &[u8]
    ensures { result.now ≡ drop offset bytes.now }
{
    &bytes[offset.min(bytes.len())..]
}

/// Writes a field, from its byte `offset` on, to the part's front, as much as fits, and reports it.
pub(crate) fn write_field(field: Field, offset: usize, part: &mut [u8]) -> Report
    ensures reported { PartReported (field_of field.entry) offset (length part.old) result }
    ensures stands { Stands (from_offset offset (field_of field.entry)) 0 (length part.old) part.new }
{
    match field {
        Field::Null => Report {
            is_null: true,
            ..Report::default()
        },
        Field::Held { bytes, lost } => {
            let rest = after(bytes, offset);
            copy_front(rest, part);
            Report {
                length: bytes.len() as u64,
                is_null: false,
                is_truncated: rest.len() > part.len() || lost,
            }
        }
    }
}

/// The field at the front of a row's bytes, of a column with this code, and the bytes after it; null where none stands there.
#[inline(always)]
pub(crate) fn first_field(code: u8, bytes: &[u8]) -> (Field<'_>, &[u8])
    ensures { (f : recorded.Field) (rest : List ℕ) → Begins (recorded.FieldAt code) field_bytes bytes.now f rest → (field_of result.0 ≡ f) × (result.1.now ≡ rest) }
{
    take_field(code, bytes).unwrap_or((Field::Null, bytes))
}

/// Writes the fields of a row to their places, with a report for each. Answers whether anything of it is truncated, which is no failure, and with the
/// bytes after the fields.
#[inline(always)]
pub(crate) fn write_row<'a>(
    row: Row<'a>,
    places: &[BindRecord],
    arena: &mut [u8],
    reports: &mut [Report],
) -> (bool, &'a [u8])
    requires ordered { in_order 0 places.now ≡ true }
    requires inside { all_end_by (length arena.old) places.now ≡ true }
    requires counted { length reports.old ≡ length places.now }
    requires asked { Asked row places.now }
    ensures wrote { (r : RowContents) → RowShows row.entry r → Wrote r.fields places.now reports.new arena.old arena.new result.0 }
    ensures rest { (r : RowContents) → RowShows row.entry r → result.1.now ≡ r.rest }
{
    let mut rest = row.bytes;
    let mut truncated = false;
    for (i, place) in places.iter().enumerate() {
        let end = place.start + place.capacity;
        let (field, after) = first_field(place.code, rest);
        rest = after;
        let report = write_field(field, 0, &mut arena[place.start..end]);
        truncated |= report.is_truncated;
        let told = &mut reports[i];
        told.length = report.length;
        told.is_null = report.is_null;
        told.is_truncated = report.is_truncated;
    }
    (truncated, rest)
}
