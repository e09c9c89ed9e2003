//! The fields of a tray's rows.
ghost use Rattle.std.specs.Prelude.{◌≡◌, ℕ, ◌+◌, ◌*◌, ◌%◌, ◌<◌, ◌≤◌, min, true, false, length, ◌==◌, slice_index, EachIndex};
ghost use Rattle.host.specs.Calls.{from_offset, PartReported, Stands};
ghost use Rattle.tray.specs.Rows.{size_of_row, field_of_row};
ghost use Rattle.tray.specs.Trays.{means, Fresh};

use crate::tray::Tray;
use host::Report;

impl Tray {
    /// A tray of so many rows.
    pub fn new(rows: u16) -> Tray
        ensures { Fresh rows (means result) }
    {
        Tray {
            rows,
            taken: 0,
            current: None,
            place: None,
            error: 0,
        }
    }
}

/// Whether a row is null.
fn is_null_row(k: usize) -> bool
    ensures { result ≡ (k % 5 == 3) }
{
    k % 5 == 3
}

/// How many bytes a row has. The remainder first keeps the product small.
fn row_size(k: usize) -> usize
    ensures { result ≡ size_of_row k }
{
    37 * (k % 200) % 200
}

/// Writes the bytes of a row, from its byte `offset` on.
fn write_bytes(k: usize, offset: usize, part: &mut [u8])
    ensures { EachIndex part.new (λ j. slice_index part.new j ≡ (k + (offset + j)) % 256) }
{
    for (j, byte) in part.iter_mut().enumerate() {
        *byte = ((k % 256 + (offset % 256 + j % 256)) % 256) as u8;
    }
}

/// Writes the field of a row, from its byte `offset` on, to the part's front, as much as fits, and reports it.
pub(crate) fn write_field(k: usize, offset: usize, part: &mut [u8]) -> Report
    ensures reported { PartReported (field_of_row k) offset (length part.old) result }
    ensures stands { Stands (from_offset offset (field_of_row k)) 0 (length part.old) part.new }
{
    if is_null_row(k) {
        return Report {
            is_null: true,
            ..Report::default()
        };
    }
    let size = row_size(k);
    let rest = size.saturating_sub(offset);
    let count = rest.min(part.len());
    write_bytes(k, offset, &mut part[..count]);
    Report {
        length: size as u64,
        is_null: false,
        is_truncated: rest > part.len(),
    }
}
