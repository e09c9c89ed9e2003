//! What becomes of a row that the host wrote.
ghost use Rattle.std.specs.Prelude.{◌≡◌, ℕ, ◌<◌, ◌≤◌, length, IfOk, MatchOption, OnOk, slice_index};
ghost use Rattle.host.specs.declared.records.BindRecord.{BindRecord};
ghost use Rattle.host.specs.Meanings.{Row};
ghost use Rattle.layout.specs.Tables.{AllFit, NoneLost, LowestLost, Grown, SamePlaces, end};
ghost use Rattle.layout.specs.Moves.{Beyond};
ghost use Rattle.host.specs.Calls.{with_error};
ghost use Rattle.rows.specs.Settling.{Handled, RowGot, Settled, RoomTried, RowIn, RoomMade, MissingAsked, Half, WholeAs, PartAsked, PartInto};

use crate::spare::Spare;
use host::{Host, Report};
use layout::ColumnTable;
use mysql::{Fault, Refusal};

/// Notes what the host reported, refuses a row that lost a figure (10) or needs more than the arena has (11), and otherwise lets the places grow
/// until the row stands there whole.
pub fn populate_dynamic_buffers<H: Host>(
    host: &mut H,
    table: &mut ColumnTable,
    arena: &mut [u8],
    reports: &[Report],
    spare: &mut Spare,
) -> Result<(), Fault>
    ensures fit { OnOk result (AllFit table.new) }
    ensures handled { Handled (H.Host.meaning host.old) table.old reports.now arena.old result (H.Host.meaning host.new) table.new arena.new }
    ensures came { (row : Row) → RowGot (H.Host.meaning host.old) row table.old reports.now arena.old → Settled (H.Host.meaning host.old) row table.old reports.now arena.old result (H.Host.meaning host.new) table.new arena.new }
{
    // where each column is plain, no figure is lost and every value stands whole in its place
    if table.note_all(reports) {
        return Ok(());
    }
    if let Some(k) = did_numeric_overflow_occur(table) {
        return Err(Fault::new(Refusal::NumericOverflow).at(k as u8));
    }
    if !table.fits() {
        make_room(host, table, arena, spare)?;
    }
    Ok(())
}

/// Gives the columns new places, fetches what is missing there, and tells the host of them.
#[cold]
#[inline(never)]
fn make_room<H: Host>(
    host: &mut H,
    table: &mut ColumnTable,
    arena: &mut [u8],
    spare: &mut Spare,
) -> Result<(), Fault>
    ensures fit { OnOk result (AllFit table.new) }
    ensures tried { RoomTried (H.Host.meaning host.old) table.old arena.old result (H.Host.meaning host.new) table.new arena.new }
    ensures came { (row : Row) → RowIn (H.Host.meaning host.old) row table.old arena.old → NoneLost table.old → RoomMade (H.Host.meaning host.old) row table.old arena.old result (H.Host.meaning host.new) table.new arena.new }
{
    table
        .grow(arena, &mut spare.table)
        .ok_or(Fault::new(Refusal::NoRoom))?;
    fetch_missing(host, table, &mut spare.table, arena)?;
    if !spare.table.fits() {
        return Err(Fault::host(host.error_number()));
    }
    spare.bind_host(host)?;
    table.take_from(&spare.table);
    Ok(())
}

/// The lowest column of which a figure was lost, whether or not the row fits its places.
fn did_numeric_overflow_occur(table: &ColumnTable) -> Option<usize>
    ensures { MatchOption result (NoneLost table.now) (LowestLost table.now) }
{
    table.lost()
}

/// Fetches what is missing of each column that was longer than its old place, from there on.
fn fetch_missing<H: Host>(
    host: &mut H,
    old: &ColumnTable,
    new: &mut ColumnTable,
    arena: &mut [u8],
) -> Result<(), Fault>
    requires grown { Grown old.now new.old }
    requires room { old.now.room ≤ length arena.old }
    ensures places { SamePlaces new.old new.new }
    ensures host { H.Host.meaning host.new ≡ with_error (H.Host.meaning host.new).error (H.Host.meaning host.old) }
    ensures beyond { Beyond (end new.old) arena.old arena.new }
    ensures asked { MissingAsked result (H.Host.meaning host.old) old.now new.old (H.Host.meaning host.new) new.new }
    ensures came { (row : Row) → Half (H.Host.meaning host.old) row old.now new.old arena.old → WholeAs result (H.Host.meaning host.old) row old.now new.old arena.old (H.Host.meaning host.new) new.new arena.new }
{
    for (i, column) in old.columns().iter().enumerate() {
        if column.is_over() {
            let start = new.columns()[i].start;
            let missing = &mut arena[start + column.capacity..start + column.length as usize];
            let report = fetch_part(host, i, column.capacity, missing)?;
            new.note(i, report);
        }
    }
    Ok(())
}

/// Fetches a column from an offset on, as much of it as the part is long.
fn fetch_part<H: Host>(
    host: &mut H,
    column: usize,
    offset: usize,
    part: &mut [u8],
) -> Result<Report, Fault>
    ensures host { H.Host.meaning host.new ≡ with_error (H.Host.meaning host.new).error (H.Host.meaning host.old) }
    ensures asked { PartAsked (H.Host.meaning host.old) column result (H.Host.meaning host.new) }
    ensures came { (row : Row) (b : BindRecord) → PartInto (H.Host.meaning host.old) row b column offset result (H.Host.meaning host.new) 0 (length part.new) part.new }
{
    let mut report = Report::default();
    if host.fetch_column(column, offset, part, &mut report) {
        Ok(report)
    } else {
        Err(Fault::host(host.error_number()))
    }
}
