//! Each column at its own code and sign, with no room for its bytes.
ghost use Rattle.std.specs.Prelude.{◌≡◌};
ghost use Rattle.tally.specs.Tallies.{own_records};

use arrayvec::ArrayVec;
use host::{BindRecord, Host, MOST_COLUMNS};

/// The records of a host's columns. A loop over numbers, since a host gives a column by its number, as the C API does.
pub(crate) fn own_records<H: Host>(host: &H) -> ArrayVec<BindRecord, MOST_COLUMNS>
    ensures { result.items ≡ own_records (H.Host.meaning host.now).columns }
{
    let mut records = ArrayVec::new();
    for i in 0..host.column_count() {
        let column = host.column(i);
        records.push(BindRecord::from(column));
    }
    records
}
