//! The columns of a tape, and the codes that are asked for.
ghost use Rattle.std.specs.Prelude.{◌≡◌, List, length};
ghost use Rattle.mysql.specs.declared.bind.Column.{Column};
ghost use Rattle.tape.specs.Recordings.{ColumnsLeft};
ghost use Rattle.tape_host.specs.Codes.{own_codes};

use host::BindRecord;
use tape::Columns;

/// Whether each record asks for its column's own code.
pub(crate) fn asks_own_codes(columns: Columns, records: &[BindRecord]) -> bool
    ensures { (cs : List Column) → ColumnsLeft columns.entry cs → length records.now ≡ length cs → result ≡ own_codes cs records.now }
{
    columns
        .zip(records)
        .all(|(column, record)| record.code == column.code)
}
