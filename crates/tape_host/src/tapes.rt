//! A tape: a host of a recorded result.
ghost use Rattle.std.specs.Prelude.{◌≡◌, ◌*◌, ◌≤◌, true, List, length, take};
ghost use Rattle.std.specs.Option.{ForSome};
ghost use Rattle.host.specs.Calls.{in_order};
ghost use Rattle.mysql.specs.declared.bind.Column.{Column};
ghost use Rattle.tape.specs.Format.{Contents, ColumnsIn, Holds};
ghost use Rattle.tape.specs.Unique.{one_contents};
ghost use Rattle.tape_host.specs.Codes.{own_codes};

use crate::current::Current;
use host::{BindRecord, MOST_COLUMNS};
use tape::Events;

/// A recorded result, of which events are taken off and columns are bound (docs/host.md).
#[derive(Clone, Copy)]
pub struct Tape<'a> {
    /// the events that are to come, each with the columns
    pub(crate) events: Events<'a>,
    /// how many columns there are
    pub(crate) width: usize,
    pub(crate) current: Option<Current<'a>>,
    /// whether there is a bind list, and its records, at the front of an array
    pub(crate) is_bound: bool,
    pub(crate) records: [BindRecord; MOST_COLUMNS],
    pub(crate) error: u16,
    ghost few: { width ≤ 64 },
    ghost wide: { 5 * width ≡ length events.columns.now },
    // its columns, and the events that are to come
    ghost left: { (t : Contents) × Holds events.columns.now events.bytes.now events.count t } by { one_contents events.columns.now events.bytes.now events.count },
    // the current row has the same columns
    ghost columned: { ForSome current (λ c. c.row.columns.now ≡ events.columns.now) },
    // the places of the columns are in order
    ghost ordered: { is_bound ≡ true → in_order 0 (take width records) ≡ true },
    // each is bound at its own code
    ghost coded: { is_bound ≡ true → (cs : List Column) → ColumnsIn events.columns.now cs → own_codes cs (take width records) ≡ true },
}
