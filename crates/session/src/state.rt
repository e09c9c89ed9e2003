//! A session, and a value that it shows.
ghost use Rattle.std.specs.Prelude.{◌≡◌, ℕ, ◌<◌, true};
ghost use Rattle.layout.specs.Columns.{Fits};
ghost use Rattle.layout.specs.Tables.{count_of, col};

use host::{MOST_COLUMNS, Report};
use layout::ColumnTable;
use readings::MysqlValue;
use rows::Spare;

/// What a granted opening left: the columns as they are bound, and whether the last fetch showed a row, whose bytes lie in their places in the
/// arena.
#[derive(Drop)]
pub(crate) struct Opened {
    pub(crate) table: ColumnTable,
    pub(crate) shown: bool,
    ghost fit: { shown ≡ true → (k : ℕ) → k < count_of table → Fits (col table k) },
}

/// A session: the host, which it owns, and what a granted opening left; nothing before one was granted. `IsSound` says that it agrees with what
/// its host means, and `HoldsRow` that a row that is shown stands in the caller's arena.
pub struct Session<H> {
    pub(crate) host: H,
    pub(crate) opened: Option<Opened>,
    /// where the host reports what came of a row
    pub(crate) reports: [Report; MOST_COLUMNS],
    /// where new places are laid out
    pub(crate) spare: Spare,
}

/// What a reading shows. It is lent by the arena, whose bytes it has, and by the session, so that neither changes while it is held.
#[derive(Clone, Copy)]
pub struct Value<'s, 'a> {
    pub(crate) value: MysqlValue<'a>,
    pub(crate) of: &'s Opened,
}
