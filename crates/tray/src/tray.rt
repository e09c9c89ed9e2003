//! A tray: a host whose rows are made by rule.
use host::BindRecord;

#[derive(Clone, Copy)]
pub struct Tray {
    /// how many rows there are, and how many of them were taken off: the rows are made by rule, and stand in no list
    pub(crate) rows: u16,
    pub(crate) taken: u16,
    /// the number of the current row
    pub(crate) current: Option<usize>,
    /// the place that the column is bound to
    pub(crate) place: Option<BindRecord>,
    pub(crate) error: u16,
}
