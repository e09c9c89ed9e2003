//! What becomes of each event of a class list.
use mysql::Fault;

/// The columns of a class list, and how many there have to be.
pub(crate) const CLASS: usize = 0;

pub(crate) const OUTLET: usize = 1;

pub(crate) const DIAMETER: usize = 2;

pub(crate) const COLUMNS: usize = 3;

/// What a row that was shown has, each with the reading's own refusal: class and diameter as whole numbers, the outlet as a copy of its bytes; none
/// is a null.
#[derive(Drop)]
pub struct ClassRow {
    pub class: Result<i32, Fault>,
    pub outlet: Result<Option<Vec<u8>>, Fault>,
    pub diameter: Result<i32, Fault>,
}

/// An event, as a fetch found it.
#[derive(Drop)]
pub enum Line {
    /// A row that was shown, and read.
    Row(ClassRow),
    /// A row that was refused, and passed over.
    RowRefused(Fault),
    /// A failure of the host.
    Failed(Fault),
}
