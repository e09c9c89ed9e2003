//! The layout of a session's columns: where each is written in the arena, what was last reported of it, and how places grow. It knows no
//! host.
#![tactic(auto)]

mod bytes;
mod grow;
mod moves;
mod notes;
mod opening;
mod record;
mod table;

pub use opening::MOST_BYTES;
pub use record::ColumnRecord;
pub use table::ColumnTable;
