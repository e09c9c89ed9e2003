//! Rows and bound columns: what a row is to columns that are bound at a code and sign, and how a row that the host wrote comes to stand
//! whole in a table's places.
#![tactic(auto)]

mod answers;
mod settling;
mod spare;

pub use answers::Fetch;
pub use settling::populate_dynamic_buffers;
pub use spare::Spare;
