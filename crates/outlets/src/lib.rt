//! Class lists, read through a session over any host: a result whose first column is a class, and whose second is the outlet of that class.
#![tactic(auto)]

mod count;
mod find;
mod recorded;
mod size;

pub use count::{RowCounts, count_rows};
pub use find::{CLASS, OUTLET, find_outlet};
pub use recorded::{count_recorded, find_recorded};
pub use size::{TapeSize, tape_size};
