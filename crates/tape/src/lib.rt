//! Recorded results, read from their bytes.
#![tactic(auto)]

mod event;
mod field;
mod parts;
mod recording;
mod walk;

pub use event::{Event, Row};
pub use field::Field;
pub use parts::Recording;
pub use recording::{COLUMN_SIZE, Columns, Events, Fields};
pub use walk::{take_column, take_event, take_field};
