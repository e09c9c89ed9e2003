//! Numeric text as an integer of a target type.
#![tactic(auto)]

mod decimal;
mod laws;
mod target;

pub use decimal::decimal_to_integer;
pub use laws::printed_integers_read_back;
pub use target::Target;
