//! A count of what any host has to come.
#![tactic(auto)]

mod count;
mod records;
mod totals;

pub use count::tally;
pub use totals::Totals;
