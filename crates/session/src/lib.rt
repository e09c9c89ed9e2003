//! A session over a host: it opens a result, fetches its rows into one arena, and shows their columns.
#![tactic(auto)]

mod answers;
mod closing;
mod fetching;
mod opening;
mod reading;
mod state;

pub use answers::Slip;
pub use state::{Session, Value};
