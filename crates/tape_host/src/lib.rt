//! Recorded results as a host.
#![tactic(auto)]

mod columns;
mod current;
mod hosted;
mod open;
mod places;
mod tapes;
mod write;

pub use tapes::Tape;
