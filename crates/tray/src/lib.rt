//! A host of rows that are made by rule, to try a session on.
#![tactic(auto)]

mod hosted;
mod rows;
mod tray;

pub use tray::Tray;
