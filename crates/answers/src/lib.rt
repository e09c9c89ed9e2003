//! What this port answers to a question, in the words in which answers are recorded.
#![tactic(auto)]

mod port;
mod singles;
mod tapes;
mod text;
mod trays;
mod words;

pub use port::Port;
