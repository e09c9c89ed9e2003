//! Recorded answers: a line each, with a question and what was answered to it.
#![tactic(auto)]

mod buffers;
mod question;
mod types;
mod unread;
mod words;

pub use buffers::{Buffers, Case};
pub use question::{Kind, Question};
pub use types::type_numbered;
pub use unread::Unread;
