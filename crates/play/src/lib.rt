//! Lists of calls, played over a new session and one arena; and the law of what they answer.
#![tactic(auto)]

mod calls;
mod collecting;
mod listening;
mod playing;
mod steps;

pub use calls::{Answer, Call};
pub use collecting::{Played, play};
pub use listening::Listener;
pub use playing::{play_both, play_to};
