//! A class list, gone through or loaded whole through a session: a line for each event of the result, in order.
#![tactic(auto)]

mod counts;
mod lines;
mod listener;
mod loading;
mod telling;

pub use counts::{Counts, count};
pub use lines::{ClassRow, Line};
pub use listener::{Listener, SeenRow};
pub use loading::{LoadError, Loaded, load};
pub use telling::{Listed, NotListed, tell_lines};
