//! Going through the result that a host holds, from the opening of a session to its end.
#![tactic(auto)]

mod walking;
mod watch;

pub use walking::walk;
pub use watch::Watch;
