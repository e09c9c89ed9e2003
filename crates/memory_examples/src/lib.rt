//! What needs memory, with it and without: each test passes where there is enough, and where some allocation fails and that is said.
//! `tools/without_memory` runs them with each allocation failing in its turn.
#![tactic(auto)]

#[cfg(test)]
mod kept;
