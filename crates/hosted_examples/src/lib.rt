//! Examples of hosts from the documents, as tests.
#![tactic(auto)]

#[cfg(test)]
mod freed;
#[cfg(test)]
mod tapes_hosted;
