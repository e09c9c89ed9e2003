//! Examples from the documents, run as tests of the libraries. They have a crate of their own, so that no library is proved twice.
#![tactic(auto)]

#[cfg(test)]
mod readings_of;
#[cfg(test)]
mod refusal;
#[cfg(test)]
mod tapes;
#[cfg(test)]
mod trays;
#[cfg(test)]
mod types;
