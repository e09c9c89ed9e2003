//! Examples of sessions and of lists of calls, from the rules, over tapes and trays, as tests.
#![tactic(auto)]

#[cfg(test)]
mod closed;
#[cfg(test)]
mod exchange;
#[cfg(test)]
mod openings;
#[cfg(test)]
mod places;
#[cfg(test)]
mod recorded;
#[cfg(test)]
mod rows_shown;
#[cfg(test)]
mod stale_text;
#[cfg(test)]
mod trays_played;
#[cfg(test)]
mod values;
