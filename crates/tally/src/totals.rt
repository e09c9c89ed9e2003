//! What is counted.

/// How many rows and failures came, and how many nulls and bytes the rows had; each at most 2^64 - 1.
#[derive(Clone, Copy, PartialEq, Eq, Debug, Default)]
pub struct Totals {
    pub rows: u64,
    pub failures: u64,
    pub nulls: u64,
    pub bytes: u64,
}
