//! The number of an answer's refusal.
use mysql::Fault;

pub(crate) fn refusal_of<T: Drop>(answer: Result<T, Fault>) -> Option<u8> {
    answer.err().map(|fault| fault.number())
}
