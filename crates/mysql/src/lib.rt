//! Refusals and types of the rows that a MySQL client library returns.
#![tactic(auto)]

mod backend;
mod bind;
mod fault;
mod ffi;
mod kept;
mod result;

pub use backend::MysqlType;
pub use bind::{Column, known_buffer_size_for_ffi_type, known_flags, round_trip, taken};
pub use fault::{Fault, HostError, Layer, NO_COLUMN, Refusal, last_error_type};
pub use ffi::{MYSQL_TIME_SIZE, MYSQL_TYPE_NULL, MYSQL_TYPE_VAR_STRING};
pub use kept::{is_kept, kept_pairs};
pub use result::DatabaseErrorKind;
