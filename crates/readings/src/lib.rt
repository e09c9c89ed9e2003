//! What a typed reading makes of a value's bytes and type.
#![tactic(auto)]

mod date_and_time;
mod deserialize;
mod floats;
mod laws;
mod primitives;
mod value;

pub use date_and_time::{MysqlTime, time_value};
pub use deserialize::{FromSql, from_nullable_sql};
pub use floats::{f32_to_i64, f64_to_i64};
pub use laws::{floats_read_as_whole_parts, times_read_back};
pub use primitives::integer_value;
pub use value::{MysqlValue, NumericRepresentation};
