// Rows of a step list: what one line says, whether it is the header row, and where a row ends.
#![tactic(auto)]

mod ahead;
mod field;
mod reading;
mod row;
mod whole;
mod word;

pub use row::{MOST_BYTES, Row, is_header, parse};
pub use whole::{Found, find, step_of, trim};
