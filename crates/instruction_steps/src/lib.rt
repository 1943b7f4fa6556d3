//! The static step of instructions on integers, of `select`, and of calls of declared functions that read results, issue
//! operations or write records.
#![tactic(auto)]

mod conversions;
mod integers;
mod operations;
mod records;
mod results;
mod selects;
mod values;

pub use conversions::convert;
pub use integers::{binary, icmp};
pub use operations::{gate, measure, measure_returning};
pub use records::{count_output, int_output, result_output, value_output};
pub use results::{equal, read};
pub use selects::select;
