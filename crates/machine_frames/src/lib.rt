//! The frames of a running machine: the values of local names, and the functions that wait for calls.
#![tactic(auto)]

mod edges;
mod flow;
mod frames;
mod integers;
mod values;

pub use edges::block_in;
pub use flow::Flow;
pub use frames::{Frames, Waiting};
pub use integers::bit_int;
pub use values::{Env, Values, is_one, value_at, value_of, values_of};
