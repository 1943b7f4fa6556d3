//! The parts of a lowered program, made of the reachable configurations in path order.
#![tactic(auto)]

mod flags;
mod layout;
mod lines;
mod numbers;
mod parts;
mod tails;
mod widths;

pub use flags::joins;
pub use layout::Layout;
pub use numbers::Numbers;
pub use parts::{Source, parts_of};
pub use widths::width_in;
