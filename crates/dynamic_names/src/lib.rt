//! The Dynamic names of a configuration: how many there are, and how wide each is.
#![tactic(auto)]

mod counting;
mod widths;

pub use counting::dynamics;
pub use widths::width;
