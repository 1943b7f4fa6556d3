//! The static step of branches, switches, calls of functions with a body, returns, allocations and releases.
#![tactic(auto)]

mod allocations;
mod branches;
mod calls;
mod edges;
mod returns;

pub use allocations::{allocate, release};
pub use branches::{branch, jump, switch};
pub use calls::{enter, pass};
pub use returns::back;
