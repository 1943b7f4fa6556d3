//! What constant evaluation leaves of a program: Dynamic values, the items of instructions, the choice
//! among successors, and the targets and refusals of lowering.
#![tactic(auto)]

mod item;
mod target;
mod val;

pub use item::{Choice, Code, Item, TypedVals};
pub use target::{Caps, Kind, Target};
pub use val::{Dyn, Dyns, Val};
