//! The names of a module text, resolved over its syntax tree (LLVM Language Reference, 'Identifiers').
#![tactic(auto)]

mod before;
mod blocks;
mod calls;
mod collect;
mod fault;
mod flags;
mod functions;
mod globals;
mod items;
mod laws;
mod lines;
mod marks;
mod name;
mod numbers;
mod operands;
mod outer;
mod scope;
mod whole;

pub use fault::{Fault, NameCode, Stop};
pub use laws::places_are_of_spots;
pub use marks::places;
pub use whole::resolve;
