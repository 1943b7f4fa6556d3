//! Admission: the rules that a module keeps, and the first one that it breaks.
#![tactic(auto)]

mod arcs;
mod breaks;
mod cases;
mod code;
mod entries;
mod kept;
mod laws;
mod numbers;
mod operands;
mod phis;
mod required;
mod reserved;
mod scene;
mod search;
mod seen;
mod shapes;
mod signatures;
mod walk;
mod words;
mod written;

pub use code::TypeCode;
pub use laws::{modules_are_typed_or_faulty, modules_have_one_first_fault};
pub use required::{Required, required_numbers};
pub use search::first_fault;
