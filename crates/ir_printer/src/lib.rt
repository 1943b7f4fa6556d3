//! The canonical text of a module: `print`.
#![tactic(auto)]

mod functions;
mod groups;
mod instructions;
mod metadata;
mod module;
mod names;
mod open;
mod operands;
mod types;
mod writer;

pub use module::print;
