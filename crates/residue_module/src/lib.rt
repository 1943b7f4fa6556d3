//! The module that a residue is for a target.
#![tactic(auto)]

mod attributes;
mod blocks;
mod body;
mod edges;
mod flags;
mod instructions;
mod module;
mod names;
mod operands;
mod phases;
mod printer;
mod rows;
mod tails;
mod texts;

pub use module::to_module;
