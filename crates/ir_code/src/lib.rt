//! Readers of the code in module texts: names, types, operands, instructions and blocks.
//!
//! Each function reads the production of `ir_grammar` that has its name, and says so in one clause: it gives the tree of the
//! tokens that it takes, or the first fault. A fault is that no production goes on with the next token, or that the next
//! token breaks its side rule; then the tokens from it on are told. `Halt::Memory` leaves the cursor anywhere.
#![tactic(auto)]

mod bodies;
mod instructions;
mod operands;
mod side_rules;
mod types;
mod words;

pub use bodies::blocks;
use grammar::Halt;
pub use instructions::{groups, worded_type};
use ir_tokens::{Rule, Token};
pub use operands::array_type;
pub use side_rules::{InRange, SoLong, is_negative};
pub use types::{return_type, type_comes};
pub use words::{global, group, local, local_comes, node};

/// What stops a reader: a want of memory, or the first fault.
pub type Stop<'a> = Halt<'a, Token, Rule>;
