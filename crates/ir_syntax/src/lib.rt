//! The syntax tree of a module text, or its first fault.
//!
//! Each function reads the production of `ir_grammar` that has its name, and says so in one clause. [`read_syntax`] reads
//! a whole text: it gives the tree of its tokens, or exactly the first fault, by its code and its byte.
#![tactic(auto)]

mod attributes;
mod constants;
mod fault;
mod functions;
mod items;
mod laws;
mod metadata;
mod read;
mod refusal;

pub use fault::{SyntaxCode, SyntaxFault, SyntaxStop};
pub use laws::each_text_has_one_answer;
pub use read::read_syntax;
