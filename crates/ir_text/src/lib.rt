//! The tokens of a QIR module's text.
#![tactic(auto)]

mod class;
mod fault;
mod next;
mod number;
mod shape;
mod tok;

pub use next::{next_token, next_token_in_pass, tokens_are_one};
pub use tok::{LexCode, LexError, Span, Tok};
