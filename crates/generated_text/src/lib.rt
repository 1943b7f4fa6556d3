//! The text of a program that is generated for a number.
#![tactic(auto)]

mod text;

pub use text::generated_text;
