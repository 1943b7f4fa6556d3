//! Texts as their writers mean them: lists of parts, from which both bytes and tokens come.
#![tactic(auto)]

mod laws;

pub use laws::parts_are_tokens;
