//! The canonical text of a printable module is a sentence of the grammar.
#![tactic(auto)]

mod laws;

pub use laws::{canonical_steps_are_sentences, canonical_types_are_sentences};
