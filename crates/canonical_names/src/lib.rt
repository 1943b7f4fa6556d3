//! The canonical text of a function of a printable module is a sentence of the grammar, and its names are those of the
//! function.
#![tactic(auto)]

mod laws;

pub use laws::canonical_functions_are_sentences;
