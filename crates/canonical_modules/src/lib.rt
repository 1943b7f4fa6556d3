//! The canonical text of a printable module is a sentence of the grammar, and its tree spells the module.
#![tactic(auto)]

mod laws;

pub use laws::canonical_text_is_of_its_module;
