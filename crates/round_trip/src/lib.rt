//! Printing and reading are inverse to each other.
#![tactic(auto)]

mod laws;

pub use laws::{
    canonical_text_spells_its_module, equal_texts_are_of_equal_modules, printed_modules_read_back,
};
