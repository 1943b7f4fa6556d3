//! What holds of every module that a text spells.
#![tactic(auto)]

mod laws;

pub use laws::read_modules_are_printable;
