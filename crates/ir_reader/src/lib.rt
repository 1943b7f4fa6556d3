//! The module that a text spells, with the places of its parts, or the first fault of the text.
#![tactic(auto)]

mod bytes;
mod laws;
mod parsed;
mod reading;

pub use laws::{one_answer, places_are_of_spots};
pub use parsed::{Parsed, ReadCode, ReadStop};
pub use reading::read;

#[cfg(test)]
mod tests;
