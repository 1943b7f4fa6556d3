//! The words that name capabilities of the Adaptive Profile.
#![tactic(auto)]

mod words;

pub use words::caps_of;
