//! A backend that answers given bits, for tests and for runs by hand.
#![tactic(auto)]

mod script;

pub use script::Script;
