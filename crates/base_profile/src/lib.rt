//! The rules of the Base Profile: every place where a module breaks one.
#![tactic(auto)]

mod called;
mod order;
mod rules;
mod tables;
mod violations;
mod walk;

pub use violations::base;
