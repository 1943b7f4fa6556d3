//! The rules of the Adaptive Profile: every place where a module breaks one.
#![tactic(auto)]

mod calls;
mod capabilities;
mod flow;
mod kinds;
mod pairs;
mod rules;
mod tables;
mod violations;

pub use violations::adaptive;
