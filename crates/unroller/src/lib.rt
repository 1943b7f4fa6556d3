//! All configurations that constant evaluation reaches, in path order, or the first instruction in path
//! order that can't be lowered.
#![tactic(auto)]

mod exploration;
mod node;
mod steps;

pub use exploration::{LowerStop, explore};
pub use node::{Node, Outcome};
pub use steps::StaticSteps;
