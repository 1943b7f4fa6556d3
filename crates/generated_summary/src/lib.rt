//! The summary of a module that was generated: it is lowered, and both modules are run over classical bits.
#![tactic(auto)]

pub mod laws;
mod lines;
mod names;
mod run;
mod same;
mod summary;

pub use lines::summary_lines;
pub use summary::{Summary, summarize};
