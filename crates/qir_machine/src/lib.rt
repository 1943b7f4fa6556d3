//! The machine that runs modules, over any backend.
#![tactic(auto)]

mod calls;
mod classes;
mod declared;
mod machine;
mod operations;
mod run;

pub use run::{Ended, run_on};
