//! What a run records as its output (QIR specification, 'Output Schemas').
#![tactic(auto)]

mod record;

pub use record::{Record, Records, Shown};
