//! The static steps of a module that was admitted, for a target.
#![tactic(auto)]

mod steps;

pub use steps::AdmittedSteps;
