//! Every module has a test that tells its live names, and just one.
#![tactic(auto)]

pub mod laws;
