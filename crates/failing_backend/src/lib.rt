//! A backend that answers given bits and fails once, for tests of what a failing machine leaves.
#![tactic(auto)]

mod flaky;

pub use flaky::Flaky;
