//! What a quantum machine is asked to do, and what it answers.
#![tactic(auto)]

mod backend;
mod operation;

pub use backend::{Backend, Stop, Turned};
pub use operation::{Answer, Answers, Arg, Args, Event, Events, Op, QubitRef, ResultRef};
