//! The commands of `qir`, each with its whole reply to every input.
#![tactic(auto)]

mod admitted;
mod answering;
mod command;
mod generating;
mod laws;
mod looking;
mod lowering;
mod program;
mod refusal;
mod reply;
mod sending;
mod status;

pub use command::Command;
pub use laws::{replies_are_one, replies_exist};
pub use program::qir;
pub use status::Status;
