//! The commands `run` and `trace` of an admitted module: its shots, told as they end.
#![tactic(auto)]

mod events;
mod laws;
mod records;
mod shot;
mod words;

pub use events::trace;
pub use laws::{runs_are_one, runs_exist, traces_are_one, traces_exist};
pub use records::run;
pub use words::{Backends, schema_of, script_of, scripts_of};
