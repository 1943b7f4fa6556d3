//! The lines in which runs are told: records by the output schemas, and events of a trace.
#![tactic(auto)]

mod event_line;
mod field;
mod last;
mod line;
mod record_line;
mod shot;

pub use last::{Last, Schema, StopName};
pub use line::ShotStop;
pub use record_line::cause_name;
pub use shot::{write_head, write_shot, write_trace};
