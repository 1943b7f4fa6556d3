//! Admission: a module that makes sense, with what the crates above look up of it.
#![tactic(auto)]

mod checked;
mod judging;
mod stop;
mod tables;

pub use checked::Checked;
pub use judging::admit;
pub use stop::AdmitStop;
