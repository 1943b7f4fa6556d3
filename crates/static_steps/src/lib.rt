//! Configurations, which constant evaluation walks over, and the static step between them.
#![tactic(auto)]

mod config;
pub mod laws;
mod phase;
mod readings;
mod turn;
mod work;

pub use config::{Config, Frame, Names};
pub use phase::Phase;
pub use turn::{Move, Moves, Turn};
pub use work::{Work, WorkFrame, WorkNames};
