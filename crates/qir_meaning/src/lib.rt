//! What a run of a module is: the operations that it issues, the records that it writes and its end.
#![tactic(auto)]

mod end;
mod laws;

pub use end::{Ask, End};
pub use laws::{
    ended_runs_stay, fixed_naming_keeps_apart, modules_have_one_run, runs_are_steps,
    runs_only_grow, simulation_gives_runs, simulation_keeps_behaviour,
};
