//! Runs of admitted modules: none gets stuck, and its values have the types of their names.
#![tactic(auto)]

mod laws;

pub use laws::{
    admitted_modules_are_kept_apart, admitted_modules_keep_the_invariant, admitted_modules_run,
    admitted_modules_stay_below, admitted_modules_write_constants,
};
