//! Laws of lowered modules. What each function ensures is the law; its body only cites the laws that it rests
//! on.
ghost use Rattle.lowered_runs.specs.Laws.{AdaptiveBehaves, BaseBehaves};

use printed_residue::laws::{
    base_items_run, base_marks_pass, base_returns_run, base_starts_run, items_run, marks_pass,
    returns_run, starts_run, tails_run,
};
use typed_runs::admitted_modules_keep_the_invariant;
use valid_steps::laws::steps_keep_configurations;

/// The module of a lowered program for an Adaptive target behaves as its source, where the program is made of all
/// configurations that constant evaluation reaches, and is valid.
pub fn adaptive_lowering_keeps_behaviour()
    ensures { AdaptiveBehaves }
{
    items_run();
    marks_pass();
    tails_run();
    returns_run();
    starts_run();
    steps_keep_configurations();
    admitted_modules_keep_the_invariant();
}

/// The same for the Base Profile.
pub fn base_lowering_keeps_behaviour()
    ensures { BaseBehaves }
{
    base_items_run();
    base_marks_pass();
    base_returns_run();
    base_starts_run();
    steps_keep_configurations();
    admitted_modules_keep_the_invariant();
}
