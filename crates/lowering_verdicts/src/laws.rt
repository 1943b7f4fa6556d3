//! Laws of the answers of lowering. What each function ensures is the law; its body only cites the laws that it
//! rests on.
ghost use Rattle.lowering_verdicts.specs.Laws.{LoweringHasAnAnswer, LoweringHasOneAnswer, RefusalsHavePlaces};

use kept_items::Kind;
use path_search::laws::the_verdict_is_one;
use program_verdicts::laws::{configurations_are_listed_in_one_way, every_program_has_a_verdict};
use static_steps::Config;
use told_liveness::laws::{live_names_are_told_in_one_way, live_names_can_be_told};
use valid_steps::laws::{admitted_modules_start, steps_keep_configurations};

/// A module has at most one lowered module for a target and a budget, or one instruction that decides against it,
/// and not both.
pub fn lowering_has_one_answer()
    ensures { LoweringHasOneAnswer }
{
    live_names_are_told_in_one_way();
    configurations_are_listed_in_one_way();
    the_verdict_is_one::<Config, Kind>();
}

/// An admitted module has one of them.
pub fn lowering_has_an_answer()
    ensures { LoweringHasAnAnswer }
{
    live_names_can_be_told();
    every_program_has_a_verdict();
    admitted_modules_start();
    steps_keep_configurations();
}

/// The instruction that decides against an admitted module has a place in its text.
pub fn refusals_have_places()
    ensures { RefusalsHavePlaces }
{
    admitted_modules_start();
    steps_keep_configurations();
}
