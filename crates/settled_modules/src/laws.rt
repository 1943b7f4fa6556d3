//! Laws of lowering what was lowered. What each function ensures is the law; its body only cites the laws that it
//! rests on.
ghost use Rattle.settled_modules.specs.Laws.{BaseStays, FourTimesServes, LoweredAgain, LoweredAreSources, LoweredFits, SmallStaySources};

use live_names::laws::lowered_is_accepted;
use lowered_sizes::laws::lowered_modules_have_few_instructions;
use lowering_budgets::laws::budgets_count_configurations;
use lowering_verdicts::laws::lowering_has_an_answer;
use numbered_residue::laws::printed_is_numbered;
use repeated_lowering::laws::{base_is_repeated, made_residues_are_repeatable};
use settled_lowering::laws::base_is_accepted;
use sound_lowering::laws::rules_hold;
use typed_residue::laws::printed_is_typed;
use undecided_parts::laws::made_residues_are_undecided;
use valid_steps::laws::steps_keep_configurations;

/// The lowered program of an admitted module is valid, fits its profile, and requires few numbers.
pub fn lowered_programs_fit()
    ensures { LoweredFits }
{
    steps_keep_configurations();
    rules_hold();
    budgets_count_configurations();
}

/// A lowered module is admitted as a source exactly where the numbers that it requires are within the limit of sources.
pub fn lowered_modules_are_sources()
    ensures { LoweredAreSources }
{
    lowered_programs_fit();
    printed_is_typed();
}

/// So it is where the numbers that its source requires are that far below the limit.
pub fn small_sources_stay_sources()
    ensures { SmallStaySources }
{
    lowered_programs_fit();
    printed_is_typed();
}

/// A lowered module that is admitted as a source is lowered again, within as many configurations as it has instructions.
pub fn lowered_modules_are_lowered_again()
    ensures { LoweredAgain }
{
    lowered_programs_fit();
    printed_is_numbered();
    base_is_accepted();
    lowered_is_accepted();
    made_residues_are_undecided();
    lowering_has_an_answer();
    budgets_count_configurations();
}

/// Within four times the first budget and sixteen more it always is.
pub fn four_times_the_budget_serves()
    ensures { FourTimesServes }
{
    lowered_modules_are_lowered_again();
    budgets_count_configurations();
    lowered_modules_have_few_instructions();
}

/// And for Base it is lowered to itself.
pub fn lowered_base_modules_stay()
    ensures { BaseStays }
{
    lowered_programs_fit();
    base_is_repeated();
    made_residues_are_repeatable();
}
