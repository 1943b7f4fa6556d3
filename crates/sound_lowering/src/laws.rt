//! Laws of lowering. What each function ensures is the law; its body only cites the laws that it rests on.
ghost use Rattle.sound_lowering.specs.Laws.{LoweredIsSound, LoweredIsValid};
ghost use Rattle.sound_lowering.specs.code.Rules.{RulesHold};

use acyclic_parts::laws::jumps_lead_on;
use base_order::laws::{base_keeps_order, base_permits};
use lowered_runs::laws::{adaptive_lowering_keeps_behaviour, base_lowering_keeps_behaviour};
use lowered_sizes::laws::{lowered_modules_have_few_instructions, lowered_modules_have_few_phis};
use numbered_residue::laws::printed_is_numbered;
use printable_program::laws::lowered_modules_are_printable;
use profiled_residue::laws::printed_passes;
use typed_residue::laws::printed_is_typed;
use typed_runs::{admitted_modules_are_kept_apart, admitted_modules_run};
use valid_calls::laws::{calls_agree, measurements_are_named, numbers_are_small};
use valid_lines::laws::items_are_valid;
use valid_parts::laws::{constants_hold, jumps_fit, parts_start, scopes_hold, types_hold};
use valid_residue::laws::{
    adaptive_permits, cases_differ, handles_are_below, labels_are_below, names_differ,
    nodes_are_steps,
};
use valid_steps::laws::steps_keep_configurations;

/// The rules of a valid lowered program, one by one.
pub fn rules_hold()
    ensures { RulesHold }
{
    nodes_are_steps();
    items_are_valid();
    parts_start();
    jumps_fit();
    scopes_hold();
    types_hold();
    constants_hold();
    cases_differ();
    names_differ();
    labels_are_below();
    handles_are_below();
    adaptive_permits();
    base_permits();
    base_keeps_order();
    calls_agree();
    measurements_are_named();
    numbers_are_small();
    jumps_lead_on();
    lowered_modules_are_printable();
}

/// The lowered program of an admitted module is valid for its target.
pub fn lowered_programs_are_valid()
    ensures { LoweredIsValid }
{
    steps_keep_configurations();
    rules_hold();
}

/// The module of it passes the profile, and behaves as the source does under one injective naming.
pub fn lowered_modules_are_sound()
    ensures { LoweredIsSound }
{
    steps_keep_configurations();
    rules_hold();
    adaptive_lowering_keeps_behaviour();
    base_lowering_keeps_behaviour();
    printed_is_numbered();
    printed_is_typed();
    printed_passes();
    admitted_modules_run();
    admitted_modules_are_kept_apart();
    lowered_modules_have_few_instructions();
    lowered_modules_have_few_phis();
}
