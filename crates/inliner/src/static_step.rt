//! The static step.
ghost use Rattle.std.specs.Prelude.{◌≡◌, map, IfOk};
ghost use Rattle.ir_module.specs.Classes.{class_of_function};
ghost use Rattle.ir_module.specs.Steps.{step_in_module};
ghost use Rattle.static_steps.specs.Steps.{static_step, step_turn};
ghost use Rattle.step_parts.specs.Lives.{lives};
ghost use Rattle.step_parts.specs.code.Scenes.{at};

use crate::instructions::instruction;
use crate::terminators::terminator;
use ir_module::Module;
use ir_values::{Class, Memory};
use kept_items::Target;
use name_flow::Flow;
use static_steps::{Config, Turn};
use std::alloc::Global;
use step_parts::{Found, Scene, standing};

#[tactic(auto, using(crate::proofs::Called::neither_lost))]
fn step_of(s: &Scene<'_>) -> Result<Turn, Memory>
    ensures { IfOk result (λ turn. turn ≡ step_turn (at s.now) (step_in_module (at s.now).m (at s.now).w.top.at)) }
{
    match standing(s.module, s.given.top.at) {
        Found::Inst(inst) => instruction(s, inst),
        Found::Term(term) => terminator(s, term),
        Found::Nothing => Ok(Turn::Lost),
    }
}

/// What one instruction does, by the values that are known: the configurations to which it leads in the
/// order of the edges, an exit, or why it can't be lowered. `flows` are the flows of the functions with a
/// body, and `classes` the classes of the functions.
///
/// [`Memory`] comes also where a `u64` can't count the Dynamic names, the allocations, the returned
/// results or the points of a block.
#[tactic(auto, using(crate::proofs::Called::whole))]
pub fn step(
    alloc: Global,
    m: &Module,
    flows: &[Option<Flow>],
    classes: &[Option<Class>],
    target: Target,
    g: &Config,
) -> Result<Turn, Memory>
    requires { classes.now ≡ map class_of_function m.now.funcs }
    ensures { IfOk result (λ turn. turn ≡ static_step m.now target (lives flows.now) g.now) }
{
    let scene = Scene::new(alloc, m, flows, classes, target, g)?;
    step_of(&scene)
}
