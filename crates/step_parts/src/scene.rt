//! What a step looks at.
ghost use Rattle.std.specs.Prelude.{◌≡◌, Some, map, IfOk};
ghost use Rattle.ir_module.specs.Classes.{class_of_function};
ghost use Rattle.step_parts.specs.Lives.{flow_lives};

use crate::counts::{count, count_frames};
use crate::names::look;
use ir_module::{Function, Module, Operand, Point};
use ir_values::{Class, Copies, FuncId, LocalId, Memory, Seq, Ty, Value};
use kept_items::{Dyn, Target, Val};
use name_flow::Flow;
use static_steps::Config;
use std::alloc::Global;

/// What a step looks at: the module, the flows of its functions with a body, the classes of its
/// functions, the target, and the configuration with the number of its top frame's first Dynamic name and
/// the number of the value that the step gives.
#[derive(Drop)]
pub struct Scene<'a> {
    pub alloc: Global,
    pub module: &'a Module,
    pub flows: &'a [Option<Flow>],
    pub classes: &'a [Option<Class>],
    pub target: Target,
    pub given: &'a Config,
    pub first: u64,
    pub fresh: Dyn,
    pub ghost classified: { classes.now ≡ map class_of_function «module».now.funcs },
}

/// The class of each function of a module, as it would have if it were declared.
pub fn classes_of(alloc: Global, functions: &[Function]) -> Result<Seq<Option<Class>>, Memory>
    ensures { IfOk result (λ classes. classes ≡ map class_of_function functions.now) }
{
    let mut classes = Seq::new(alloc);
    let mut rest = functions;
    while let [f, tail @ ..] = rest {
        classes.push(f.class(alloc)?)?;
        rest = tail;
    }
    Ok(classes)
}

/// Whether a local name is live at a point, by the flow of its function.
fn is_live_by(flow: &Option<Flow>, p: Point, x: LocalId) -> bool
    ensures { result ≡ flow_lives (Some flow.now) p x }
{
    match flow {
        Some(flow) => flow.live_at(p, x),
        None => false,
    }
}

impl<'a> Scene<'a> {
    ghost use Rattle.std.specs.Prelude.{◌≡◌, Some, map, slice_get, IfOk};
    ghost use Rattle.ir_module.specs.Classes.{class_of_function};
    ghost use Rattle.static_steps.specs.Settings.{next_here};
    ghost use Rattle.static_steps.specs.Steps.{setting_of};
    ghost use Rattle.static_steps.specs.Values as vals;
    ghost use Rattle.step_parts.specs.Lives.{lives};
    ghost use Rattle.step_parts.specs.code.Scenes.{at};

    /// What a step of a configuration looks at. [`Memory`] comes where a `u64` can't count its Dynamic
    /// names.
    pub fn new(
        alloc: Global,
        m: &'a Module,
        flows: &'a [Option<Flow>],
        classes: &'a [Option<Class>],
        target: Target,
        given: &'a Config,
    ) -> Result<Scene<'a>, Memory>
        requires { classes.now ≡ map class_of_function m.now.funcs }
        ensures { IfOk result (λ s. at s ≡ setting_of m.now target (lives flows.now) given.now) }
    {
        let first = count_frames(given.below.as_slice())?;
        let own = count(given.top.names.as_slice())?;
        let fresh = Dyn(first.checked_add(own).ok_or(Memory)?);
        Ok(Scene {
            alloc,
            module: m,
            flows,
            classes,
            target,
            given,
            first,
            fresh,
        })
    }

    /// Whether a local name is live at a point. It takes no memory.
    pub fn is_live(&self, p: Point, x: LocalId) -> bool
        ensures { result ≡ lives self.now.flows.now p x }
    {
        match self.flows.get(p.func.0 as usize) {
            Some(flow) => is_live_by(flow, p, x),
            None => false,
        }
    }

    /// The class of the function `f` of the module, whose number is `g`. It takes no memory.
    #[tactic(auto, using(crate::proofs::Classes::class_at))]
    pub fn class_of(&self, g: FuncId, f: &Function) -> Option<Class>
        requires { slice_get self.now.module.now.funcs g.0 ≡ Some f.now }
        ensures { result ≡ class_of_function f.now }
    {
        match self.classes.get(g.0 as usize) {
            Some(class) => *class,
            None => unreachable!(),
        }
    }

    /// The value of an operand, where it has one.
    pub fn val(&self, a: &Operand) -> Result<Option<Val>, Memory>
        ensures { IfOk result (λ o. o ≡ vals.val_of (at self.now).w.top.names a.now) }
    {
        match a {
            Operand::Const(v) => Ok(Some(Val::Known(v.copy(self.alloc)?))),
            Operand::Local(x) => self.look(*x),
        }
    }

    /// The value of a local name of the top frame, where it has one.
    pub fn look(&self, x: LocalId) -> Result<Option<Val>, Memory>
        ensures { IfOk result (λ o. o ≡ vals.look x (at self.now).w.top.names) }
    {
        look(self.alloc, self.first, self.given.top.names.as_slice(), x)
    }

    /// The values of arguments, where each has one.
    #[tactic(auto, using(crate::proofs::Ahead::ahead_val))]
    pub fn arg_vals(&self, args: &[(Ty, Operand)]) -> Result<Option<Seq<Val>>, Memory>
        ensures { IfOk result (λ o. o ≡ vals.vals_of (at self.now).w.top.names (map (λ a. a.1) args.now)) }
    {
        let mut out = Seq::new(self.alloc);
        let mut rest = args;
        while let [a, tail @ ..] = rest {
            match self.val(&a.1)? {
                Some(v) => out.push(v)?,
                None => return Ok(None),
            }
            rest = tail;
        }
        Ok(Some(out))
    }

    /// The next point. [`Memory`] comes where a `u64` can't count it.
    pub fn next_point(&self) -> Result<Point, Memory>
        ensures { IfOk result (λ p. p ≡ next_here (at self.now)) }
    {
        let at = self.given.top.at;
        Ok(Point {
            index: at.index.checked_add(1).ok_or(Memory)?,
            ..at
        })
    }
}
