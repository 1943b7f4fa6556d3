//! The walk over all configurations of a program.
ghost use Rattle.std.specs.Prelude.{◌≡◌, map, IfOk, IfErr};
ghost use Rattle.path_search.specs.Explored.{Explored};
ghost use Rattle.path_search.specs.code.Steps.{target, label};
ghost use Rattle.static_steps.specs.Steps.{start_of};
ghost use Rattle.unroller.specs.Programs.{Carries, IsReachedBy, step_of, turn_of, search_of};
ghost use Rattle.unroller.specs.Refusals.{IfRefused, IsRefused, kind_of};

use crate::node::{Node, Outcome};
use crate::steps::StaticSteps;
use ir_module::Point;
use ir_values::{Memory, Seq};
use kept_items::{Dyns, Kind};
use path_search::{Edge, Graph, Limits, Reason, Step, Stop};
use static_steps::{Config, Moves, Turn};
use std::alloc::Global;

/// Why a program is not lowered.
#[derive(Debug, Drop)]
pub enum LowerStop {
    /// The instruction at this point can't be lowered, for a reason of this kind. It is the first such
    /// instruction in path order.
    Refused { at: Point, kind: Kind },
    /// There was no memory. It says nothing of the program.
    Memory,
}

/// The graph of configurations that static steps span.
#[derive(Drop)]
struct Unfolding<'a, S> {
    steps: &'a S,
}

/// The moves as edges.
fn edges_of(alloc: Global, moves: Moves) -> Result<Seq<Edge<Config, Dyns>>, Memory>
    ensures targets { IfOk result (λ edges. map target edges ≡ map (λ mv. mv.to) moves) }
    ensures labels { IfOk result (λ edges. map label edges ≡ map (λ mv. mv.args) moves) }
{
    let mut edges = Vec::with_capacity(alloc, moves.len())?;
    for step in moves.into_vec() {
        edges.push(Edge {
            to: step.to,
            label: step.args,
        })?;
    }
    Ok(Seq::from_vec(edges))
}

impl<'a, S: StaticSteps> Graph for Unfolding<'a, S> {
    type Node = Config;

    type Kind = Kind;

    type Data = Outcome;

    type Label = Dyns;

    ghost start = { λ u. start_of (S.program u.steps.now).entry };

    ghost turn = { λ u g. turn_of (step_of (S.program u.steps.now) g) };

    ghost IsValid = { λ u depth g. IsReachedBy (S.program u.steps.now) depth g };

    ghost Carries = { λ u g d labels. Carries (S.program u.steps.now) g d labels };

    fn start(&self, alloc: Global) -> Result<Config, Memory> {
        Ok(Config::start(alloc, self.steps.entry()))
    }

    fn step(
        &self,
        alloc: Global,
        node: &Config,
    ) -> Result<Step<Config, Kind, Outcome, Dyns>, Memory> {
        match self.steps.step(alloc, node)? {
            Turn::Goes(moves, item, choice) => Ok(Step::Next {
                data: Outcome::Goes(item, choice),
                edges: edges_of(alloc, moves)?,
            }),
            Turn::Exits(code) => Ok(Step::Next {
                data: Outcome::Exits(code),
                edges: Seq::new(alloc),
            }),
            Turn::Bad(kind) => Ok(Step::Bad(kind)),
            Turn::Lost => unreachable!(),
        }
    }
}

/// The kind of a refusal, by the reason that a search gives.
fn kind_of(reason: Reason<Kind>) -> Kind
    ensures { result ≡ kind_of reason }
{
    match reason {
        Reason::OverBudget => Kind::Budget,
        Reason::BadNode(kind) => kind,
        Reason::LeadsBack => Kind::Loop,
    }
}

/// All configurations that constant evaluation reaches, in path order, with the outcomes of their steps and
/// links to their successors. There are such exactly where these are at most `budget`, none is refused, and, for
/// targets without `loops`, none leads back to a path to it. Otherwise the first in path order that is not so
/// decides. [`LowerStop::Memory`] says nothing of the program.
pub fn explore<S: StaticSteps>(
    alloc: Global,
    steps: &S,
    budget: u32,
) -> Result<Seq<Node>, LowerStop>
    ensures accepted { IfOk result
        (Explored (search_of (S.program steps.now) budget) (Carries (S.program steps.now))) }
    ensures refused { IfErr result (λ stop. IfRefused stop (IsRefused (S.program steps.now) budget)) }
{
    let limits = Limits {
        budget: budget as usize,
        loops: steps.target().has_loops(),
    };
    match path_search::explore(alloc, &Unfolding { steps }, limits) {
        Ok(nodes) => Ok(nodes),
        Err(Stop::Refused { at, reason }) => Err(LowerStop::Refused {
            at: at.top(),
            kind: kind_of(reason),
        }),
        Err(Stop::Memory) => Err(LowerStop::Memory),
    }
}
