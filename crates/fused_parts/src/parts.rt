//! The parts, along the configurations in path order.
ghost use Rattle.std.specs.Prelude.{◌≡◌, ◌+◌, [], ◌∷◌, ◌++◌, IfOk, OnOk};
ghost use Rattle.static_steps.specs.Works.{dynamics_of};
ghost use Rattle.fused_parts.specs.Nodes.{widths_of};
ghost use Rattle.fused_parts.specs.Parts as spec;
ghost use Rattle.fused_parts.specs.Parts.{in_row, no_numbers, next_numbers, outcome_tail, rest_from, shared_part, whole, with_widths};
ghost use Rattle.fused_parts.specs.Ranks.{part_number};
ghost use Rattle.fused_parts.specs.code.Making.{added, passed, with_rest};

use crate::layout::Layout;
use crate::lines::push_lines;
use crate::numbers::Numbers;
use crate::tails::{nowhere, outcome_tail};
use crate::widths::widths_of;
use ir_module::Module;
use ir_values::{Memory, Seq};
use residue::{Lines, Params, Part, Parts};
use std::alloc::Global;
use unroller::Node;

/// Parts in the making: those that are whole, and of the one that goes on the parameters, the lines so far, and the
/// numbers of the configuration that comes next.
#[derive(Drop)]
pub struct Making {
    pub parts: Parts,
    pub params: Params,
    pub lines: Lines,
    pub numbers: Numbers,
}

/// What parts are made of: the reachable configurations of a module, how they are divided, and the number of the part
/// that exits share, if they do.
#[derive(Clone, Copy)]
pub struct Source<'a> {
    pub m: &'a Module,
    pub nodes: &'a Seq<Node>,
    pub layout: &'a Layout,
    pub shared: Option<u32>,
}

/// The first part, of which nothing is made.
fn nothing_made(alloc: Global) -> Making
    ensures { result ≡ record { parts = []; params = []; lines = []; numbers = no_numbers } }
{
    Making {
        parts: Seq::new(alloc),
        params: Seq::new(alloc),
        lines: Seq::new(alloc),
        numbers: Numbers::none(alloc),
    }
}

impl Source<'_> {
    /// With what is left of a configuration.
    fn added(&self, alloc: Global, making: Making, node: &Node) -> Result<Making, Memory>
        ensures { IfOk result (λ s. s ≡ added self.now.nodes.now node.now making) }
    {
        let mut making = making;
        push_lines(alloc, &mut making.lines, self.nodes, node, &making.numbers)?;
        making.numbers.pass(node)?;
        Ok(making)
    }

    /// The parts that are whole, where the one that goes on ends behind a configuration.
    fn ended(&self, alloc: Global, making: Making, node: &Node) -> Result<(Parts, Numbers), Memory>
        ensures parts { IfOk result (λ r. r.0 ≡ making.parts ++ (record {
          params = making.params;
          lines = making.lines;
          tail = outcome_tail (part_number self.now.layout.now) self.now.shared making.numbers.mine node.now.item node.now.links;
        }) ∷ []) }
        ensures numbers { IfOk result (λ r. r.1 ≡ making.numbers) }
    {
        let mine = &making.numbers;
        let tail = outcome_tail(
            alloc,
            self.layout,
            self.shared,
            mine,
            &node.item,
            &node.links,
        )?;
        let Making {
            mut parts,
            params,
            lines,
            numbers,
        } = making;
        parts.push(Part {
            params,
            lines,
            tail,
        })?;
        Ok((parts, numbers))
    }

    /// A part more, which begins at a configuration. No value has a number below `first`.
    fn begun(&self, alloc: Global, parts: Parts, first: u64, next: &Node) -> Result<Making, Memory>
        ensures { IfOk result (λ s. s ≡ record {
          parts = parts;
          params = with_widths (in_row first (dynamics_of next.now.node)) (widths_of self.now.m.now next.now.node);
          lines = [];
          numbers = record { free = first + dynamics_of next.now.node; mine = in_row first (dynamics_of next.now.node) };
        }) }
    {
        let widths = widths_of(alloc, self.m, &next.node)?;
        let (numbers, params) = Numbers::begin(alloc, first, widths.as_slice())?;
        Ok(Making {
            parts,
            params,
            lines: Seq::new(alloc),
            numbers,
        })
    }

    /// Behind a configuration, where the next one goes on in its part (`on`) or begins another.
    fn passed(
        &self,
        alloc: Global,
        making: Making,
        node: &Node,
        on: bool,
        next: &Node,
    ) -> Result<Making, Memory>
        ensures { IfOk result (λ s. s ≡
            passed self.now.m.now self.now.nodes.now (part_number self.now.layout.now) self.now.shared
            node.now on next.now making) }
    {
        let mut making = self.added(alloc, making, node)?;
        if on {
            making.numbers.go_on(alloc, node.links.as_slice())?;
            Ok(making)
        } else {
            let (parts, numbers) = self.ended(alloc, making, node)?;
            self.begun(alloc, parts, numbers.free, next)
        }
    }

    /// The parts, where this configuration is the last.
    fn finished(&self, alloc: Global, making: Making, node: &Node) -> Result<Parts, Memory>
        ensures { IfOk result (λ parts. parts ≡ with_rest making
            (spec.alone self.now.m.now self.now.nodes.now (part_number self.now.layout.now) self.now.shared
            node.now making.numbers)) }
    {
        let making = self.added(alloc, making, node)?;
        let (parts, _) = self.ended(alloc, making, node)?;
        Ok(parts)
    }

    /// The parts, where these configurations are left.
    fn walk(&self, alloc: Global, first: &Node, rest: &[Node]) -> Result<Parts, Memory>
        ensures { IfOk result (λ parts. parts ≡ whole
            (rest_from self.now.m.now self.now.nodes.now (part_number self.now.layout.now) self.now.shared
            (first.now ∷ rest.now) self.now.layout.now no_numbers)) }
    {
        let mut making = nothing_made(alloc);
        let mut node = first;
        let mut rest = rest;
        let mut flags = self.layout.flags();
        while let [next, behind @ ..] = rest {
            let [on, later @ ..] = flags else {
                return self.finished(alloc, making, node);
            };
            making = self.passed(alloc, making, node, *on, next)?;
            node = next;
            rest = behind;
            flags = later;
        }
        self.finished(alloc, making, node)
    }

    /// The parts without one that exits share.
    fn own_parts(&self, alloc: Global) -> Result<Parts, Memory>
        ensures { IfOk result (λ parts. parts ≡ whole
            (rest_from self.now.m.now self.now.nodes.now (part_number self.now.layout.now) self.now.shared
            self.now.nodes.now self.now.layout.now no_numbers)) }
    {
        match self.nodes.as_slice() {
            [first, rest @ ..] => self.walk(alloc, first, rest),
            [] => {
                let mut parts = Seq::new(alloc);
                parts.push(Part {
                    params: Seq::new(alloc),
                    lines: Seq::new(alloc),
                    tail: nowhere(),
                })?;
                Ok(parts)
            }
        }
    }
}

/// Adds the part that exits share, if they do.
fn push_shared(alloc: Global, parts: &mut Parts, shared: Option<u32>) -> Result<(), Memory>
    ensures { OnOk result (parts.new ≡ parts.old ++ shared_part shared) }
{
    match shared {
        None => Ok(()),
        Some(_) => parts.push(Part {
            params: Seq::new(alloc),
            lines: Seq::new(alloc),
            tail: nowhere(),
        }),
    }
}

/// The parts of a lowered program: what is left of each reachable configuration, the next one in its part where its
/// flag in the layout says so, and behind them the part that exits share, if they do. [`Memory`] also comes where the
/// numbers of Dynamic values would pass 2^64.
pub fn parts_of(alloc: Global, source: &Source<'_>) -> Result<Parts, Memory>
    ensures { IfOk result (λ parts. parts ≡
        spec.parts_of source.now.m.now (part_number source.now.layout.now) source.now.shared
        source.now.nodes.now source.now.layout.now) }
{
    let mut parts = source.own_parts(alloc)?;
    push_shared(alloc, &mut parts, source.shared)?;
    Ok(parts)
}
