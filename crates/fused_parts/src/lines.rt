//! The lines that are left of a configuration.
ghost use Rattle.std.specs.Prelude.{◌≡◌, ◌++◌, slice_get, OnOk};
ghost use Rattle.fused_parts.specs.Parts.{first_of, freed, item_line, let_go, lines_of, made, marks_to};
ghost use Rattle.fused_parts.specs.Nodes.{item_of};

use crate::numbers::Numbers;
use ir_values::{Memory, Seq};
use residue::{Line, Lines};
use static_steps::Config;
use std::alloc::Global;
use unroller::{Node, Outcome};

/// The first allocation that is held before and not after. Both are in increasing order.
fn let_go(before: &[u64], after: &[u64]) -> Option<u64>
    ensures { result ≡ let_go before.now after.now }
{
    let mut before = before;
    let mut after = after;
    while let [held, before_rest @ ..] = before {
        let [still, after_rest @ ..] = after else {
            return Some(*held);
        };
        if held != still {
            return Some(*held);
        }
        before = before_rest;
        after = after_rest;
    }
    None
}

/// Adds the marks of an allocation that begins or ends between two configurations.
fn push_marks(lines: &mut Lines, before: &Config, after: &Config) -> Result<(), Memory>
    ensures { OnOk result (lines.new ≡ lines.old ++ (made before.now.allocated after.now.allocated ++ freed (let_go before.now.held after.now.held))) }
{
    if before.allocated < after.allocated {
        lines.push(Line::Made(before.allocated))?;
    }
    if let Some(allocation) = let_go(before.held.as_slice(), after.held.as_slice()) {
        lines.push(Line::Freed(allocation))?;
    }
    Ok(())
}

/// Adds the line of an item.
fn push_item(
    alloc: Global,
    lines: &mut Lines,
    outcome: &Outcome,
    numbers: &Numbers,
) -> Result<(), Memory>
    ensures { OnOk result (lines.new ≡ lines.old ++ item_line (item_of outcome.now) numbers.now) }
{
    match outcome {
        Outcome::Goes(Some(item), _) => {
            lines.push(Line::Item(numbers.item(alloc, item)?))?;
            Ok(())
        }
        Outcome::Goes(None, _) => Ok(()),
        Outcome::Exits(_) => Ok(()),
    }
}

/// Adds the marks between a configuration and the one of this number, if there is one.
fn push_marks_to(lines: &mut Lines, nodes: &Seq<Node>, node: &Node, to: usize) -> Result<(), Memory>
    ensures { OnOk result (lines.new ≡ lines.old ++ marks_to node.now.node (slice_get nodes.now to)) }
{
    if to >= nodes.len() {
        return Ok(());
    }
    push_marks(lines, &node.node, &nodes.at(to).node)
}

/// Adds the marks between a configuration and the one that its first edge leads to.
fn push_marks_behind(lines: &mut Lines, nodes: &Seq<Node>, node: &Node) -> Result<(), Memory>
    ensures { OnOk result (lines.new ≡ lines.old ++ marks_to node.now.node (first_of nodes.now node.now.links)) }
{
    if node.links.is_empty() {
        return Ok(());
    }
    push_marks_to(lines, nodes, node, node.links.at(0).to)
}

/// Adds what is left of a configuration: the line of its item, and the marks between it and the one that its
/// first edge leads to.
pub fn push_lines(
    alloc: Global,
    lines: &mut Lines,
    nodes: &Seq<Node>,
    node: &Node,
    numbers: &Numbers,
) -> Result<(), Memory>
    ensures { OnOk result (lines.new ≡ lines.old ++ lines_of nodes.now node.now numbers.now) }
{
    push_item(alloc, lines, &node.item, numbers)?;
    push_marks_behind(lines, nodes, node)
}
