//! The list of nodes, from the tables of a visit.
ghost use Rattle.std.specs.Prelude.{◌≡◌, ℕ, Some, IfOk, slice_get};
ghost use Rattle.path_search.specs.code.Assembly.{HaveNumbers, Renumbers, IsWhole, AreFrom};

use crate::node::Visited;
use crate::visit::{Found, Link, Mark, Visit};
use ir_values::{Exact, Memory, Seq};
use std::alloc::Global;
use std::hash::Hash;

/// The links with the numbers of nodes in place of their indices.
pub fn renumbered<E: Drop>(
    alloc: Global,
    marks: &Seq<Mark>,
    links: Seq<Link<E>>,
) -> Result<Seq<Link<E>>, Memory>
    requires { HaveNumbers marks.now links }
    ensures { IfOk result (Renumbers marks.now links) }
{
    let mut out = Vec::with_capacity(alloc, links.len())?;
    for link in links.into_vec() {
        let Link { to, label } = link;
        let to = marks.at(to).number();
        out.push(Link { to, label })?;
    }
    Ok(Seq::from_vec(out))
}

/// Takes a node out of its slot.
fn take_from<N: Drop>(slots: &mut Vec<Option<N>>, index: usize) -> N
    requires { (h : N) × (slice_get slots.old.items index ≡ Some (Some h)) }
    ensures taken { slice_get slots.old.items index ≡ Some (Some result) }
    ensures others { (i : ℕ) → (i ≡ index → ⊥) → slice_get slots.new.items i ≡ slice_get slots.old.items i }
{
    let Some(node) = slots[index].take() else {
        unreachable!();
    };
    node
}

/// The nodes that were entered, in path order, with their links by number.
pub fn assembled<N: Exact + Hash + Drop, D: Drop, E: Drop>(
    alloc: Global,
    visit: Visit<N, D, E>,
) -> Result<Seq<Visited<N, D, E>>, Memory>
    requires { IsWhole visit.table visit.marks visit.found }
    ensures { IfOk result (AreFrom visit.table visit.marks visit.found) }
{
    let Visit {
        table,
        marks,
        found,
        stack: _,
    } = visit;
    let mut slots = table.into_nodes(alloc)?;
    let mut nodes = Vec::with_capacity(alloc, found.len())?;
    for entered in found.into_vec() {
        let Found { index, item, links } = entered;
        let links = renumbered(alloc, &marks, links)?;
        let node = take_from(&mut slots, index);
        nodes.push(Visited { node, item, links })?;
    }
    Ok(Seq::from_vec(nodes))
}
