//! The state of a visit, and its moves.
ghost use Rattle.std.specs.Prelude.{◌≡◌, ℕ, suc, ◌+◌, ◌<◌, ◌≤◌, ◌^◌, ◌⊎◌, List, [], ◌∷◌, ◌++◌, length, IsTrue, IsFalse, IfOk, OnOk, IfNone, IfSome, Some, slice_get};
ghost use Rattle.path_search.specs.code.Steps.{search};
ghost use Rattle.path_search.specs.code.Visit.{IsOnce, Grows, AreLinks, LeadsToOpen, IsVisit, Reaches, Keeps, IsRefused, IsDone, IsFollowed, next_frame, number_of, work};
ghost use Rattle.path_search.specs.declared.visit.Link.{Link};
ghost use Rattle.path_search.specs.declared.visit.Frame.{Frame};
ghost use Rattle.path_search.specs.declared.visit.Mark.TheVariants.{Seen, Open};
ghost use Rattle.path_search.specs.code.Answers.{IfOn, IfNew, IfDone};

use crate::graph::{Edge, Graph, Step};
use crate::limits::Limits;
use crate::reason::Reason;
use crate::table::Table;
use ir_values::{Exact, Memory, Seq};
use std::alloc::Global;
use std::hash::Hash;

/// A link from a node, with the label that its edge carries.
#[derive(Debug, Drop)]
pub struct Link<E> {
    /// The node that it leads to.
    pub to: usize,
    /// What the edge carries.
    pub label: E,
}

/// How far the visit is with a node of the table.
#[derive(Clone, Copy)]
pub enum Mark {
    /// It was seen as a successor.
    Seen,
    /// It was entered and has this number, and lies on the path.
    Open(usize),
    /// It was entered and has this number, and was left.
    Left(usize),
}

impl Mark {
    /// Whether the node was only seen.
    pub fn is_seen(self) -> bool
        ensures yes { IsTrue result → self ≡ Seen }
        ensures no { IsFalse result → self ≡ Seen → ⊥ }
    {
        matches!(self, Mark::Seen)
    }

    /// Whether the node lies on the path.
    pub fn is_open(self) -> bool
        ensures yes { IsTrue result → (n : ℕ) × (self ≡ Open n) }
        ensures no { IsFalse result → (n : ℕ) → self ≡ Open n → ⊥ }
    {
        matches!(self, Mark::Open(_))
    }

    /// The number of the node in path order. It was entered.
    pub fn number(self) -> usize
        requires { (n : ℕ) × (number_of self ≡ Some n) }
        ensures { number_of self ≡ Some result }
    {
        match self {
            Mark::Seen => unreachable!(),
            Mark::Open(number) => number,
            Mark::Left(number) => number,
        }
    }
}

/// A node that was entered: its index in the table, what it carries, and its links by index.
#[derive(Drop)]
pub struct Found<D, E> {
    pub index: usize,
    pub item: D,
    pub links: Seq<Link<E>>,
}

/// A node on the path: its number, and the choice that is followed from it.
#[derive(Clone, Copy)]
pub struct Frame {
    pub number: usize,
    pub choice: usize,
}

/// The nodes that were seen, with a mark each, those that were entered, in path order, and the path.
#[derive(Drop)]
pub struct Visit<N: Eq + Hash, D, E> {
    pub table: Table<N>,
    pub marks: Seq<Mark>,
    pub found: Seq<Found<D, E>>,
    pub stack: Seq<Frame>,
}

/// A move of the visit.
#[derive(Clone, Copy)]
pub enum Move {
    /// An edge led to a node that was entered before, or a node was left.
    On,
    /// An edge leads to the node of this index, which was not entered.
    New(usize),
    /// The first node was left.
    Done,
}

/// A graph that is searched, and what is permitted of it.
#[derive(Drop)]
pub struct Explorer<'a, G> {
    pub graph: &'a G,
    pub limits: Limits,
}

/// The index of a node. One that was not seen before is added, with its mark.
pub fn index_of_node<N: Exact + Hash + Drop>(
    table: &mut Table<N>,
    marks: &mut Seq<Mark>,
    node: N,
) -> Result<usize, Memory>
    requires once { IsOnce table.old }
    requires size { length marks.old ≡ length table.old }
    ensures at { IfOk result (λ i. slice_get table.new i ≡ Some node) }
    ensures grows { OnOk result (Grows table.old table.new marks.old marks.new) }
    ensures among { OnOk result ((i : ℕ) (h : N) → slice_get table.new i ≡ Some h → slice_get table.old i ≡ Some h ⊎ (h ≡ node)) }
{
    let index = table.index_of(node)?;
    if index == marks.len() {
        marks.push(Mark::Seen)?;
    }
    Ok(index)
}

/// The links of edges.
pub fn linked<N: Exact + Hash + Drop, E: Drop>(
    alloc: Global,
    table: &mut Table<N>,
    marks: &mut Seq<Mark>,
    edges: Seq<Edge<N, E>>,
) -> Result<Seq<Link<E>>, Memory>
    requires once { IsOnce table.old }
    requires size { length marks.old ≡ length table.old }
    ensures grows { OnOk result (Grows table.old table.new marks.old marks.new) }
    ensures links { IfOk result (AreLinks table.old table.new edges) }
    ensures small { IfOk result (λ links. length links < 2 ^ 64) }
{
    let mut links = Vec::with_capacity(alloc, edges.len())?;
    for edge in edges.into_vec() {
        let Edge { to, label } = edge;
        let to = index_of_node(table, marks, to)?;
        links.push(Link { to, label })?;
    }
    Ok(Seq::from_vec(links))
}

/// Whether a link leads to a node on the path.
pub fn leads_back<E>(marks: &Seq<Mark>, links: &[Link<E>]) -> bool
    requires { (j : ℕ) (l : Link E) → slice_get links.now j ≡ Some l → l.to < length marks.now }
    ensures back { IsTrue result → LeadsToOpen marks.now links.now }
    ensures clear { IsFalse result → LeadsToOpen marks.now links.now → ⊥ }
{
    for link in links {
        if marks.at(link.to).is_open() {
            return true;
        }
    }
    false
}

/// Goes on to the next choice at the last node of the path.
pub fn next_choice(stack: &mut Seq<Frame>)
    requires inside { 0 < length stack.old }
    requires room { (lower : List Frame) (top : Frame) → stack.old ≡ lower ++ top ∷ [] → top.choice + 1 < 2 ^ 64 }
    ensures next { (lower : List Frame) (top : Frame) → stack.old ≡ lower ++ top ∷ [] → stack.new ≡ lower ++ next_frame top ∷ [] }
{
    let last = stack.len() - 1;
    let top = *stack.at(last);
    stack.set(
        last,
        Frame {
            number: top.number,
            choice: top.choice + 1,
        },
    );
}

impl<'a, G: Graph> Explorer<'a, G> {
    /// Enters the node of an index, to which the path leads, or answers why it is not permitted.
    pub fn enter(
        &self,
        alloc: Global,
        visit: &mut Visit<G::Node, G::Data, G::Label>,
        index: usize,
    ) -> Result<Option<Reason<G::Kind>>, Memory>
        requires visit { let s = search (G.start self.now.graph.now) (G.turn self.now.graph.now) self.now.limits in
            IsVisit s visit.old.table visit.old.marks visit.old.found visit.old.stack }
        requires reaches { let s = search (G.start self.now.graph.now) (G.turn self.now.graph.now) self.now.limits in
            Reaches s visit.old.table visit.old.marks visit.old.stack index }
        requires keeps { Keeps (G.IsValid self.now.graph.now) (G.Carries self.now.graph.now) visit.old.table visit.old.found }
        ensures entered { IfOk result (λ r. IfNone r (let s = search (G.start self.now.graph.now) (G.turn self.now.graph.now) self.now.limits in
            IsVisit s visit.new.table visit.new.marks visit.new.found visit.new.stack)) }
        ensures keeps { IfOk result (λ r. IfNone r
            (Keeps (G.IsValid self.now.graph.now) (G.Carries self.now.graph.now) visit.new.table visit.new.found)) }
        ensures inside { IfOk result (λ r. IfNone r (0 < length visit.new.stack)) }
        ensures longer { IfOk result (λ r. IfNone r (length visit.new.found ≡ suc (length visit.old.found))) }
        ensures refused { IfOk result (λ r. IfSome r (let s = search (G.start self.now.graph.now) (G.turn self.now.graph.now) self.now.limits in
            IsRefused s visit.new.table index)) }
    {
        if visit.found.len() == self.limits.budget {
            return Ok(Some(Reason::OverBudget));
        }
        let (item, edges) = match self.graph.step(alloc, visit.table.at(index))? {
            Step::Next { data, edges } => (data, edges),
            Step::Bad(kind) => return Ok(Some(Reason::BadNode(kind))),
        };
        let links = linked(alloc, &mut visit.table, &mut visit.marks, edges)?;
        let number = visit.found.len();
        visit.marks.set(index, Mark::Open(number));
        if !self.limits.loops && leads_back(&visit.marks, links.as_slice()) {
            return Ok(Some(Reason::LeadsBack));
        }
        visit.found.push(Found { index, item, links })?;
        visit.stack.push(Frame { number, choice: 0 })?;
        Ok(None)
    }

    /// Leaves the last node of the path, whose edges are all followed, for the next choice at the node below.
    pub fn leave(&self, visit: &mut Visit<G::Node, G::Data, G::Label>) -> Move
        requires visit { let s = search (G.start self.now.graph.now) (G.turn self.now.graph.now) self.now.limits in
            IsVisit s visit.old.table visit.old.marks visit.old.found visit.old.stack }
        requires inside { 0 < length visit.old.stack }
        requires all { IsFollowed visit.old.found visit.old.stack }
        ensures same { (visit.new.table ≡ visit.old.table) × (visit.new.found ≡ visit.old.found) }
        ensures on { IfOn result (let s = search (G.start self.now.graph.now) (G.turn self.now.graph.now) self.now.limits in
            IsVisit s visit.new.table visit.new.marks visit.new.found visit.new.stack) }
        ensures inside { IfOn result (0 < length visit.new.stack) }
        ensures less { IfOn result (work visit.new.found visit.new.stack < work visit.old.found visit.old.stack) }
        ensures done { IfDone result (let s = search (G.start self.now.graph.now) (G.turn self.now.graph.now) self.now.limits in
            IsDone s visit.new.table visit.new.marks visit.new.found) }
        ensures old { IfNew result (λ i. ⊥) }
    {
        let Some(top) = visit.stack.pop() else {
            unreachable!();
        };
        let index = visit.found.at(top.number).index;
        visit.marks.set(index, Mark::Left(top.number));
        if visit.stack.is_empty() {
            return Move::Done;
        }
        next_choice(&mut visit.stack);
        Move::On
    }

    /// Follows the next edge of the last node of the path, or leaves the node where there is none.
    pub fn advance(&self, visit: &mut Visit<G::Node, G::Data, G::Label>) -> Move
        requires visit { let s = search (G.start self.now.graph.now) (G.turn self.now.graph.now) self.now.limits in
            IsVisit s visit.old.table visit.old.marks visit.old.found visit.old.stack }
        requires inside { 0 < length visit.old.stack }
        ensures same { (visit.new.table ≡ visit.old.table) × (visit.new.found ≡ visit.old.found) }
        ensures on { IfOn result (let s = search (G.start self.now.graph.now) (G.turn self.now.graph.now) self.now.limits in
            IsVisit s visit.new.table visit.new.marks visit.new.found visit.new.stack) }
        ensures inside { IfOn result (0 < length visit.new.stack) }
        ensures less { IfOn result (work visit.new.found visit.new.stack < work visit.old.found visit.old.stack) }
        ensures done { IfDone result (let s = search (G.start self.now.graph.now) (G.turn self.now.graph.now) self.now.limits in
            IsDone s visit.new.table visit.new.marks visit.new.found) }
        ensures new { IfNew result (λ i. let s = search (G.start self.now.graph.now) (G.turn self.now.graph.now) self.now.limits in
            IsVisit s visit.new.table visit.new.marks visit.new.found visit.new.stack) }
        ensures reaches { IfNew result (λ i. let s = search (G.start self.now.graph.now) (G.turn self.now.graph.now) self.now.limits in
            Reaches s visit.new.table visit.new.marks visit.new.stack i) }
    {
        let top = *visit.stack.at(visit.stack.len() - 1);
        let links = visit.found.at(top.number).links.as_slice();
        if top.choice >= links.len() {
            return self.leave(visit);
        }
        let to = links[top.choice].to;
        if visit.marks.at(to).is_seen() {
            return Move::New(to);
        }
        next_choice(&mut visit.stack);
        Move::On
    }
}
