//! All nodes of a graph in path order, or the first that is not permitted.
ghost use Rattle.std.specs.Prelude.{◌≡◌, ◌<◌, [], ◌∷◌, length, IfOk, IfErr, IfSome, IfNone};
ghost use Rattle.path_search.specs.Verdict.{Refuses};
ghost use Rattle.path_search.specs.Explored.{Explored};
ghost use Rattle.path_search.specs.code.Steps.{search};
ghost use Rattle.path_search.specs.code.Visit.{IsVisit, Reaches, Keeps, IsRefused, IsDone};
ghost use Rattle.path_search.specs.code.Answers.{IfRefused};
ghost use Rattle.path_search.specs.declared.visit.Mark.TheVariants.{Seen};

use crate::assembly::assembled;
use crate::graph::Graph;
use crate::limits::Limits;
use crate::node::{Stop, Visited};
use crate::reason::Reason;
use crate::table::Table;
use crate::visit::{Explorer, Mark, Move, Visit};
use ir_values::{Memory, Seq};
use std::alloc::Global;

impl<'a, G: Graph> Explorer<'a, G> {
    /// A visit that has seen the start alone.
    pub fn begin(&self, alloc: Global) -> Result<Visit<G::Node, G::Data, G::Label>, Memory>
        ensures begun { IfOk result (λ visit. let s = search (G.start self.now.graph.now) (G.turn self.now.graph.now) self.now.limits in
            IsVisit s visit.table visit.marks visit.found visit.stack) }
        ensures reaches { IfOk result (λ visit. let s = search (G.start self.now.graph.now) (G.turn self.now.graph.now) self.now.limits in
            Reaches s visit.table visit.marks visit.stack 0) }
        ensures keeps { IfOk result (λ visit. Keeps (G.IsValid self.now.graph.now) (G.Carries self.now.graph.now) visit.table visit.found) }
    {
        let start = self.graph.start(alloc)?;
        let mut table = Table::new(alloc);
        table.index_of(start)?;
        let mut marks = Seq::new(alloc);
        marks.push(Mark::Seen)?;
        Ok(Visit {
            table,
            marks,
            found: Seq::new(alloc),
            stack: Seq::new(alloc),
        })
    }

    /// Follows edges to the next node that was not entered. There is none once all are followed.
    pub fn seek(&self, visit: &mut Visit<G::Node, G::Data, G::Label>) -> Option<usize>
        requires visit { let s = search (G.start self.now.graph.now) (G.turn self.now.graph.now) self.now.limits in
            IsVisit s visit.old.table visit.old.marks visit.old.found visit.old.stack }
        requires inside { 0 < length visit.old.stack }
        ensures same { (visit.new.table ≡ visit.old.table) × (visit.new.found ≡ visit.old.found) }
        ensures new { IfSome result (λ i. let s = search (G.start self.now.graph.now) (G.turn self.now.graph.now) self.now.limits in
            IsVisit s visit.new.table visit.new.marks visit.new.found visit.new.stack) }
        ensures reaches { IfSome result (λ i. let s = search (G.start self.now.graph.now) (G.turn self.now.graph.now) self.now.limits in
            Reaches s visit.new.table visit.new.marks visit.new.stack i) }
        ensures done { IfNone result (let s = search (G.start self.now.graph.now) (G.turn self.now.graph.now) self.now.limits in
            IsDone s visit.new.table visit.new.marks visit.new.found) }
    {
        'moves: loop {
            match self.advance(visit) {
                Move::On => {}
                Move::New(index) => return Some(index),
                Move::Done => return None,
            }
        }
    }

    /// Enters all nodes, or answers the index of the first that is not permitted, and why.
    pub fn walk(
        &self,
        alloc: Global,
        visit: &mut Visit<G::Node, G::Data, G::Label>,
    ) -> Result<Option<(usize, Reason<G::Kind>)>, Memory>
        requires visit { let s = search (G.start self.now.graph.now) (G.turn self.now.graph.now) self.now.limits in
            IsVisit s visit.old.table visit.old.marks visit.old.found visit.old.stack }
        requires reaches { let s = search (G.start self.now.graph.now) (G.turn self.now.graph.now) self.now.limits in
            Reaches s visit.old.table visit.old.marks visit.old.stack 0 }
        requires keeps { Keeps (G.IsValid self.now.graph.now) (G.Carries self.now.graph.now) visit.old.table visit.old.found }
        ensures done { IfOk result (λ r. IfNone r (let s = search (G.start self.now.graph.now) (G.turn self.now.graph.now) self.now.limits in
            IsDone s visit.new.table visit.new.marks visit.new.found)) }
        ensures keeps { IfOk result (λ r. IfNone r
            (Keeps (G.IsValid self.now.graph.now) (G.Carries self.now.graph.now) visit.new.table visit.new.found)) }
        ensures refused { IfOk result (λ r. IfSome r (λ at. let s = search (G.start self.now.graph.now) (G.turn self.now.graph.now) self.now.limits in
            IsRefused s visit.new.table at.0 at.1)) }
    {
        let mut next = Some(0);
        while let Some(index) = next {
            if let Some(reason) = self.enter(alloc, visit, index)? {
                return Ok(Some((index, reason)));
            }
            next = self.seek(visit);
        }
        Ok(None)
    }
}

/// The nodes of a graph in path order, where each is permitted. Otherwise the first path in path order
/// that is not permitted decides: its end and the reason. [`Stop::Memory`] says nothing of the graph.
pub fn explore<G: Graph>(
    alloc: Global,
    graph: &G,
    limits: Limits,
) -> Result<Seq<Visited<G::Node, G::Data, G::Label>>, Stop<G::Node, G::Kind>>
    ensures accepted { IfOk result
        (Explored (search (G.start graph.now) (G.turn graph.now) limits) (G.Carries graph.now)) }
    ensures refused { IfErr result (λ stop. IfRefused stop
        (Refuses (search (G.start graph.now) (G.turn graph.now) limits))) }
{
    let explorer = Explorer { graph, limits };
    let Ok(mut visit) = explorer.begin(alloc) else {
        return Err(Stop::Memory);
    };
    match explorer.walk(alloc, &mut visit) {
        Ok(Some((index, reason))) => Err(Stop::Refused {
            at: visit.table.take(index),
            reason,
        }),
        Ok(None) => match assembled(alloc, visit) {
            Ok(nodes) => Ok(nodes),
            Err(Memory) => Err(Stop::Memory),
        },
        Err(Memory) => Err(Stop::Memory),
    }
}
