//! The search, and what it answers.
ghost use Rattle.std.specs.Prelude.{◌≡◌, ◌<◌, ◌≤◌, [], length, map, slice_get, Some, OnOk, IfOk};
ghost use Rattle.graph_cycles.specs.Cycles.{TellsCycles};
ghost use Rattle.graph_cycles.specs.code.Search as spec;

use crate::search::{Mark, Search, Start};
use ir_values::{Memory, Seq};
use std::alloc::Global;

/// A directed graph: for each node, which are numbered from 0, the nodes that its edges lead to. A
/// number that is no node's is led to, and leads nowhere.
pub type Graph = Seq<Seq<usize>>;

impl Search {
    /// The search of a graph of `n` nodes at its begin.
    fn new(alloc: Global, n: usize) -> Result<Search, Memory>
        ensures { IfOk result (spec.IsBegin n) }
    {
        let mut marks = Seq::new(alloc);
        for _i in 0..n {
            marks.push(Mark::Unseen)?;
        }
        Ok(Search {
            marks,
            opens: Seq::new(alloc),
            targets: Seq::new(alloc),
            starts: Seq::new(alloc),
        })
    }

    /// How far the search has come with a node, or None of a number that is no node's.
    fn mark(&self, v: usize) -> Option<Mark>
        ensures { result ≡ slice_get self.now.marks v }
    {
        self.marks.as_slice().get(v).copied()
    }

    /// Begins a component of a node that was not met.
    fn begin(&mut self, graph: &Graph, v: usize) -> Result<(), Memory>
        requires node { v < length graph.now }
        requires sized { length self.old.marks ≡ length graph.now }
        ensures { OnOk result (spec.Opens graph.now v self.old self.new) }
    {
        let number = self.opens.len();
        self.starts.push(Start {
            members: number,
            targets: self.targets.len(),
            cyclic: false,
        })?;
        self.marks.set(v, Mark::Open(number));
        self.opens.push(v)?;
        self.targets.extend_from_slice(graph.at(v).as_slice())
    }

    /// The last component.
    fn last(&self) -> Option<Start>
        ensures { spec.IsLast self.now.starts result }
    {
        match self.starts.as_slice() {
            [] => None,
            [.., last] => Some(*last),
        }
    }

    /// Closes the nodes of the last component, whose start was taken away.
    fn close(&mut self, last: Start)
        requires within { last.members ≤ length self.old.opens }
        requires opened { spec.AreOpened self.old.marks self.old.opens }
        ensures { spec.Closes last self.old self.new }
    {
        while self.opens.len() > last.members {
            match self.opens.pop() {
                Some(v) => self.marks.set(v, Mark::Closed(last.cyclic)),
                None => unreachable!(),
            }
        }
    }

    /// An edge leads back to the open node of number `p`: from the component of that node on all are one.
    fn merge(&mut self, p: usize)
        requires within { p < length self.old.opens }
        requires first { spec.first_member (length self.old.opens) self.old.starts ≡ 0 }
        ensures { spec.Merges p self.old self.new }
    {
        while let Some(last) = self.last() {
            if last.members <= p {
                let merged = Start {
                    members: last.members,
                    targets: last.targets,
                    cyclic: true,
                };
                self.starts.set(self.starts.len() - 1, merged);
                break;
            }
            let _later = self.starts.pop();
        }
    }

    /// Follows an edge of the last component to `t`, the last target, which was taken away.
    fn follow(&mut self, graph: &Graph, t: usize) -> Result<(), Memory>
        requires { spec.IsAt graph.now t self.old }
        ensures { OnOk result (spec.Follows graph.now t self.old self.new) }
    {
        match self.mark(t) {
            Some(Mark::Unseen) => self.begin(graph, t),
            Some(Mark::Open(p)) => {
                self.merge(p);
                Ok(())
            }
            Some(Mark::Closed(_)) => Ok(()),
            None => Ok(()),
        }
    }

    /// Follows the last edge that waits in the last component, or closes it where none does.
    fn advance(&mut self, graph: &Graph, last: Start) -> Result<(), Memory>
        requires search { spec.IsSearchState graph.now self.old }
        requires last { spec.IsLast self.old.starts (Some last) }
        ensures { OnOk result (spec.Advances graph.now self.old self.new) }
    {
        if self.targets.len() > last.targets {
            match self.targets.pop() {
                Some(t) => self.follow(graph, t),
                None => unreachable!(),
            }
        } else {
            let _last = self.starts.pop();
            self.close(last);
            Ok(())
        }
    }

    /// Goes on until no component is open.
    fn finish(&mut self, graph: &Graph) -> Result<(), Memory>
        requires { spec.IsSearchState graph.now self.old }
        ensures { OnOk result (spec.Finishes graph.now self.old self.new) }
    {
        while let Some(last) = self.last() {
            self.advance(graph, last)?;
        }
        Ok(())
    }

    /// Closes all that the node leads to.
    fn explore(&mut self, graph: &Graph, v: usize) -> Result<(), Memory>
        requires node { v < length graph.now }
        requires search { spec.IsSearchState graph.now self.old }
        requires idle { self.old.starts ≡ [] }
        ensures { OnOk result (spec.Explores graph.now v self.old self.new) }
    {
        self.follow(graph, v)?;
        self.finish(graph)
    }
}

fn answers(alloc: Global, marks: &Seq<Mark>) -> Result<Seq<bool>, Memory>
    ensures { IfOk result (λ on. on ≡ map spec.is_cyclic marks.now) }
{
    let mut on = Seq::new(alloc);
    for mark in marks.as_slice() {
        on.push(matches!(mark, Mark::Closed(true)))?;
    }
    Ok(on)
}

/// Which nodes of a graph lie on a cycle: for each node in order, whether some walk that is not empty
/// leads from it back to it. It takes time and memory in proportion to the nodes and edges. The only
/// error is want of memory.
pub fn on_cycle(alloc: Global, graph: &Graph) -> Result<Seq<bool>, Memory>
    ensures { IfOk result (TellsCycles graph.now) }
{
    let mut search = Search::new(alloc, graph.len())?;
    for v in 0..graph.len() {
        search.explore(graph, v)?;
    }
    answers(alloc, &search.marks)
}
