//! Laws of searches. What each function ensures is the law.
ghost use Rattle.path_search.specs.Paths.{Search};
ghost use Rattle.path_search.specs.declared.node.Visited.{Visited};
ghost use Rattle.search_verdicts.specs.Laws.{HasNoCycle, HasVerdict};
ghost use Rattle.std.specs.Prelude.{List};

use ir_values::Exact;

/// Every search over nodes that `==` compares by their contents is accepted, and then its nodes can be listed,
/// or it is refused at some node for some reason.
pub fn every_search_has_a_verdict<N: Exact, K>()
    ensures { (s : Search N K) → HasVerdict s }
{}

/// Where an accepted search permits no loops, no node of it lies on a cycle.
pub fn searches_without_loops_have_no_cycles<N: Exact, K, D, E>()
    ensures { (s : Search N K) (nodes : List (Visited N D E)) → HasNoCycle s nodes }
{}
