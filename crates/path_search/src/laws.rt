//! Laws of path order, openings and verdicts.
ghost use Rattle.path_search.specs.Paths.{Search};
ghost use Rattle.path_search.specs.Laws.{IsPathOrder, HasOneOpening, HasOneVerdict};

/// Path order is strict and total.
pub fn paths_are_ordered()
    ensures { IsPathOrder }
{}

/// Of each length there is at most one opening, of any graph.
pub fn an_opening_is_one<N, K>()
    ensures { (s : Search N K) → HasOneOpening s }
{}

/// There is at most one verdict on any graph.
pub fn the_verdict_is_one<N, K>()
    ensures { (s : Search N K) → HasOneVerdict s }
{}
