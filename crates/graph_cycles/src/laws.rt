//! Laws of cycles.
ghost use Rattle.graph_cycles.specs.Split.{LeadsBack};

/// In a graph whose edges are nodes of their own, the node of an edge lies on a cycle exactly where the
/// target of the edge reaches its source. So `on_cycle` tells which edges lead back.
pub fn edges_lead_back()
    ensures { LeadsBack }
{}
