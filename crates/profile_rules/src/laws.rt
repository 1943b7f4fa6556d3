//! Laws of findings. Each function does nothing: what it ensures is the law.
ghost use Rattle.profile_rules.specs.Laws.{AdaptiveListIsExact, BaseListIsExact, ListIsExact};

/// The list along the tree, for any rules in the order of their numbers, is exactly what a module breaks, each once.
pub fn lists_are_exact()
    ensures { ListIsExact }
{}

/// For the rules of the Base Profile it is exactly the violations of the profile, in order.
pub fn base_lists_are_exact()
    ensures { BaseListIsExact }
{}

/// For the rules of the Adaptive Profile it is exactly the violations of the profile, in order, where the tables of
/// cycles and of calls that lead back are right.
pub fn adaptive_lists_are_exact()
    ensures { AdaptiveListIsExact }
{}
