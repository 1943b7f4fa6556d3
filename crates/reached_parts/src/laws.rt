//! A law of lowered programs. The function does nothing: what it ensures is the law.
ghost use Rattle.reached_parts.specs.Laws.{MadePartsAreReached};

/// A jump leads to each part with parameters of the parts that are made of reachable configurations.
pub fn made_parts_are_reached()
    ensures { MadePartsAreReached }
{}
