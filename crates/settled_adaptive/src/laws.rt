//! Laws of constant evaluation of printed residues. Each function does nothing: what it ensures is the law.
ghost use Rattle.settled_adaptive.specs.Laws.{AdaptiveIsAccepted};

/// A lowered Adaptive program is accepted within as many configurations as it has instructions.
pub fn adaptive_is_accepted()
    ensures { AdaptiveIsAccepted }
{}
