//! Laws of constant evaluation of printed residues. Each function does nothing: what it ensures is the law.
ghost use Rattle.settled_lowering.specs.Laws.{BaseIsAccepted};

/// A lowered Base program is accepted within as many configurations as it has instructions.
pub fn base_is_accepted()
    ensures { BaseIsAccepted }
{}
