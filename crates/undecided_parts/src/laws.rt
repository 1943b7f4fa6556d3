//! Laws of constant evaluation. Each function does nothing: what it ensures is the law.
ghost use Rattle.undecided_parts.specs.Laws.{MadeIsUndecided, StepsKeepUndecided};

/// A static step keeps an instruction only where constants don't decide it.
pub fn steps_keep_undecided()
    ensures { StepsKeepUndecided }
{}

/// So constants decide nothing of a lowered program.
pub fn made_residues_are_undecided()
    ensures { MadeIsUndecided }
{}
