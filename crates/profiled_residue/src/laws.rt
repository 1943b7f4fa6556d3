//! Laws of printed residues. Each function does nothing: what it ensures is the law.
ghost use Rattle.profiled_residue.specs.Laws.{AdaptivePasses, BasePasses, PrintedPasses};

/// The module breaks no rule of the Base Profile in its strict form.
pub fn base_passes()
    ensures { BasePasses }
{}

/// The module breaks no rule of the Adaptive Profile.
pub fn adaptive_passes()
    ensures { AdaptivePasses }
{}

/// The module passes the profile of its target.
pub fn printed_passes()
    ensures { PrintedPasses }
{}
