//! Laws of live names. Each function does nothing: what it ensures is the law.
ghost use Rattle.live_names.specs.Laws.{LoweredIsAccepted, NamesLiveWithin};

/// In a printed Adaptive residue no name is live where the entry begins, and all that are live are its own.
pub fn names_live_within()
    ensures { NamesLiveWithin }
{}

/// A lowered Adaptive program is accepted within as many configurations as it has instructions.
pub fn lowered_is_accepted()
    ensures { LoweredIsAccepted }
{}
