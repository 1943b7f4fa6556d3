//! Laws of lowering what was lowered. Each function does nothing: what it ensures is the law.
ghost use Rattle.repeated_lowering.specs.Laws.{BaseIsRepeated, MadeIsRepeatable};

/// A Base program that was lowered, and is accepted, is lowered to itself.
pub fn base_is_repeated()
    ensures { BaseIsRepeated }
{}

/// What that asks of a residue, one that is made of explored configurations keeps, where it is valid and fits its
/// profile and its limit.
pub fn made_residues_are_repeatable()
    ensures { MadeIsRepeatable }
{}
