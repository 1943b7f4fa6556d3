//! A law of printed residues. The function does nothing: what it ensures is the law.
ghost use Rattle.numbered_residue.specs.Laws.{PrintedIsNumbered};

/// The module that a valid residue is has its numbers and names in order.
pub fn printed_is_numbered()
    ensures { PrintedIsNumbered }
{}
