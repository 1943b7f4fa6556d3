//! A law of printed residues. The function does nothing: what it ensures is the law.
ghost use Rattle.printable_residue.specs.Laws.{PrintedIsPrintable};

use numbered_residue::laws::printed_is_numbered;

/// The module that a valid residue is can be printed, where the residue's own pieces can.
pub fn printed_is_printable()
    ensures { PrintedIsPrintable }
{
    printed_is_numbered();
}
