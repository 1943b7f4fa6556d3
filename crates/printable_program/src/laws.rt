//! Laws of lowered programs. Each function does nothing: what it ensures is the law.
ghost use Rattle.printable_program.specs.Laws.{LoweredModulesArePrintable, LoweredProgramsHavePrintablePieces};

use printable_residue::laws::printed_is_printable;
use printable_steps::laws::steps_keep_printable;
use reached_parts::laws::made_parts_are_reached;

/// The lowered program of a module that can be printed has pieces that can be printed.
pub fn lowered_programs_have_printable_pieces()
    ensures { LoweredProgramsHavePrintablePieces }
{
    steps_keep_printable();
}

/// The lowered module of a module that can be printed can be printed, where the lowered program is valid.
pub fn lowered_modules_are_printable()
    ensures { LoweredModulesArePrintable }
{
    made_parts_are_reached();
    lowered_programs_have_printable_pieces();
    printed_is_printable();
}
