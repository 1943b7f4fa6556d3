//! Laws of the parts of lowered programs. What each function ensures is the law; its body only cites the law
//! that it rests on.
ghost use Rattle.fused_form.specs.Laws.{ChainsAreOnePart, LoweredModulesAreFused, LoweredPartsAreFused};

use valid_residue::laws::nodes_are_steps;

/// No part that a single edge leads to is jumped to.
pub fn lowered_parts_are_fused()
    ensures { LoweredPartsAreFused }
{
    nodes_are_steps();
}

/// Where the only edge of a configuration is the only one to another, both stand in one part.
pub fn chains_are_one_part()
    ensures { ChainsAreOnePart }
{
    nodes_are_steps();
}

/// The lowered module of an admitted module is made of such parts.
pub fn lowered_modules_are_fused()
    ensures { LoweredModulesAreFused }
{
    lowered_parts_are_fused();
}
