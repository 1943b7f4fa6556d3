//! Laws of the sizes of lowered modules. Each function does nothing: what it ensures is the law.
ghost use Rattle.lowered_sizes.specs.Sizes.{HasFewInstructions, HasFewPhis};

/// A lowered module has at most four instructions for each configuration, and sixteen more; phis aside.
pub fn lowered_modules_have_few_instructions()
    ensures { HasFewInstructions }
{}

/// No block of it has more phis than some configuration has Dynamic names.
pub fn lowered_modules_have_few_phis()
    ensures { HasFewPhis }
{}
