//! Laws of the parts of lowered programs. What each function ensures is the law; its body only cites the
//! laws that it rests on.
ghost use Rattle.valid_parts.specs.Laws.{ConstantsHold, JumpsFit, LabelsHold, PartsStart, ScopesHold, TypesHold};

use valid_lines::laws::items_are_valid;

/// The first part has no parameters, and every jump leads to another part in range.
pub fn parts_start()
    ensures { PartsStart }
{}

/// The arguments of jumps fit the parameters of the parts that they lead to, and two jumps of one tail to
/// one part have equal arguments.
pub fn jumps_fit()
    ensures { JumpsFit }
{}

/// Each Dynamic value is given once, and a part uses only its parameters and what its earlier lines give.
pub fn scopes_hold()
    ensures { ScopesHold }
{}

/// Each value has the type or the width of its place.
pub fn types_hold()
    ensures { TypesHold }
{}

/// The constant results one and zero stand only in comparisons.
pub fn constants_hold()
    ensures { ConstantsHold }
{
    items_are_valid();
}

/// Labels are in range of the constants.
pub fn labels_hold()
    ensures { LabelsHold }
{
    items_are_valid();
}
