//! Laws of admission. Each function does nothing: what it ensures is the law.
ghost use Rattle.type_check.specs.Laws.{HasOneFirstFault, TypedOrFaulty};

/// A module has no fault, or a first one.
pub fn modules_are_typed_or_faulty()
    ensures { TypedOrFaulty }
{}

/// A module has at most one first fault.
pub fn modules_have_one_first_fault()
    ensures { HasOneFirstFault }
{}
