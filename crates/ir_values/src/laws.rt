//! Laws of types and classes. Each function does nothing: what it ensures is the law.
ghost use Rattle.ir_values.specs.ClassTypes.{ClassTellsTypes, WordsTellTypes};

/// A declared function that has a class returns and takes what a function of that class does: a gate
/// returns nothing and takes no result, a measurement returns nothing and takes exactly one.
pub fn class_tells_types()
    ensures { ClassTellsTypes }
{}

/// Two functions of the same words return and take the same types.
pub fn words_tell_types()
    ensures { WordsTellTypes }
{}
