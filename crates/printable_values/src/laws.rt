//! Laws of values that can be printed. Each function does nothing: what it ensures is the law.
ghost use Rattle.printable_values.specs.Laws.{ConstantsPrint, ResultsPrint};

/// A constant of the form that its type takes can be printed.
pub fn constants_print()
    ensures { ConstantsPrint }
{}

/// What instructions on integers give can be printed.
pub fn results_print()
    ensures { ResultsPrint }
{}
