//! A law of static steps. The function does nothing: what it ensures is the law.
ghost use Rattle.printable_steps.specs.Laws.{StepsKeepPrintable};

/// The static step of a module that can be printed leads to known values that can be printed, and
/// leaves an item and cases that can.
pub fn steps_keep_printable()
    ensures { StepsKeepPrintable }
{}
