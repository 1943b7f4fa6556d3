//! Laws of printed residues. Each function does nothing: what it ensures is the law.
ghost use Rattle.printed_residue.specs.Laws.{BaseItemsRun, BaseMarksPass, BaseReturnsRun, BaseStartsRun, ItemsRun, MarksPass, ReturnsRun, StartsRun, TailsRun};

/// A run at a line that holds an item does what the item does, and then stands at the next line.
pub fn items_run()
    ensures { ItemsRun }
{}

/// A run at a mark stands at the next line, too.
pub fn marks_pass()
    ensures { MarksPass }
{}

/// At a tail one tick leads along the jump that is taken to the first line of its part, whose parameters
/// have the values of the jump's arguments.
pub fn tails_run()
    ensures { TailsRun }
{}

/// A run at a tail that returns ends with the value that is returned.
pub fn returns_run()
    ensures { ReturnsRun }
{}

/// A run begins with one tick, and then stands at the first line of part 0.
pub fn starts_run()
    ensures { StartsRun }
{}

/// A Base run at a line that holds an item passes the ends of blocks, if need be, does what the item does,
/// and then stands behind it; four ticks suffice.
pub fn base_items_run()
    ensures { BaseItemsRun }
{}

/// A Base run at a mark stands behind it, too.
pub fn base_marks_pass()
    ensures { BaseMarksPass }
{}

/// A Base run behind the last line passes the ends of blocks, if need be, and returns the known value.
pub fn base_returns_run()
    ensures { BaseReturnsRun }
{}

/// A Base run begins with one tick, and then stands before the first line.
pub fn base_starts_run()
    ensures { BaseStartsRun }
{}
