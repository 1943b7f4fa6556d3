//! Laws of lowered programs for the Base Profile. What each function ensures is the law; its body only
//! cites the laws that it rests on.
ghost use Rattle.base_order.specs.Laws.{BaseKeepsOrder, BasePermits};

use issued_steps::laws::steps_issue_calls;
use valid_lines::laws::items_are_valid;
use valid_steps::laws::{admitted_modules_start, steps_keep_configurations};

/// There is one part, whose reversible operations come before the irreversible ones, and these before the
/// records.
pub fn base_keeps_order()
    ensures { BaseKeepsOrder }
{
    admitted_modules_start();
    steps_keep_configurations();
    steps_issue_calls();
}

/// The Base Profile permits the items, and the one part returns a known value.
pub fn base_permits()
    ensures { BasePermits }
{
    admitted_modules_start();
    steps_keep_configurations();
    items_are_valid();
}
