//! Laws of shots. Each function does nothing: what it ensures is the law.
ghost use Rattle.shots.specs.Laws.{ShotsAreOne, ShotsExist};

use ir_values::laws::class_tells_types;
use typed_runs::admitted_modules_keep_the_invariant;

/// A module without faults has a shot with each backend and each bound of steps.
pub fn shots_exist()
    ensures { ShotsExist }
{
    class_tells_types();
    admitted_modules_keep_the_invariant();
}

/// It has at most one.
pub fn shots_are_one()
    ensures { ShotsAreOne }
{
    class_tells_types();
    admitted_modules_keep_the_invariant();
}
