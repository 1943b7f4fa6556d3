//! Laws of modules with the same behaviour. Each function does nothing: what it ensures is the law.
ghost use Rattle.lasting_runs.specs.Laws.{LastAlike, SameInTime};

/// Neither of them ends where the other goes on.
pub fn modules_last_alike()
    ensures { LastAlike }
{}

/// What one of them has done at some bound of steps, the other has done at some bound.
pub fn modules_do_the_same()
    ensures { SameInTime }
{}
