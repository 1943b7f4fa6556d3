//! Laws of shots. What each function ensures is the law; its body only cites the laws that it rests on.
ghost use Rattle.equal_shots.specs.Laws.{LoweredRunsLastAlike, LoweredShotsAreEqual, ShotsAreEqual};

use bit_backend::{renaming_keeps_fits, renaming_keeps_operations};
use lasting_runs::laws::{modules_do_the_same, modules_last_alike};
use qir_meaning::ended_runs_stay;
use shots::shots_are_one;

/// Two modules without faults that have the same behaviour have equal shots.
pub fn shots_are_equal()
    ensures { ShotsAreEqual }
{
    ended_runs_stay();
    shots_are_one();
    renaming_keeps_operations();
    renaming_keeps_fits();
}

/// Whatever bits answer its measurements, a lowered module does in a shot what its source does.
pub fn lowered_shots_are_equal()
    ensures { LoweredShotsAreEqual }
{
    shots_are_equal();
}

/// A lowered module and its source go on for ever alike, and bounds aside each does what the other does.
pub fn lowered_runs_last_alike()
    ensures { LoweredRunsLastAlike }
{
    modules_last_alike();
    modules_do_the_same();
}
