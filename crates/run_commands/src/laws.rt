//! Laws of what the commands come to. Each function does nothing: what it ensures is the law.
ghost use Rattle.run_commands.specs.Laws.{RunsAreOne, RunsExist, TracesAreOne, TracesExist};

use shots::{shots_are_one, shots_exist};

/// A module without faults has at most one text of `run` by a schema, with each list of backends and each bound of steps,
/// and at most one answer whether all returned.
pub fn runs_are_one()
    ensures { RunsAreOne }
{
    shots_are_one();
}

/// It has one.
pub fn runs_exist()
    ensures { RunsExist }
{
    shots_exist();
}

/// A module without faults has at most one text of `trace` with each backend and each bound of steps.
pub fn traces_are_one()
    ensures { TracesAreOne }
{
    shots_are_one();
}

/// It has one.
pub fn traces_exist()
    ensures { TracesExist }
{
    shots_exist();
}
