//! Laws of lowered programs. What each function ensures is the law; its body only cites the laws that it
//! rests on.
ghost use Rattle.valid_residue.specs.Laws.{AdaptivePermits, CasesDiffer, HandlesAreBelow, LabelsAreBelow, NamesDiffer, NodesAreSteps};

use valid_lines::laws::items_are_valid;
use valid_steps::laws::{admitted_modules_start, steps_keep_configurations};

/// Each reachable configuration has the outcome of its static step, as modules without faults have them.
pub fn nodes_are_steps()
    ensures { NodesAreSteps }
{
    steps_keep_configurations();
}

/// The cases of each switch are distinct.
pub fn cases_differ()
    ensures { CasesDiffer }
{
    steps_keep_configurations();
}

/// The names of the entry and of the constants are distinct, and none is one of the runtime's or the
/// quantum instructions'.
pub fn names_differ()
    ensures { NamesDiffer }
{}

/// Labels are constants of the program, of which there are few.
pub fn labels_are_below()
    ensures { LabelsAreBelow }
{
    steps_keep_configurations();
}

/// The numbers of qubits and results are below the required ones.
pub fn handles_are_below()
    ensures { HandlesAreBelow }
{
    steps_keep_configurations();
}

/// What an Adaptive target has permits the program: its items and the ends of its parts, the widths of its
/// parameters, and one return where the target has no others.
pub fn adaptive_permits()
    ensures { AdaptivePermits }
{
    admitted_modules_start();
    steps_keep_configurations();
    items_are_valid();
}
