//! Laws of lowered programs. What each function ensures is the law; its body only cites the laws that it
//! rests on.
ghost use Rattle.valid_calls.specs.Laws.{CallsAgree, MeasurementsAreNamed, NumbersAreSmall};

use issued_steps::laws::steps_issue_calls;
use valid_lines::laws::items_are_valid;
use valid_steps::laws::steps_keep_configurations;

/// The names of operations are those of quantum instructions, and one name has one list of types.
pub fn calls_agree()
    ensures { CallsAgree }
{
    steps_keep_configurations();
    items_are_valid();
    steps_issue_calls();
}

/// Each operation that is a measurement is named among the irreversible ones.
pub fn measurements_are_named()
    ensures { MeasurementsAreNamed }
{
    steps_keep_configurations();
    steps_issue_calls();
}

/// Where a machine's integers hold the numbers of a lowered program, each number that is printed is in its
/// range.
pub fn numbers_are_small()
    ensures { NumbersAreSmall }
{
    steps_keep_configurations();
    steps_issue_calls();
}
