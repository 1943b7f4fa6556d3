//! Laws of admitted modules. What each function ensures is the law; its body only cites the laws that it rests on.
ghost use Rattle.typed_runs.specs.Laws.{
  FixedNamingFits,
  InvariantHolds,
  LabelsAreConstants,
  NamesRequired,
  NeverStuck,
};

use ir_values::laws::{class_tells_types, words_tell_types};
use qir_meaning::{fixed_naming_keeps_apart, modules_have_one_run};

/// The whole states of a module without faults fit at the start and after each instruction: values have
/// the types of their names, frames that wait fit their calls, and numbers are in range.
pub fn admitted_modules_keep_the_invariant()
    ensures { InvariantHolds }
{
    class_tells_types();
    words_tell_types();
}

/// A module without faults has exactly one run for every list of answers and every bound.
pub fn admitted_modules_run()
    ensures { NeverStuck }
{
    admitted_modules_keep_the_invariant();
    modules_have_one_run();
}

/// The runs of a module without faults name fixed numbers below the required ones alone.
pub fn admitted_modules_stay_below()
    ensures { NamesRequired }
{
    admitted_modules_keep_the_invariant();
}

/// The fixed naming gives no two qubits and no two results that runs of a module without faults name one
/// name.
pub fn admitted_modules_are_kept_apart()
    ensures { FixedNamingFits }
{
    admitted_modules_stay_below();
    fixed_naming_keeps_apart();
}

/// The labels of the records that runs of a module without faults write are constants of the module.
pub fn admitted_modules_write_constants()
    ensures { LabelsAreConstants }
{
    admitted_modules_keep_the_invariant();
}
