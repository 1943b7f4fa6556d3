//! Laws of admitted modules. What each function ensures is the law; its body only cites the laws that it
//! rests on.
ghost use Rattle.valid_steps.specs.Laws.{AdmittedModulesStart, StepsKeepConfigurations};

use ir_values::laws::{class_tells_types, words_tell_types};
use typed_runs::admitted_modules_keep_the_invariant;

/// Constant evaluation of a module without faults starts at a configuration of the module, for every
/// target.
pub fn admitted_modules_start()
    ensures { AdmittedModulesStart }
{
    admitted_modules_keep_the_invariant();
}

/// The static step of a configuration of a module without faults is never lost, and leads to
/// configurations of the module again; its items, choices and codes have their types, and the target
/// permits them.
pub fn steps_keep_configurations()
    ensures { StepsKeepConfigurations }
{
    class_tells_types();
    words_tell_types();
    admitted_modules_keep_the_invariant();
}
