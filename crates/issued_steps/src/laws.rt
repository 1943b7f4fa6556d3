//! Laws of static steps. What each function ensures is the law; its body only cites the laws that it rests
//! on.
ghost use Rattle.issued_steps.specs.Laws.{StepsIssueCalls};

use ir_values::laws::class_tells_types;

/// The operation that a static step of a module without faults leaves is what a call of one of the module's
/// declared functions issues, and it stands where the order of the Base Profile permits it.
pub fn steps_issue_calls()
    ensures { StepsIssueCalls }
{
    class_tells_types();
}
