//! Laws of configurations. Each function does nothing: what it ensures is the law.
ghost use Rattle.static_steps.specs.Laws.{StartsAreConfigurations, StepsLeaveLoopsAndBudget};

/// Constant evaluation starts at a configuration of the module, for every target.
pub fn starts_are_configurations()
    ensures { StartsAreConfigurations }
{}

/// No step is refused because the program comes back to where it was, or because the budget ends.
pub fn steps_leave_loops_and_budget()
    ensures { StepsLeaveLoopsAndBudget }
{}
