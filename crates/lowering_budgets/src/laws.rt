//! Laws of budgets. Each function does nothing: what it ensures is the law.
ghost use Rattle.lowering_budgets.specs.Laws.{BudgetsCountConfigurations};

/// A lowered module is made of at most as many configurations as the budget, and comes out alike within every budget
/// of at least that many.
pub fn budgets_count_configurations()
    ensures { BudgetsCountConfigurations }
{}
