//! Laws of live names. Each function does nothing: what it ensures is the law.
ghost use Rattle.told_liveness.specs.Laws.{HasTest, IsToldOnce};

/// Every module has a test that tells the live names at its points.
pub fn live_names_can_be_told()
    ensures { HasTest }
{}

/// Two such tests of a module are one, also at points that it doesn't have.
pub fn live_names_are_told_in_one_way()
    ensures { IsToldOnce }
{}
