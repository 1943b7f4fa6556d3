//! Laws of runs. Each function does nothing: what it ensures is the law.
ghost use Rattle.qir_meaning.specs.Laws.{
  EndedRunsStay,
  FixedNamingKeepsApart,
  HasOneRun,
  RunsAreSteps,
  RunsOnlyGrow,
  SimulationGivesRuns,
  SimulationKeepsBehaviour,
};

/// Two runs of a module with the same answers and bound have the same events, records and end.
pub fn modules_have_one_run()
    ensures { HasOneRun }
{}

/// A module has a run exactly where its steps, of a stack of frames, come to an end with it.
pub fn runs_are_steps()
    ensures { RunsAreSteps }
{}

/// A run that ended otherwise than by its bound is the same at every greater bound.
pub fn ended_runs_stay()
    ensures { EndedRunsStay }
{}

/// What a run has done is a prefix of what it has done at any greater bound.
pub fn runs_only_grow()
    ensures { RunsOnlyGrow }
{}

/// A module that follows another step by step has the same behaviour.
pub fn simulation_keeps_behaviour()
    ensures { SimulationKeepsBehaviour }
{}

/// A module that follows another step by step has a run with any answers and bound, and so has the
/// other.
pub fn simulation_gives_runs()
    ensures { SimulationGivesRuns }
{}

/// The fixed naming gives no two qubits and no two results that runs of a module name one name, where the
/// fixed numbers among them are below the required ones.
pub fn fixed_naming_keeps_apart()
    ensures { FixedNamingKeepsApart }
{}
