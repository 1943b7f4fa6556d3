//! Laws of the static step. Each function does nothing: what it ensures is the law.
ghost use Rattle.runs_follow_steps.specs.Laws.{RunsFollowSteps, StartsDescribeRuns};

/// The configuration where constant evaluation starts describes the state in which a run starts.
pub fn starts_describe_runs()
    ensures { StartsDescribeRuns }
{}

/// Where a configuration describes the state of a run, the next instruction of the run does what the
/// static step says, by the values of the Dynamic names.
pub fn runs_follow_steps()
    ensures { RunsFollowSteps }
{}
