//! A law of modules that are lowered without loops. What the function ensures is the law; its body only cites the laws that it
//! rests on.
ghost use Rattle.unrolled_runs.specs.Laws.{UnrolledRunsEnd};

use ir_values::Seq;
use kept_items::{Dyn, Kind};
use runs_follow_steps::laws::{runs_follow_steps, starts_describe_runs};
use search_verdicts::laws::searches_without_loops_have_no_cycles;
use static_steps::Config;
use unroller::Outcome;

/// A module that is lowered for a target without loops ends each run within as many steps as it has configurations.
pub fn unrolled_runs_end()
    ensures { UnrolledRunsEnd }
{
    starts_describe_runs();
    runs_follow_steps();
    searches_without_loops_have_no_cycles::<Config, Kind, Outcome, Seq<Dyn>>();
}
