//! A law of lowered programs. What the function ensures is the law; its body only cites the law that it rests on.
ghost use Rattle.acyclic_parts.specs.Laws.{JumpsLeadOn};

use ir_values::Seq;
use kept_items::{Dyn, Kind};
use search_verdicts::laws::searches_without_loops_have_no_cycles;
use static_steps::Config;
use unroller::Outcome;

/// Of a program without loops, jumps lead from no part back to it.
pub fn jumps_lead_on()
    ensures { JumpsLeadOn }
{
    searches_without_loops_have_no_cycles::<Config, Kind, Outcome, Seq<Dyn>>();
}
