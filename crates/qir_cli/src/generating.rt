//! The command `gen`.
ghost use Rattle.std.specs.Prelude.{ℕ, List, IfOk};
ghost use Rattle.finding_lines.specs.Lines.{ArePlaces};
ghost use Rattle.ir_reader.specs.Spelling.{Spells};
ghost use Rattle.qir_cli.specs.code.AdmittedCode.{parsed_of};
ghost use Rattle.qir_cli.specs.code.Stops.{Meets};
ghost use Rattle.qir_cli.specs.Generating.{Summarizes};
ghost use Rattle.qir_cli.specs.Headline.{KeepsRun};

use crate::admitted::Admitted;
use crate::lowering::not_lowered;
use crate::refusal::Stop;
use crate::reply::Reply;
use crate::status::Status;
use generated_summary::summary_lines;
use lowering_verdicts::laws::refusals_have_places;
use std::alloc::Global;

/// Lowers and runs a module that was generated for so many turns, and sums up how that went.
pub(crate) fn summarize_module(alloc: Global, a: &Admitted, turns: u32) -> Result<Reply, Stop>
    requires { ArePlaces a.now.checked.tree a.now.places }
    ensures meets { Meets (Summarizes turns (parsed_of a.now)) result }
    ensures kept { IfOk result (λ _. (bytes : List ℕ) → Spells a.now.checked.tree bytes → KeepsRun bytes) }
{
    refusals_have_places();
    let _module = a.checked.module();
    match summary_lines(alloc, &a.checked, turns) {
        Ok(text) => Ok(Reply {
            status: Status::Done,
            text,
        }),
        Err(why) => Err(not_lowered(&a.places, why)),
    }
}
