//! The command `lower`.
ghost use Rattle.std.specs.Prelude.{◌≡◌, ◌≤◌, ℕ, List, IfOk};
ghost use Rattle.finding_lines.specs.Lines.{ArePlaces};
ghost use Rattle.ir_module.specs.Printable.{IsPrintable};
ghost use Rattle.ir_reader.specs.Spelling.{Spells};
ghost use Rattle.qir_cli.specs.Headline.{KeepsSource};
ghost use Rattle.qir_cli.specs.Lowering.{Lowers};
ghost use Rattle.qir_cli.specs.code.AdmittedCode.{HasItsPlace, lower_stop, parsed_of};
ghost use Rattle.qir_cli.specs.code.Stops.{Meets};

use crate::admitted::Admitted;
use crate::refusal::{Fault, Refusal, Stop};
use crate::reply::Reply;
use crate::status::Status;
use ir_module::{Places, Spot};
use kept_items::Target;
use lowering_verdicts::laws::refusals_have_places;
use qubit_lowering::lower;
use round_trip::canonical_text_spells_its_module;
use std::alloc::Global;
use unroller::LowerStop;

/// Lowers a module for a target, within a budget of configurations, and writes the canonical text of its lowered
/// module.
pub(crate) fn lower_module(
    alloc: Global,
    a: &Admitted,
    target: Target,
    budget: u32,
) -> Result<Reply, Stop>
    requires budget { budget ≤ 1000000 }
    requires places { ArePlaces a.now.checked.tree a.now.places }
    requires printable { IsPrintable a.now.checked.tree }
    ensures meets { Meets (Lowers target budget (parsed_of a.now)) result }
    ensures kept { IfOk result (λ reply. (bytes : List ℕ) → Spells a.now.checked.tree bytes
        → KeepsSource target budget bytes reply.text) }
{
    canonical_text_spells_its_module();
    refusals_have_places();
    let _module = a.checked.module();
    match lower(alloc, &a.checked, target, budget) {
        Ok(module) => Ok(Reply {
            status: Status::Done,
            text: ir_printer::print(alloc, &module)?,
        }),
        Err(why) => Err(not_lowered(&a.places, why)),
    }
}

/// What stops a command where a module isn't lowered, with its place.
pub(crate) fn not_lowered(places: &Places, why: LowerStop) -> Stop
    requires { HasItsPlace places.now why }
    ensures { result ≡ lower_stop places.now why }
{
    match why {
        LowerStop::Refused { at, kind } => Stop::Refused(Refusal {
            fault: Fault::Lower(kind),
            place: places.of(Spot::At(at)),
        }),
        LowerStop::Memory => Stop::Memory,
    }
}
