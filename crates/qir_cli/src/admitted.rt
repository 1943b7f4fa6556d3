//! The stages of reading and admission.
ghost use Rattle.std.specs.Prelude.{◌≡◌, ◌≤◌, length, map, IfOk};
ghost use Rattle.finding_lines.specs.Lines.{ArePlaces};
ghost use Rattle.ir_module.specs.Numbered.{Numbered};
ghost use Rattle.ir_module.specs.Printable.{IsPrintable};
ghost use Rattle.ir_module.specs.Spots.{spots};
ghost use Rattle.qir_cli.specs.Admission as spec;
ghost use Rattle.qir_cli.specs.code.AdmittedCode.{AdmitsText, IsPlaced, admit_stop, given_of};
ghost use Rattle.qir_cli.specs.code.Stops.{Meets};
ghost use Rattle.qir_cli.specs.Replies.{limit};

use crate::refusal::{Fault, Refusal, Stop};
use admission::{AdmitStop, Checked, admit};
use ir_module::Places;
use ir_reader::Parsed;
use std::alloc::Global;

/// A module that was admitted, with the places of its spots.
#[derive(Drop)]
pub(crate) struct Admitted {
    pub(crate) checked: Checked,
    pub(crate) places: Places,
}

/// Reads and admits the module that a text spells, of at most 4,194,304 bytes.
pub(crate) fn admit_text(alloc: Global, text: &[u8]) -> Result<Admitted, Stop>
    requires { length text.now ≤ limit }
    ensures meets { Meets (AdmitsText text.now) (given_of result) }
    ensures places { IfOk result (λ a. ArePlaces a.checked.tree a.places) }
    ensures printable { IfOk result (λ a. IsPrintable a.checked.tree) }
{
    let parsed = ir_reader::read(alloc, text)?;
    admit_module(alloc, parsed)
}

/// Admits a module that was read.
fn admit_module(alloc: Global, parsed: Parsed) -> Result<Admitted, Stop>
    requires numbered { Numbered parsed.module }
    requires placed { map (λ p. p.0) parsed.places ≡ spots parsed.module }
    ensures { Meets (spec.Admits parsed) (given_of result) }
{
    let Parsed { module, places } = parsed;
    match admit(alloc, module) {
        Ok(checked) => Ok(Admitted { checked, places }),
        Err(why) => Err(stop_at(&places, why)),
    }
}

/// What stops the command, with its place.
fn stop_at(places: &Places, why: AdmitStop) -> Stop
    requires { IsPlaced places.now why }
    ensures { result ≡ admit_stop places.now why }
{
    match why {
        AdmitStop::Refused {
            code,
            spot,
            module: _,
        } => Stop::Refused(Refusal {
            fault: Fault::Rule(code),
            place: places.of(spot),
        }),
        AdmitStop::Memory { module: _ } => Stop::Memory,
    }
}
