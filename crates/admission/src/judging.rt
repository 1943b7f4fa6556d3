//! Admission of modules.
ghost use Rattle.std.specs.Prelude.{◌≡◌, IfOk, IfErr};
ghost use Rattle.ir_module.specs.Numbered.{Numbered};
ghost use Rattle.type_check.specs.Faults.{Typed};
ghost use Rattle.admission.specs.Admitted.{greatest_required};
ghost use Rattle.admission.specs.code.Judged.{Judges};
ghost use Rattle.admission.specs.Stops.{StopsAt};

use crate::checked::Checked;
use crate::stop::AdmitStop;
use crate::tables::{GREATEST_REQUIRED, Tables, tables_of};
use ir_module::{Module, Spot};
use ir_values::Memory;
use std::alloc::Global;
use type_check::{TypeCode, first_fault};

/// What a module comes to: its tables, or its first fault.
#[derive(Drop)]
pub(crate) enum Verdict {
    Typed(Tables),
    Faulty(Spot, TypeCode),
}

fn judge(alloc: Global, m: &Module) -> Result<Verdict, Memory>
    requires { Numbered m.now }
    ensures { IfOk result (λ verdict. Judges m.now verdict) }
{
    match first_fault(alloc, m, GREATEST_REQUIRED)? {
        Some((spot, code)) => Ok(Verdict::Faulty(spot, code)),
        None => Ok(Verdict::Typed(tables_of(alloc, m)?)),
    }
}

/// Admits a module whose numbers and names are in order, where it keeps every rule and required numbers
/// are 1,000,000,000 at most. Else it is handed back with the first rule that it breaks: faults on the
/// entry come last, and of the others the first in the order of spots, and at one spot the rule with
/// the least number. Memory hands it back too.
pub fn admit(alloc: Global, m: Module) -> Result<Checked, AdmitStop>
    requires { Numbered m }
    ensures admitted { IfOk result (λ c. c.tree ≡ m) }
    ensures typed { IfOk result (λ c. Typed m greatest_required) }
    ensures stopped { IfErr result (λ stop. StopsAt m stop) }
{
    match judge(alloc, &m) {
        Ok(Verdict::Typed(tables)) => Ok(Checked::new(m, tables)),
        Ok(Verdict::Faulty(spot, code)) => Err(AdmitStop::Refused {
            code,
            spot,
            module: m,
        }),
        Err(Memory) => Err(AdmitStop::Memory { module: m }),
    }
}
