//! Rules that are broken at a spot.
ghost use Rattle.std.specs.Prelude.{◌≡◌, ◌++◌, OnOk};
ghost use Rattle.profile_rules.specs.code.Listed.{findings_at};
ghost use Rattle.profile_rules.specs.Findings.{broken};

use ir_module::Spot;
use ir_values::Memory;
use profile_rules::{Finding, Findings};

/// The number of a rule, and whether it is broken.
pub type Verdict = (u8, bool);

/// Adds the rules that are broken at a spot, in their order.
pub fn tell(found: &mut Findings, spot: Spot, mut verdicts: &[Verdict]) -> Result<(), Memory>
    ensures { OnOk result (found.new ≡ found.old ++ findings_at spot (broken (λ b. b) verdicts.entry.now)) }
{
    while let [(rule, is_broken), rest @ ..] = verdicts {
        if *is_broken {
            found.push(Finding { spot, rule: *rule })?;
        }
        verdicts = rest;
    }
    Ok(())
}
