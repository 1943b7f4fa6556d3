//! The cases of a switch.
ghost use Rattle.std.specs.Prelude.{◌≡◌, IfOk};
ghost use Rattle.ir_module.specs.Steps.{TermAt};
ghost use Rattle.type_check.specs.code.Cases.{key, differ_from};
ghost use Rattle.type_check.specs.Rules as rule;

use indexmap::IndexSet;
use ir_module::Term;
use ir_values::{BlockId, Int, Memory};
use std::alloc::Global;

/// The width in bits and the bits, which tell an integer from others.
fn key(i: &Int) -> (u32, u64)
    ensures { result ≡ key i.now }
{
    (i.width().bits(), i.bits())
}

/// Whether the integers of the cases differ from these and from one another.
fn differ_from(mut seen: IndexSet<(u32, u64)>, mut cases: &[(Int, BlockId)]) -> Result<bool, Memory>
    ensures { IfOk result (λ differ. differ ≡ differ_from seen.keys cases.entry.now) }
{
    while let [case, rest @ ..] = cases {
        if !seen.insert(key(&case.0))? {
            return Ok(false);
        }
        cases = rest;
    }
    Ok(true)
}

/// Whether no two of the cases are equal. It goes over them once.
#[tactic(auto, using(crate::proofs::CasesDiffer::distinct))]
fn are_distinct(alloc: Global, cases: &[(Int, BlockId)]) -> Result<bool, Memory>
    ensures { IfOk result (λ distinct. distinct ≡ rule.are_distinct cases.now) }
{
    differ_from(IndexSet::new(alloc), cases)
}

/// Whether no two cases of the terminator are equal.
#[tactic(auto, unfolding(crate::specs::Rules::cases_differ))]
pub(crate) fn cases_differ(alloc: Global, term: &Term) -> Result<bool, Memory>
    ensures { IfOk result (λ differ. differ ≡ rule.cases_differ (TermAt term.now)) }
{
    match term {
        Term::Switch(_, _, _, cases) => are_distinct(alloc, cases.as_slice()),
        _ => Ok(true),
    }
}
