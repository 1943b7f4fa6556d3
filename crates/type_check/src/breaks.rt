//! The first rule that a step breaks.
ghost use Rattle.std.specs.Prelude.{◌≡◌, ℕ, IfOk};
ghost use Rattle.ir_module.specs.Steps.{PhiAt, InstAt, TermAt};
ghost use Rattle.ir_module.specs.Tree.{blocks_of};
ghost use Rattle.type_check.specs.code.Operands.{IsTold, seen_at};
ghost use Rattle.type_check.specs.code.Phis.{LeadInto};
ghost use Rattle.type_check.specs.code.Walk as spec;
ghost use Rattle.type_check.specs.Rules as rule;

use crate::cases::cases_differ;
use crate::code::TypeCode;
use crate::kept::Kept;
use crate::phis::entries_fit;
use crate::required::Required;
use crate::scene::Scene;
use crate::seen::Seen;
use crate::shapes::keeps_first;
use ir_module::{Inst, Phi, Term};
use ir_values::{FuncId, Memory};
use std::alloc::Global;

/// A function of a module, and the numbers that qubits and results have to be below, where the entry
/// is right and tells them.
#[derive(Clone, Copy)]
pub(crate) struct Walk<'a> {
    pub(crate) scene: Scene<'a>,
    pub(crate) number: FuncId,
    pub(crate) required: Option<Required>,
}

fn is_below(bound: u64, number: Option<u64>) -> bool
    ensures { result ≡ spec.is_below bound number }
{
    match number {
        Some(n) => n < bound,
        None => true,
    }
}

fn is_bounded(required: Option<Required>, seen: Seen) -> bool
    ensures { result ≡ spec.is_bounded required seen }
{
    match required {
        Some(k) => is_below(k.qubits, seen.qubit) && is_below(k.results, seen.result),
        None => true,
    }
}

fn operands_broken(required: Option<Required>, seen: Seen) -> Option<TypeCode>
    ensures { result ≡ spec.operands_broken required seen }
{
    if !is_bounded(required, seen) {
        Some(TypeCode::IdRange)
    } else if !seen.known {
        Some(TypeCode::UnknownDecl)
    } else {
        None
    }
}

/// The first rule that is broken, by those that are kept and what is seen of the operands.
#[tactic(auto, unfolding(crate::specs::code::Walk::broken_by))]
fn broken_by(required: Option<Required>, kept: Kept, seen: Seen) -> Option<TypeCode>
    ensures { result ≡ spec.broken_by required kept seen }
{
    if !kept.types {
        Some(TypeCode::Types)
    } else if !kept.entries {
        Some(TypeCode::PhiEntries)
    } else if !kept.first {
        Some(TypeCode::EntryBlock)
    } else if !kept.cases {
        Some(TypeCode::SwitchCase)
    } else {
        operands_broken(required, seen)
    }
}

impl<'a> Scene<'a> {
    fn phi_types(&self, phi: &Phi, seen: Seen) -> bool
        requires { seen ≡ seen_at self.now.tree.now self.now.function.now (PhiAt phi.now) }
        ensures { result ≡ rule.types_agree self.now.tree.now self.now.function.now (PhiAt phi.now) }
    {
        let shape = self.phi_shape(phi);
        seen.types && shape
    }

    fn inst_types(&self, inst: &Inst, seen: Seen) -> bool
        requires { seen ≡ seen_at self.now.tree.now self.now.function.now (InstAt inst.now) }
        ensures { result ≡ rule.types_agree self.now.tree.now self.now.function.now (InstAt inst.now) }
    {
        let shape = self.inst_shape(inst);
        seen.types && shape
    }

    fn term_types(&self, term: &Term, seen: Seen) -> bool
        requires { seen ≡ seen_at self.now.tree.now self.now.function.now (TermAt term.now) }
        ensures { result ≡ rule.types_agree self.now.tree.now self.now.function.now (TermAt term.now) }
    {
        let shape = self.term_shape(term);
        seen.types && shape
    }

    fn phi_kept(
        &self,
        alloc: Global,
        b: u32,
        into: &[(u32, u32)],
        phi: &Phi,
        seen: Seen,
    ) -> Result<Kept, Memory>
        requires told { IsTold self.now }
        requires seen { seen ≡ seen_at self.now.tree.now self.now.function.now (PhiAt phi.now) }
        requires into { LeadInto (blocks_of self.now.function.now) b into.now }
        ensures { IfOk result (λ r. r ≡ spec.kept_at self.now.tree.now self.now.function.now b (PhiAt phi.now)) }
    {
        let types = self.phi_types(phi, seen);
        let entries = entries_fit(alloc, into, phi.entries.as_slice())?;
        Ok(Kept {
            types,
            entries,
            first: b != 0,
            cases: true,
        })
    }

    fn inst_kept(&self, inst: &Inst, seen: Seen) -> Kept
        requires { seen ≡ seen_at self.now.tree.now self.now.function.now (InstAt inst.now) }
        ensures { (b : ℕ) → result ≡ spec.kept_at self.now.tree.now self.now.function.now b (InstAt inst.now) }
    {
        let types = self.inst_types(inst, seen);
        Kept {
            types,
            entries: true,
            first: true,
            cases: true,
        }
    }

    fn term_kept(&self, alloc: Global, term: &Term, seen: Seen) -> Result<Kept, Memory>
        requires { seen ≡ seen_at self.now.tree.now self.now.function.now (TermAt term.now) }
        ensures { IfOk result (λ r. (b : ℕ) → r ≡ spec.kept_at self.now.tree.now self.now.function.now b (TermAt term.now)) }
    {
        let types = self.term_types(term, seen);
        let cases = cases_differ(alloc, term)?;
        Ok(Kept {
            types,
            entries: true,
            first: keeps_first(term),
            cases,
        })
    }
}

impl<'a> Walk<'a> {
    /// The first rule that a phi of block `b` breaks, where these are the edges into the block.
    pub(crate) fn phi(
        &self,
        alloc: Global,
        b: u32,
        into: &[(u32, u32)],
        phi: &Phi,
    ) -> Result<Option<TypeCode>, Memory>
        requires told { IsTold self.now.scene }
        requires into { LeadInto (blocks_of self.now.scene.function.now) b into.now }
        ensures { IfOk result (λ r. r ≡ spec.breaks self.now b (PhiAt phi.now)) }
    {
        let seen = self.scene.phi(phi);
        let kept = self.scene.phi_kept(alloc, b, into, phi, seen)?;
        Ok(broken_by(self.required, kept, seen))
    }

    /// The first rule that an instruction of block `b` breaks.
    pub(crate) fn inst(&self, b: u32, inst: &Inst) -> Option<TypeCode>
        requires { IsTold self.now.scene }
        ensures { result ≡ spec.breaks self.now b (InstAt inst.now) }
    {
        let seen = self.scene.inst(&inst.what);
        let kept = self.scene.inst_kept(inst, seen);
        broken_by(self.required, kept, seen)
    }

    /// The first rule that the terminator of block `b` breaks.
    pub(crate) fn term(
        &self,
        alloc: Global,
        b: u32,
        term: &Term,
    ) -> Result<Option<TypeCode>, Memory>
        requires { IsTold self.now.scene }
        ensures { IfOk result (λ r. r ≡ spec.breaks self.now b (TermAt term.now)) }
    {
        let seen = self.scene.term(term);
        let kept = self.scene.term_kept(alloc, term, seen)?;
        Ok(broken_by(self.required, kept, seen))
    }
}
