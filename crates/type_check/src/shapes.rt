//! What a step asks of types beside those of its operands, and of the blocks that it leads to.
ghost use Rattle.std.specs.Prelude.{◌≡◌, ◌∷◌, ◌++◌, ◌&&◌, [], map, not, is_some};
ghost use Rattle.std.specs.List.{list_all};
ghost use Rattle.ir_module.specs.Edges.{edges};
ghost use Rattle.ir_module.specs.Numbered.{is_int, is_void};
ghost use Rattle.ir_values.specs.declared.ty.Ty.TheVariants as ty;
ghost use Rattle.type_check.specs.Rules as rule;
ghost use Rattle.type_check.specs.Typing as typing;

use crate::scene::{Scene, same_type};
use ir_module::{Inst, InstKind, Phi, Term};
use ir_values::{BlockId, Int, LocalId, Ty, Width};

fn is_int(t: &Ty) -> bool
    ensures { result ≡ is_int t.now }
{
    matches!(t, Ty::Int(_))
}

fn is_void(t: &Ty) -> bool
    ensures { result ≡ is_void t.now }
{
    matches!(t, Ty::Void)
}

/// Whether the types that are written in the instruction may stand there.
fn kind_agrees(what: &InstKind) -> bool
    ensures { result ≡ rule.kind_agrees what.now }
{
    match what {
        InstKind::Binary(_, _, t, _, _) | InstKind::Icmp(_, t, _, _) => is_int(t),
        InstKind::Convert(c, Ty::Int(from), _, Ty::Int(to)) => c.leads(*from, *to),
        InstKind::Convert(_, _, _, _) => false,
        InstKind::Select(_, t, _, u, _) => same_type(t, u),
        InstKind::Call(_, _, _) => true,
    }
}

/// Whether each case has the type.
fn cases_have(t: &Ty, mut cases: &[(Int, BlockId)]) -> bool
    ensures { result ≡ list_all (λ c. typing.same_type (ty.Int c.0.width) t.now) cases.entry.now }
{
    while let [(i, _), rest @ ..] = cases {
        if !same_type(&Ty::Int(i.width()), t) {
            return false;
        }
        cases = rest;
    }
    true
}

/// Whether none of these cases leads to the first block.
fn cases_keep_first(mut cases: &[(Int, BlockId)], default: BlockId) -> bool
    ensures { result ≡ list_all (λ to. not (rule.is_first to)) (map (λ c. c.1) cases.entry.now ++ default ∷ []) }
{
    while let [(_, to), rest @ ..] = cases {
        if to.0 == 0 {
            return false;
        }
        cases = rest;
    }
    default.0 != 0
}

/// Whether no edge of the terminator leads to the first block.
pub(crate) fn keeps_first(term: &Term) -> bool
    ensures { result ≡ list_all (λ to. not (rule.is_first to)) (edges term.now) }
{
    match term {
        Term::RetVoid | Term::Ret(_, _) => true,
        Term::Br(to) => to.0 != 0,
        Term::CondBr(_, yes, no) => yes.0 != 0 && no.0 != 0,
        Term::Switch(_, _, default, cases) => cases_keep_first(cases.as_slice(), *default),
    }
}

impl<'a> Scene<'a> {
    /// Whether a name has the type of what it names; what is void has none.
    fn result_agrees(&self, name: Option<LocalId>, t: &Ty) -> bool
        ensures { result ≡ rule.result_agrees self.now.function.now name t.now }
    {
        match name {
            None => true,
            Some(x) => self.local_has(x, t) && !is_void(t),
        }
    }

    fn gives_type(&self, inst: &Inst) -> bool
        ensures { result ≡ rule.result_agrees self.now.function.now inst.now.result (typing.result_type inst.now.what) }
    {
        match &inst.what {
            InstKind::Binary(_, _, t, _, _) | InstKind::Select(_, t, _, _, _) => self.result_agrees(
                inst.result,
                t,
            ),
            InstKind::Icmp(_, _, _, _) => self.result_agrees(inst.result, &Ty::Int(Width::W1)),
            InstKind::Convert(_, _, _, to) => self.result_agrees(inst.result, to),
            InstKind::Call(ret, _, _) => self.result_agrees(inst.result, ret),
        }
    }

    /// What an instruction asks of types beside those of its operands.
    pub(crate) fn inst_shape(&self, inst: &Inst) -> bool
        ensures { result ≡ (rule.kind_agrees inst.now.what && rule.result_agrees self.now.function.now inst.now.result (typing.result_type inst.now.what)) }
    {
        kind_agrees(&inst.what) && self.gives_type(inst)
    }

    /// What a terminator asks of types beside those of its operand.
    pub(crate) fn term_shape(&self, term: &Term) -> bool
        ensures { result ≡ rule.term_agrees self.now.function.now term.now }
    {
        match term {
            Term::RetVoid => is_void(&self.function.ret),
            Term::Ret(t, _) => same_type(t, &self.function.ret),
            Term::Br(_) | Term::CondBr(_, _, _) => true,
            Term::Switch(t, _, _, cases) => is_int(t) && cases_have(t, cases.as_slice()),
        }
    }

    /// Whether the result of a phi has a type.
    pub(crate) fn phi_shape(&self, phi: &Phi) -> bool
        ensures { result ≡ is_some (typing.local_type self.now.function.now phi.now.result) }
    {
        self.local(phi.result).is_some()
    }
}
