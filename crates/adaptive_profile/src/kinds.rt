//! Tests on instructions and terminators.
ghost use Rattle.std.specs.Prelude.{◌≡◌, not, option_copied, slice_get};
ghost use Rattle.ir_values.specs.Values.{is_bitwise};
ghost use Rattle.ir_module.specs.Numbered.{is_int};
ghost use Rattle.ir_module.specs.Steps.{TermAt};
ghost use Rattle.profile_rules.specs.Adaptive as spec;
ghost use Rattle.profile_rules.specs.Walk as walk;

use ir_module::{Function, InstKind, Term};
use ir_values::{BinOp, LocalId, Name, Ty, Width};

fn is_int(t: &Ty) -> bool
    ensures { result ≡ is_int t.now }
{
    matches!(t, Ty::Int(_))
}

fn is_boolean(t: &Ty) -> bool
    ensures { result ≡ spec.is_boolean t.now }
{
    matches!(t, Ty::Int(Width::W1))
}

fn is_wide(t: &Ty) -> bool
    ensures { result ≡ spec.is_wide t.now }
{
    is_int(t) && !is_boolean(t)
}

fn is_bitwise(op: BinOp) -> bool
    ensures { result ≡ is_bitwise op }
{
    matches!(op, BinOp::And | BinOp::Or | BinOp::Xor)
}

/// Whether it is an instruction on integers, or a choice between integers, that isn't free.
pub(crate) fn computes(what: &InstKind) -> bool
    ensures { result ≡ spec.kind_computes what.now }
{
    match what {
        InstKind::Binary(op, _, t, _, _) => !(is_boolean(t) && is_bitwise(*op)),
        InstKind::Icmp(_, t, _, _) => !is_boolean(t),
        InstKind::Convert(_, _, _, _) => true,
        InstKind::Select(_, t, _, _, _) => is_wide(t),
        InstKind::Call(_, _, _) => false,
    }
}

/// Whether it chooses between values that aren't integers.
pub(crate) fn selects_other(what: &InstKind) -> bool
    ensures { result ≡ spec.kind_selects_other what.now }
{
    match what {
        InstKind::Select(_, t, _, _, _) => !is_int(t),
        InstKind::Binary(_, _, _, _, _)
        | InstKind::Icmp(_, _, _, _)
        | InstKind::Convert(_, _, _, _)
        | InstKind::Call(_, _, _) => false,
    }
}

fn local(f: &Function, x: LocalId) -> Option<&(Name, Ty)>
    ensures { option_copied result ≡ slice_get f.now.locals x.0 }
{
    f.locals.as_slice().get(x.0 as usize)
}

/// Whether the local name is an integer of more than one bit.
pub(crate) fn is_wide_local(f: &Function, x: LocalId) -> bool
    ensures { result ≡ spec.type_of_local f.now x spec.is_wide }
{
    match local(f, x) {
        Some((_, t)) => is_wide(t),
        None => false,
    }
}

/// Whether the local name is no integer.
pub(crate) fn is_other_local(f: &Function, x: LocalId) -> bool
    ensures { result ≡ spec.type_of_local f.now x (λ t. not (is_int t)) }
{
    match local(f, x) {
        Some((_, t)) => !is_int(t),
        None => false,
    }
}

pub(crate) fn is_switch(term: &Term) -> bool
    ensures { result ≡ spec.is_switch (TermAt term.now) }
{
    matches!(term, Term::Switch(_, _, _, _))
}

pub(crate) fn is_return(term: &Term) -> bool
    ensures { result ≡ walk.is_return term.now }
{
    matches!(term, Term::RetVoid | Term::Ret(_, _))
}
