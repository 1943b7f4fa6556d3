//! One traversal over the operands of a step, for all that the rules ask of them.
ghost use Rattle.std.specs.Prelude.{◌≡◌, ◌∷◌, [], map};
ghost use Rattle.ir_module.specs.Operands.{callee_operand};
ghost use Rattle.type_check.specs.code.Operands as spec;
ghost use Rattle.type_check.specs.Required.{qubit_numbers, result_numbers};
ghost use Rattle.type_check.specs.Rules.{operand_known};
ghost use Rattle.type_check.specs.Typing as typing;

use crate::scene::Scene;
use crate::seen::Seen;
use ir_module::{Callee, InstKind, Operand, Phi, Term};
use ir_values::{BlockId, Ty, Value, Width};

/// The number that is written as a qubit, if one is.
fn written_qubit(t: &Ty, a: &Operand) -> Option<u64>
    ensures { result ≡ spec.greatest (qubit_numbers (t.now, a.now)) }
{
    match (t, a) {
        (Ty::Qubit, Operand::Const(Value::Id(n))) => Some(*n),
        _ => None,
    }
}

/// The number that is written as a result, if one is.
fn written_result(t: &Ty, a: &Operand) -> Option<u64>
    ensures { result ≡ spec.greatest (result_numbers (t.now, a.now)) }
{
    match (t, a) {
        (Ty::Res, Operand::Const(Value::Id(n))) => Some(*n),
        _ => None,
    }
}

impl<'a> Scene<'a> {
    fn operand_known(&self, a: &Operand) -> bool
        requires { spec.IsTold self.now }
        ensures { result ≡ operand_known self.now.tree.now a.now }
    {
        match a {
            Operand::Const(Value::Func(g)) => self.is_known(*g),
            _ => true,
        }
    }

    fn callee_known(&self, callee: &Callee) -> bool
        requires { spec.IsTold self.now }
        ensures { result ≡ operand_known self.now.tree.now (callee_operand callee.now) }
    {
        match callee {
            Callee::Func(g) => self.is_known(*g),
            Callee::Local(_) => true,
        }
    }

    #[tactic(auto, unfolding(crate::specs::code::Operands::seen_one))]
    fn operand(&self, t: &Ty, a: &Operand) -> Seen
        requires { spec.IsTold self.now }
        ensures { result ≡ spec.seen_one self.now.tree.now self.now.function.now (t.now, a.now) }
    {
        Seen {
            types: self.operand_has(a, t),
            known: self.operand_known(a),
            qubit: written_qubit(t, a),
            result: written_result(t, a),
        }
    }

    #[tactic(auto, unfolding(crate::specs::code::Operands::seen_one))]
    fn callee(&self, ret: &Ty, callee: &Callee, args: &[(Ty, Operand)]) -> Seen
        requires { spec.IsTold self.now }
        ensures { result ≡ spec.seen_one self.now.tree.now self.now.function.now (typing.callee_type ret.now args.now, callee_operand callee.now) }
    {
        Seen {
            types: self.callee_has(callee, ret, args),
            known: self.callee_known(callee),
            qubit: None,
            result: None,
        }
    }

    fn arg(&self, arg: &(Ty, Operand)) -> Seen
        requires { spec.IsTold self.now }
        ensures { result ≡ spec.seen_one self.now.tree.now self.now.function.now arg.now }
    {
        self.operand(&arg.0, &arg.1)
    }

    #[tactic(auto, using(crate::proofs::SeenLemmas::nothing_both))]
    fn args(&self, mut args: &[(Ty, Operand)]) -> Seen
        requires { spec.IsTold self.now }
        ensures { result ≡ spec.seen self.now.tree.now self.now.function.now args.entry.now }
    {
        let mut seen = Seen::nothing();
        while let [arg, rest @ ..] = args {
            seen = seen.and(self.arg(arg));
            args = rest;
        }
        seen
    }

    fn entry(&self, t: &Ty, entry: &(Operand, BlockId)) -> Seen
        requires { spec.IsTold self.now }
        ensures { result ≡ spec.seen_one self.now.tree.now self.now.function.now (t.now, entry.now.0) }
    {
        self.operand(t, &entry.0)
    }

    /// The operands of a phi whose result has the type `t`.
    #[tactic(auto, using(crate::proofs::SeenLemmas::nothing_both))]
    fn entries(&self, t: &Ty, mut entries: &[(Operand, BlockId)]) -> Seen
        requires { spec.IsTold self.now }
        ensures { result ≡ spec.seen self.now.tree.now self.now.function.now (map (λ e. (t.now, e.0)) entries.entry.now) }
    {
        let mut seen = Seen::nothing();
        while let [entry, rest @ ..] = entries {
            seen = seen.and(self.entry(t, entry));
            entries = rest;
        }
        seen
    }

    /// What is seen of the operands of a phi.
    pub(crate) fn phi(&self, phi: &Phi) -> Seen
        requires { spec.IsTold self.now }
        ensures { result ≡ spec.seen self.now.tree.now self.now.function.now (typing.phi_wants (typing.local_type self.now.function.now phi.now.result) phi.now) }
    {
        match self.local(phi.result) {
            Some((_, t)) => self.entries(t, phi.entries.as_slice()),
            None => Seen::nothing(),
        }
    }

    /// What is seen of the operands of an instruction.
    #[tactic(auto, using(crate::proofs::SeenLemmas::both_nothing))]
    pub(crate) fn inst(&self, what: &InstKind) -> Seen
        requires { spec.IsTold self.now }
        ensures { result ≡ spec.seen self.now.tree.now self.now.function.now (typing.inst_wants what.now) }
    {
        match what {
            InstKind::Binary(_, _, t, a, b) | InstKind::Icmp(_, t, a, b) => self.two(t, a, t, b),
            InstKind::Convert(_, t, a, _) => self.operand(t, a),
            InstKind::Select(c, t, a, u, b) => self.condition(c).and(self.two(t, a, u, b)),
            InstKind::Call(ret, callee, args) => self.call(ret, callee, args.as_slice()),
        }
    }

    #[tactic(auto, using(crate::proofs::SeenLemmas::both_nothing))]
    fn two(&self, t: &Ty, a: &Operand, u: &Ty, b: &Operand) -> Seen
        requires { spec.IsTold self.now }
        ensures { result ≡ spec.seen self.now.tree.now self.now.function.now ((t.now, a.now) ∷ (u.now, b.now) ∷ []) }
    {
        self.operand(t, a).and(self.operand(u, b))
    }

    fn condition(&self, c: &Operand) -> Seen
        requires { spec.IsTold self.now }
        ensures { result ≡ spec.seen_one self.now.tree.now self.now.function.now (typing.condition, c.now) }
    {
        self.operand(&Ty::Int(Width::W1), c)
    }

    fn call(&self, ret: &Ty, callee: &Callee, args: &[(Ty, Operand)]) -> Seen
        requires { spec.IsTold self.now }
        ensures { result ≡ spec.both (spec.seen_one self.now.tree.now self.now.function.now (typing.callee_type ret.now args.now, callee_operand callee.now)) (spec.seen self.now.tree.now self.now.function.now args.now) }
    {
        self.callee(ret, callee, args).and(self.args(args))
    }

    /// What is seen of the operand of a terminator, if it has one.
    #[tactic(auto, using(crate::proofs::SeenLemmas::both_nothing))]
    pub(crate) fn term(&self, term: &Term) -> Seen
        requires { spec.IsTold self.now }
        ensures { result ≡ spec.seen self.now.tree.now self.now.function.now (typing.term_wants term.now) }
    {
        match term {
            Term::RetVoid | Term::Br(_) => Seen::nothing(),
            Term::Ret(t, a) | Term::Switch(t, a, _, _) => self.operand(t, a),
            Term::CondBr(c, _, _) => self.condition(c),
        }
    }
}
