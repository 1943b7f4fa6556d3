//! Types of operands.
ghost use Rattle.std.specs.Prelude.{◌≡◌, slice_get, option_copied};
ghost use Rattle.ir_values.specs.declared.value.Value.TheVariants as value;
ghost use Rattle.ir_values.specs.Calls as calls;
ghost use Rattle.ir_module.specs.Operands.{callee_operand};
ghost use Rattle.type_check.specs.code.Operands.{IsTold};
ghost use Rattle.type_check.specs.Rules.{is_known};
ghost use Rattle.type_check.specs.Typing as spec;

use crate::signatures::Signature;
use crate::words::is_call;
use ir_module::{Callee, Function, Module, Operand};
use ir_values::{Exact, FuncId, LocalId, Name, Sig, Ty, Value};

/// A function of a module, with the types of the module's functions.
#[derive(Clone, Copy)]
pub(crate) struct Scene<'a> {
    pub(crate) tree: &'a Module,
    pub(crate) signatures: &'a [Signature],
    pub(crate) function: &'a Function,
}

/// Whether two types are one.
pub(crate) fn same_type(a: &Ty, b: &Ty) -> bool
    ensures { result ≡ spec.same_type a.now b.now }
{
    a.same(b)
}

fn same_words(a: &Sig, b: &Sig) -> bool
    ensures { result ≡ calls.same_words a.now b.now }
{
    a.same(b)
}

/// Whether the type is that of the functions that give `ret` and take these arguments.
#[tactic(auto, unfolding(crate::specs::Typing::same_type))]
fn is_callee_type(own: &Ty, ret: &Ty, args: &[(Ty, Operand)]) -> bool
    ensures { result ≡ spec.same_type own.now (spec.callee_type ret.now args.now) }
{
    match own {
        Ty::Func(sig) => is_call(sig, ret, args),
        _ => false,
    }
}

impl<'a> Scene<'a> {
    fn signature(&self, g: FuncId) -> Option<&Signature>
        ensures { option_copied result ≡ slice_get self.now.signatures.now g.0 }
    {
        self.signatures.get(g.0 as usize)
    }

    /// The name and the type of a local name.
    pub(crate) fn local(&self, x: LocalId) -> Option<&(Name, Ty)>
        ensures { option_copied result ≡ slice_get self.now.function.now.locals x.0 }
    {
        self.function.locals.as_slice().get(x.0 as usize)
    }

    /// Whether the function of this number has the type.
    fn function_has(&self, g: FuncId, sig: &Sig) -> bool
        requires { IsTold self.now }
        ensures { result ≡ spec.has_words (slice_get self.now.tree.now.funcs g.0) sig.now }
    {
        match self.signature(g) {
            Some(own) => same_words(&own.words, sig),
            None => false,
        }
    }

    /// Whether the constant has the type.
    fn constant_has(&self, v: &Value, t: &Ty) -> bool
        requires { IsTold self.now }
        ensures { result ≡ spec.constant_has self.now.tree.now v.now t.now }
    {
        match (v, t) {
            (Value::Int(i), Ty::Int(w)) => i.width().bits() == w.bits(),
            (Value::Double(_), Ty::Double) => true,
            (Value::Id(_), Ty::Qubit | Ty::Res) => true,
            (Value::Alloc(_), Ty::Qubit) => true,
            (Value::Measured(_) | Value::One | Value::Zero, Ty::Res) => true,
            (Value::Label(_) | Value::NoLabel, Ty::Text) => true,
            (Value::Func(g), Ty::Func(sig)) => self.function_has(*g, sig),
            _ => false,
        }
    }

    /// Whether the name has the type.
    pub(crate) fn local_has(&self, x: LocalId, t: &Ty) -> bool
        ensures { result ≡ spec.is_of_type (spec.local_type self.now.function.now x) t.now }
    {
        match self.local(x) {
            Some((_, own)) => same_type(own, t),
            None => false,
        }
    }

    /// Whether the operand has the type.
    pub(crate) fn operand_has(&self, a: &Operand, t: &Ty) -> bool
        requires { IsTold self.now }
        ensures { result ≡ spec.operand_has self.now.tree.now self.now.function.now a.now t.now }
    {
        match a {
            Operand::Const(v) => self.constant_has(v, t),
            Operand::Local(x) => self.local_has(*x, t),
        }
    }

    /// Whether the function has the type of those that give `ret` and take these arguments.
    fn function_is_called(&self, g: FuncId, ret: &Ty, args: &[(Ty, Operand)]) -> bool
        requires { IsTold self.now }
        ensures { result ≡ spec.constant_has self.now.tree.now (value.Func g) (spec.callee_type ret.now args.now) }
    {
        match self.signature(g) {
            Some(own) => is_call(&own.words, ret, args),
            None => false,
        }
    }

    fn local_is_called(&self, x: LocalId, ret: &Ty, args: &[(Ty, Operand)]) -> bool
        ensures { result ≡ spec.is_of_type (spec.local_type self.now.function.now x) (spec.callee_type ret.now args.now) }
    {
        match self.local(x) {
            Some((_, own)) => is_callee_type(own, ret, args),
            None => false,
        }
    }

    /// Whether the callee has the type of the functions that give `ret` and take these arguments.
    pub(crate) fn callee_has(&self, callee: &Callee, ret: &Ty, args: &[(Ty, Operand)]) -> bool
        requires { IsTold self.now }
        ensures { result ≡ spec.operand_has self.now.tree.now self.now.function.now (callee_operand callee.now) (spec.callee_type ret.now args.now) }
    {
        match callee {
            Callee::Func(g) => self.function_is_called(*g, ret, args),
            Callee::Local(x) => self.local_is_called(*x, ret, args),
        }
    }

    /// Whether the function has a body or a class, or there is none of this number.
    pub(crate) fn is_known(&self, g: FuncId) -> bool
        requires { IsTold self.now }
        ensures { result ≡ is_known (slice_get self.now.tree.now.funcs g.0) }
    {
        match self.signature(g) {
            Some(own) => own.known,
            None => true,
        }
    }
}
