//! Instructions on integers, and `select`.
ghost use Rattle.std.specs.Prelude.{◌≡◌, ◌+◌, ◌<◌, ◌^◌, ◌∷◌, [], IfOk, if◌then◌else◌};
ghost use Rattle.ir_module.specs.declared.tree.InstKind.TheVariants as kind;
ghost use Rattle.ir_module.specs.declared.tree.Module.{Module};
ghost use Rattle.ir_module.specs.declared.tree.Operand.{Operand as Source};
ghost use Rattle.ir_values.specs.declared.value.Value.TheVariants as value;
ghost use Rattle.ir_values.specs.declared.ty.Ty.{Ty as AnyTy};
ghost use Rattle.ir_values.specs.declared.ty.Ty.TheVariants as ty;
ghost use Rattle.machine_frames.specs.Frames.{Moves};
ghost use Rattle.machine_frames.specs.code.Apt as spec;
ghost use Rattle.machine_frames.specs.code.Apt.{does_apt};
ghost use Rattle.qir_meaning.specs.Effects as effects;

use crate::flow::Flow;
use crate::frames::Frames;
use crate::values::{is_one, value_of};
use ir_module::{InstKind, Operand};
use ir_values::{
    BinOp, Cause, Conv, Copies, Flags, Int, LocalId, Memory, Pred, Ty, Value, Width, binary,
    compare, convert,
};
use std::alloc::Global;

/// A bit as an integer.
pub fn bit_int(bit: bool) -> Int
    ensures { value.Int result ≡ effects.bit_value bit }
{
    match Int::new(Width::W1, u64::from(bit)) {
        Some(i) => i,
        None => unreachable!(),
    }
}

fn same_width(a: Width, b: Width) -> bool
    ensures { result ≡ spec.same_width a b }
{
    a.bits() == b.bits()
}

impl Frames {
    /// A binary instruction on the operands, whose result is that of the name.
    fn binary(
        &mut self,
        x: Option<LocalId>,
        op: BinOp,
        flags: Flags,
        a: &Operand,
        b: &Operand,
    ) -> Flow
        requires { self.old.at.index + 1 < 2 ^ 64 }
        ensures { (m : Module) (t : AnyTy) → Moves self.old self.new result
            (λ st. does_apt m self.old.at self.old.env st x (kind.Binary op flags t a.now b.now)) }
    {
        let Some(v) = value_of(&self.env, a) else {
            return Flow::traps(Cause::Unbound);
        };
        let Some(w) = value_of(&self.env, b) else {
            return Flow::traps(Cause::Unbound);
        };
        match (v, w) {
            (Value::Int(i), Value::Int(j)) => {
                let (i, j) = (*i, *j);
                self.binary_ints(x, op, flags, i, j)
            }
            _ => Flow::Lost,
        }
    }

    #[tactic(auto, using(crate::proofs::Widths::same_bits))]
    fn binary_ints(&mut self, x: Option<LocalId>, op: BinOp, flags: Flags, i: Int, j: Int) -> Flow
        requires { self.old.at.index + 1 < 2 ^ 64 }
        ensures { (m : Module) (t : AnyTy) (a b : Source) → Moves self.old self.new result
            (λ st. spec.performs_apt m self.old.at self.old.env st x (kind.Binary op flags t a b)
            (value.Int i ∷ value.Int j ∷ [])) }
    {
        if !(same_width(i.width(), j.width()) && op.allows(flags)) {
            return Flow::Lost;
        }
        match binary(op, flags, i, j) {
            Ok(number) => self.give(x, Value::Int(number)),
            Err(why) => Flow::traps(why),
        }
    }

    /// A comparison of the operands, whose result is that of the name.
    fn icmp(&mut self, x: Option<LocalId>, pred: Pred, a: &Operand, b: &Operand) -> Flow
        requires { self.old.at.index + 1 < 2 ^ 64 }
        ensures { (m : Module) (t : AnyTy) → Moves self.old self.new result
            (λ st. does_apt m self.old.at self.old.env st x (kind.Icmp pred t a.now b.now)) }
    {
        let Some(v) = value_of(&self.env, a) else {
            return Flow::traps(Cause::Unbound);
        };
        let Some(w) = value_of(&self.env, b) else {
            return Flow::traps(Cause::Unbound);
        };
        match (v, w) {
            (Value::Int(i), Value::Int(j)) => {
                let (i, j) = (*i, *j);
                self.icmp_ints(x, pred, i, j)
            }
            _ => Flow::Lost,
        }
    }

    #[tactic(auto, using(crate::proofs::Widths::same_bits))]
    fn icmp_ints(&mut self, x: Option<LocalId>, pred: Pred, i: Int, j: Int) -> Flow
        requires { self.old.at.index + 1 < 2 ^ 64 }
        ensures { (m : Module) (t : AnyTy) (a b : Source) → Moves self.old self.new result
            (λ st. spec.performs_apt m self.old.at self.old.env st x (kind.Icmp pred t a b)
            (value.Int i ∷ value.Int j ∷ [])) }
    {
        if !same_width(i.width(), j.width()) {
            return Flow::Lost;
        }
        self.give(x, Value::Int(bit_int(compare(pred, i, j))))
    }

    /// A conversion of the operand to a type, whose result is that of the name.
    fn convert(&mut self, x: Option<LocalId>, conv: Conv, a: &Operand, to: &Ty) -> Flow
        requires { self.old.at.index + 1 < 2 ^ 64 }
        ensures { (m : Module) (t : AnyTy) → Moves self.old self.new result
            (λ st. does_apt m self.old.at self.old.env st x (kind.Convert conv t a.now to.now)) }
    {
        let Some(v) = value_of(&self.env, a) else {
            return Flow::traps(Cause::Unbound);
        };
        match (v, to) {
            (Value::Int(i), Ty::Int(width)) => {
                let i = *i;
                self.convert_int(x, conv, i, *width)
            }
            _ => Flow::Lost,
        }
    }

    fn convert_int(&mut self, x: Option<LocalId>, conv: Conv, i: Int, to: Width) -> Flow
        requires { self.old.at.index + 1 < 2 ^ 64 }
        ensures { (m : Module) (t : AnyTy) (a : Source) → Moves self.old self.new result
            (λ st. spec.performs_apt m self.old.at self.old.env st x
            (kind.Convert conv t a (ty.Int to)) (value.Int i ∷ [])) }
    {
        if !conv.leads(i.width(), to) {
            return Flow::Lost;
        }
        self.give(x, Value::Int(convert(conv, i, to)))
    }

    /// A choice of one of two operands by a condition, which is the value of the name.
    fn select(
        &mut self,
        alloc: Global,
        x: Option<LocalId>,
        condition: &Operand,
        a: &Operand,
        b: &Operand,
    ) -> Result<Flow, Memory>
        requires { self.old.at.index + 1 < 2 ^ 64 }
        ensures { IfOk result (λ flow. (m : Module) (t u : AnyTy) → Moves self.old self.new flow
            (λ st. does_apt m self.old.at self.old.env st x
            (kind.Select condition.now t a.now u b.now))) }
    {
        let Some(c) = value_of(&self.env, condition) else {
            return Ok(Flow::traps(Cause::Unbound));
        };
        let Some(v) = value_of(&self.env, a) else {
            return Ok(Flow::traps(Cause::Unbound));
        };
        let Some(w) = value_of(&self.env, b) else {
            return Ok(Flow::traps(Cause::Unbound));
        };
        match c {
            Value::Int(i) => {
                let chosen = chosen(alloc, *i, v, w)?;
                Ok(self.give(x, chosen))
            }
            _ => Ok(Flow::Lost),
        }
    }
}

impl Frames {
    /// An instruction that is no call, whose result is that of the name.
    pub fn compute(
        &mut self,
        alloc: Global,
        x: Option<LocalId>,
        what: &InstKind,
    ) -> Result<Flow, Memory>
        requires place { self.old.at.index + 1 < 2 ^ 64 }
        requires no_call { spec.IsNoCall what.now }
        ensures { IfOk result (λ flow. (m : Module) → Moves self.old self.new flow
            (λ st. does_apt m self.old.at self.old.env st x what.now)) }
    {
        match what {
            InstKind::Binary(op, flags, _, a, b) => Ok(self.binary(x, *op, *flags, a, b)),
            InstKind::Icmp(pred, _, a, b) => Ok(self.icmp(x, *pred, a, b)),
            InstKind::Convert(conv, _, a, to) => Ok(self.convert(x, *conv, a, to)),
            InstKind::Select(condition, _, a, _, b) => self.select(alloc, x, condition, a, b),
            InstKind::Call(..) => unreachable!(),
        }
    }
}

/// A copy of the first value where the integer is one, and else of the second.
fn chosen(alloc: Global, i: Int, v: &Value, w: &Value) -> Result<Value, Memory>
    ensures { IfOk result (λ u. u ≡ (if effects.is_one i then v.now else w.now)) }
{
    if is_one(i) {
        v.copy(alloc)
    } else {
        w.copy(alloc)
    }
}
