//! Operands of the printed module.
ghost use Rattle.std.specs.Prelude.{◌≡◌, true, map, IfOk};
ghost use Rattle.std.specs.List.{list_all};
ghost use Rattle.kept_items.specs.declared.val.Val.TheVariants.{Known};
ghost use Rattle.residue.specs.Instructions.{named_value, operand_of, typed_operand};
ghost use Rattle.residue_module.specs.code.Edges.{argument_at};
ghost use Rattle.residue_module.specs.code.Scenes.{are_small, at, is_small};

use crate::printer::Printer;
use ir_module::{CallArgs, Operand};
use ir_values::{Copies, Memory, Seq, Ty, Value};
use kept_items::Val;
use residue::Vals;
use std::alloc::Global;

impl<'a> Printer<'a> {
    /// A known value: a qubit or result of the run has a fixed number in the module.
    pub(crate) fn value(&self, alloc: Global, value: &Value) -> Result<Value, Memory>
        requires { is_small (at self.now) (Known value.now) ≡ true }
        ensures { IfOk result (λ v. v ≡ named_value (at self.now) value.now) }
    {
        match value {
            Value::Alloc(number) => Ok(Value::Id(self.qubits + *number)),
            Value::Measured(number) => Ok(Value::Id(self.results + *number)),
            _ => value.copy(alloc),
        }
    }

    /// The operand that a value is.
    pub(crate) fn operand(&self, alloc: Global, val: &Val) -> Result<Operand, Memory>
        requires { is_small (at self.now) val.now ≡ true }
        ensures { IfOk result (λ o. o ≡ operand_of (at self.now) val.now) }
    {
        match val {
            Val::Known(value) => Ok(Operand::Const(self.value(alloc, value)?)),
            Val::Dynamic(value) => Ok(Operand::Local(self.names.local(*value))),
        }
    }

    /// An argument of a call.
    fn argument(&self, alloc: Global, arg: &(Ty, Val)) -> Result<(Ty, Operand), Memory>
        requires { is_small (at self.now) arg.now.1 ≡ true }
        ensures { IfOk result (λ a. a ≡ typed_operand (at self.now) arg.now) }
    {
        let ty = arg.0.copy(alloc)?;
        let operand = self.operand(alloc, &arg.1)?;
        Ok((ty, operand))
    }

    /// The arguments of a call.
    pub(crate) fn arguments(
        &self,
        alloc: Global,
        mut args: &[(Ty, Val)],
    ) -> Result<CallArgs, Memory>
        requires { are_small (at self.now) args.now ≡ true }
        ensures { IfOk result (λ l. l ≡ map (typed_operand (at self.now)) args.entry.now) }
    {
        let mut operands = Seq::new(alloc);
        while let [arg, rest @ ..] = args {
            operands.push(self.argument(alloc, arg)?)?;
            args = rest;
        }
        Ok(operands)
    }

    /// The operand for the parameter of this number. A jump of a valid residue has one for each.
    pub(crate) fn taken(&self, alloc: Global, args: &Vals, index: usize) -> Result<Operand, Memory>
        requires { list_all (is_small (at self.now)) args.now ≡ true }
        ensures { IfOk result (λ o. o ≡ operand_of (at self.now) (argument_at args.now index)) }
    {
        if index < args.len() {
            self.operand(alloc, args.at(index))
        } else {
            Ok(Operand::Const(Value::NoLabel))
        }
    }
}
