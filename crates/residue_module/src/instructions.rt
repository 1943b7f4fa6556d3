//! The instructions of items.
ghost use Rattle.std.specs.Prelude.{◌≡◌, ◌∷◌, [], ◌++◌, ◌<◌, ◌+◌, ◌^◌, true, length, if◌then◌else◌, OnOk};
ghost use Rattle.std.specs.List.{list_all};
ghost use Rattle.ir_module.specs.declared.tree.InstKind.TheVariants as kind;
ghost use Rattle.ir_values.specs.declared.ty.Ty.TheVariants as ty;
ghost use Rattle.kept_items.specs.declared.item.Item.TheVariants as item;
ghost use Rattle.kept_items.specs.declared.val.Dyn.{Dyn};
ghost use Rattle.kept_items.specs.declared.val.Val.TheVariants.{Known};
ghost use Rattle.residue.specs.Instructions as spec;
ghost use Rattle.residue.specs.Printed.{names_of_items};
ghost use Rattle.residue.specs.Scopes.{item_uses, items_of};
ghost use Rattle.residue_module.specs.code.Bodies.{Adds, Prints, PrintsAll};
ghost use Rattle.residue_module.specs.code.Lines.{PrintsLine, line_item, line_names, line_small};
ghost use Rattle.residue_module.specs.code.Scenes.{HasFew, are_small, at, is_small};

use crate::body::Body;
use crate::printer::Printer;
use called_functions::{record_name, text};
use ir_module::{CallArgs, Callee, InstKind, Operand};
use ir_values::{BinOp, Bytes, Class, Conv, Flags, Int, LocalId, Memory, Pred, Ty, Value, Width};
use kept_items::{Item, TypedVals, Val};
use residue::Line;
use std::alloc::Global;

/// A bit as an operand.
fn bit(one: bool) -> Operand
    ensures { result ≡ spec.bit (if one then 1 else 0) }
{
    match Int::new(Width::W1, u64::from(one)) {
        Some(int) => Operand::Const(Value::Int(int)),
        None => unreachable!(),
    }
}

/// One side of a comparison of two results: the local name of this number, or the constant.
fn side_operand(name: u64, value: &Value) -> Operand
    ensures { result ≡ spec.side_operand name value.now }
{
    match value {
        Value::One => bit(true),
        Value::Zero => bit(false),
        _ => Operand::Local(LocalId(name)),
    }
}

impl<'a> Printer<'a> {
    /// Adds an operation on two integers.
    fn binary(
        &self,
        alloc: Global,
        body: &mut Body,
        op: BinOp,
        flags: Flags,
        width: Width,
        left: &Val,
        right: &Val,
    ) -> Result<(), Memory>
        requires room { body.old.next + 1 < 2 ^ 64 }
        requires left { is_small (at self.now) left.now ≡ true }
        requires right { is_small (at self.now) right.now ≡ true }
        ensures { OnOk result (Adds (spec.defining body.old.next (kind.Binary op flags (ty.Int width) (spec.operand_of (at self.now) left.now) (spec.operand_of (at self.now) right.now)) ∷ []) 1 body.old body.new) }
    {
        let left = self.operand(alloc, left)?;
        let right = self.operand(alloc, right)?;
        body.define(InstKind::Binary(op, flags, Ty::Int(width), left, right))
    }

    /// Adds a comparison of two integers.
    fn icmp(
        &self,
        alloc: Global,
        body: &mut Body,
        pred: Pred,
        width: Width,
        left: &Val,
        right: &Val,
    ) -> Result<(), Memory>
        requires room { body.old.next + 1 < 2 ^ 64 }
        requires left { is_small (at self.now) left.now ≡ true }
        requires right { is_small (at self.now) right.now ≡ true }
        ensures { OnOk result (Adds (spec.defining body.old.next (kind.Icmp pred (ty.Int width) (spec.operand_of (at self.now) left.now) (spec.operand_of (at self.now) right.now)) ∷ []) 1 body.old body.new) }
    {
        let left = self.operand(alloc, left)?;
        let right = self.operand(alloc, right)?;
        body.define(InstKind::Icmp(pred, Ty::Int(width), left, right))
    }

    /// Adds a conversion of an integer.
    fn convert(
        &self,
        alloc: Global,
        body: &mut Body,
        conv: Conv,
        from: Width,
        val: &Val,
        to: Width,
    ) -> Result<(), Memory>
        requires room { body.old.next + 1 < 2 ^ 64 }
        requires small { is_small (at self.now) val.now ≡ true }
        ensures { OnOk result (Adds (spec.defining body.old.next (kind.Convert conv (ty.Int from) (spec.operand_of (at self.now) val.now) (ty.Int to)) ∷ []) 1 body.old body.new) }
    {
        let operand = self.operand(alloc, val)?;
        body.define(InstKind::Convert(conv, Ty::Int(from), operand, Ty::Int(to)))
    }

    /// Adds a choice of one of two integers.
    fn select(
        &self,
        alloc: Global,
        body: &mut Body,
        width: Width,
        condition: &Val,
        left: &Val,
        right: &Val,
    ) -> Result<(), Memory>
        requires room { body.old.next + 1 < 2 ^ 64 }
        requires condition { is_small (at self.now) condition.now ≡ true }
        requires left { is_small (at self.now) left.now ≡ true }
        requires right { is_small (at self.now) right.now ≡ true }
        ensures { OnOk result (Adds (spec.defining body.old.next (kind.Select (spec.operand_of (at self.now) condition.now) (ty.Int width) (spec.operand_of (at self.now) left.now) (ty.Int width) (spec.operand_of (at self.now) right.now)) ∷ []) 1 body.old body.new) }
    {
        let condition = self.operand(alloc, condition)?;
        let left = self.operand(alloc, left)?;
        let right = self.operand(alloc, right)?;
        body.define(InstKind::Select(condition, Ty::Int(width), left, Ty::Int(width), right))
    }

    /// Adds the call that reads the bit of a result.
    fn read(&self, alloc: Global, body: &mut Body, value: &Value) -> Result<(), Memory>
        requires few { HasFew self.now }
        requires room { body.old.next + 1 < 2 ^ 64 }
        requires small { is_small (at self.now) (Known value.now) ≡ true }
        ensures { OnOk result (Adds (spec.read_into (at self.now) body.old.next value.now ∷ []) 1 body.old body.new) }
    {
        let name = text(alloc, b"__quantum__rt__read_result")?;
        let callee = Callee::Func(self.functions.number(&name));
        let mut args = CallArgs::new(alloc);
        args.push((Ty::Res, Operand::Const(self.value(alloc, value)?)))?;
        body.define(InstKind::Call(Ty::Int(Width::W1), callee, args))
    }

    /// Adds the call that reads one side of a comparison of two results, unless it is constant.
    fn read_side(&self, alloc: Global, body: &mut Body, value: &Value) -> Result<(), Memory>
        requires few { HasFew self.now }
        requires room { body.old.next + 1 < 2 ^ 64 }
        requires small { is_small (at self.now) (Known value.now) ≡ true }
        ensures { OnOk result (Adds (spec.side_reads (at self.now) body.old.next value.now) (spec.reads value.now) body.old body.new) }
    {
        match value {
            Value::One => Ok(()),
            Value::Zero => Ok(()),
            _ => self.read(alloc, body, value),
        }
    }

    /// Adds a comparison of two results.
    fn equal(
        &self,
        alloc: Global,
        body: &mut Body,
        left: &Value,
        right: &Value,
    ) -> Result<(), Memory>
        requires few { HasFew self.now }
        requires room { body.old.next + spec.reads left.now + spec.reads right.now + 1 < 2 ^ 64 }
        requires left { is_small (at self.now) (Known left.now) ≡ true }
        requires right { is_small (at self.now) (Known right.now) ≡ true }
        ensures { OnOk result ((d : Dyn) → Prints (at self.now) (item.Equal d left.now right.now) body.old body.new) }
    {
        let first = side_operand(body.next, left);
        self.read_side(alloc, body, left)?;
        let second = side_operand(body.next, right);
        self.read_side(alloc, body, right)?;
        body.define(InstKind::Icmp(Pred::Eq, Ty::Int(Width::W1), first, second))
    }

    /// Adds a call that gives nothing.
    fn call(
        &self,
        alloc: Global,
        body: &mut Body,
        name: &Bytes,
        args: &TypedVals,
    ) -> Result<(), Memory>
        requires few { HasFew self.now }
        requires small { are_small (at self.now) args.now ≡ true }
        ensures { OnOk result (Adds (spec.call_void (at self.now) name.now args.now ∷ []) 0 body.old body.new) }
    {
        let callee = Callee::Func(self.functions.number(name));
        let args = self.arguments(alloc, args.as_slice())?;
        body.perform(InstKind::Call(Ty::Void, callee, args))
    }

    /// Adds the call that writes a record.
    fn output(
        &self,
        alloc: Global,
        body: &mut Body,
        class: Class,
        args: &TypedVals,
    ) -> Result<(), Memory>
        requires few { HasFew self.now }
        requires small { are_small (at self.now) args.now ≡ true }
        ensures { OnOk result (Prints (at self.now) (item.Output class args.now) body.old body.new) }
    {
        let name = record_name(alloc, class)?;
        self.call(alloc, body, &name, args)
    }

    /// Adds the instructions of an item.
    pub(crate) fn item(&self, alloc: Global, body: &mut Body, item: &Item) -> Result<(), Memory>
        requires few { HasFew self.now }
        requires room { body.old.next + length (spec.names_of_item item.now) < 2 ^ 64 }
        requires small { are_small (at self.now) (item_uses item.now) ≡ true }
        ensures { OnOk result (Prints (at self.now) item.now body.old body.new) }
    {
        match item {
            Item::Binary(_, op, flags, width, left, right) => {
                self.binary(alloc, body, *op, *flags, *width, left, right)
            }
            Item::Icmp(_, pred, width, left, right) => {
                self.icmp(alloc, body, *pred, *width, left, right)
            }
            Item::Convert(_, conv, from, val, to) => {
                self.convert(alloc, body, *conv, *from, val, *to)
            }
            Item::Select(_, width, condition, left, right) => {
                self.select(alloc, body, *width, condition, left, right)
            }
            Item::Read(_, value) => self.read(alloc, body, value),
            Item::Equal(_, left, right) => self.equal(alloc, body, left, right),
            Item::Operation(name, args) => self.call(alloc, body, name, args),
            Item::Output(class, args) => self.output(alloc, body, *class, args),
        }
    }

    /// Adds the instructions of a line, none where it is a mark.
    fn line(&self, alloc: Global, body: &mut Body, line: &Line) -> Result<(), Memory>
        requires few { HasFew self.now }
        requires room { body.old.next + length (line_names (line_item line.now)) < 2 ^ 64 }
        requires small { line_small (at self.now) (line_item line.now) ≡ true }
        ensures { OnOk result (PrintsLine (at self.now) (line_item line.now) body.old body.new) }
    {
        match line {
            Line::Item(item) => self.item(alloc, body, item),
            Line::Made(_) => Ok(()),
            Line::Freed(_) => Ok(()),
        }
    }

    /// Adds the instructions of lines.
    pub(crate) fn lines(
        &self,
        alloc: Global,
        body: &mut Body,
        mut lines: &[Line],
    ) -> Result<(), Memory>
        requires few { HasFew self.now }
        requires room { body.old.next + length (names_of_items (items_of lines.now)) < 2 ^ 64 }
        requires small { list_all (λ x. are_small (at self.now) (item_uses x)) (items_of lines.now) ≡ true }
        ensures { OnOk result (PrintsAll (at self.now) (items_of lines.entry.now) body.old body.new) }
    {
        while let Some((line, rest)) = lines.split_first() {
            self.line(alloc, body, line)?;
            lines = rest;
        }
        Ok(())
    }
}
