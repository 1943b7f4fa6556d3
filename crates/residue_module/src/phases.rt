//! The order of the Base Profile: reversible operations, irreversible ones, records.
ghost use Rattle.std.specs.Prelude.{◌≡◌, ◌<◌, ◌+◌, ◌==◌, ◌^◌, true, length, IfOk, OnOk};
ghost use Rattle.std.specs.List.{list_all};
ghost use Rattle.residue.specs.Instructions.{names_of_item, print_items};
ghost use Rattle.residue.specs.Phases.{in_phase, phase_of};
ghost use Rattle.residue.specs.Printed.{names_of_items};
ghost use Rattle.residue.specs.Scopes.{item_uses, items_of};
ghost use Rattle.residue_module.specs.code.Bodies.{PrintsIf, phase_number};
ghost use Rattle.residue_module.specs.code.Lines.{PrintsLineIn, line_item, line_names, line_small};
ghost use Rattle.residue_module.specs.code.Scenes.{HasFew, are_small, at};

use crate::body::Body;
use crate::printer::Printer;
use called_functions::{NameSet, has_name};
use ir_module::Insts;
use ir_values::{Memory, Seq};
use kept_items::Item;
use residue::Line;
use std::alloc::Global;

/// A block of the Base Profile behind the first.
#[derive(Clone, Copy)]
pub(crate) enum Phase {
    /// Operations that can be undone.
    Reversible,
    /// Operations that can't.
    Irreversible,
    /// Records.
    Records,
}

/// Whether an item stands in this block, if these operations are irreversible.
fn stands_in(irreversible: &NameSet, phase: Phase, item: &Item) -> bool
    ensures { result ≡ (phase_of irreversible.now.keys item.now == phase_number phase) }
{
    match item {
        Item::Operation(name, _) => {
            if has_name(irreversible, name) {
                matches!(phase, Phase::Irreversible)
            } else {
                matches!(phase, Phase::Reversible)
            }
        }
        _ => matches!(phase, Phase::Records),
    }
}

impl<'a> Printer<'a> {
    /// Adds the instructions of an item that stands in this block, and of no other.
    fn item_in(
        &self,
        alloc: Global,
        irreversible: &NameSet,
        phase: Phase,
        body: &mut Body,
        item: &Item,
    ) -> Result<(), Memory>
        requires few { HasFew self.now }
        requires room { body.old.next + length (names_of_item item.now) < 2 ^ 64 }
        requires small { are_small (at self.now) (item_uses item.now) ≡ true }
        ensures { OnOk result (PrintsIf (phase_of irreversible.now.keys item.now == phase_number phase) (at self.now) item.now body.old body.new) }
    {
        if stands_in(irreversible, phase, item) {
            self.item(alloc, body, item)
        } else {
            Ok(())
        }
    }

    /// Adds the instructions of a line whose item stands in this block.
    fn line_in(
        &self,
        alloc: Global,
        irreversible: &NameSet,
        phase: Phase,
        body: &mut Body,
        line: &Line,
    ) -> Result<(), Memory>
        requires few { HasFew self.now }
        requires room { body.old.next + length (line_names (line_item line.now)) < 2 ^ 64 }
        requires small { line_small (at self.now) (line_item line.now) ≡ true }
        ensures { OnOk result (PrintsLineIn (at self.now) irreversible.now.keys (phase_number phase) (line_item line.now) body.old body.new) }
    {
        match line {
            Line::Item(item) => self.item_in(alloc, irreversible, phase, body, item),
            Line::Made(_) => Ok(()),
            Line::Freed(_) => Ok(()),
        }
    }

    /// The instructions of the items that stand in this block, in their order.
    pub(crate) fn items_in(
        &self,
        alloc: Global,
        irreversible: &NameSet,
        phase: Phase,
        mut lines: &[Line],
    ) -> Result<Insts, Memory>
        requires few { HasFew self.now }
        requires room { length (names_of_items (items_of lines.now)) < 2 ^ 64 }
        requires small { list_all (λ x. are_small (at self.now) (item_uses x)) (items_of lines.now) ≡ true }
        ensures { IfOk result (λ l. l ≡ print_items (at self.now) 0 (in_phase irreversible.now.keys (phase_number phase) (items_of lines.entry.now))) }
    {
        let mut body = Body {
            insts: Seq::new(alloc),
            next: 0,
        };
        while let Some((line, rest)) = lines.split_first() {
            self.line_in(alloc, irreversible, phase, &mut body, line)?;
            lines = rest;
        }
        Ok(body.into_insts())
    }
}
