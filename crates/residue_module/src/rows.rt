//! The entries of the phis of parts.
ghost use Rattle.std.specs.Prelude.{◌≡◌, ◌<◌, ◌+◌, ◌^◌, ◌∷◌, [], ◌++◌, Some, map, length, slice_get, slice_set, IfOk, OnOk};
ghost use Rattle.std.specs.Vec.Iter.{into_iter_items};
ghost use Rattle.residue_module.specs.code.Edges as code;

use ir_module::{Operand, Phi, PhiEntries, Phis};
use ir_values::{BlockId, LocalId, Memory, Seq, Width};
use kept_items::Dyn;
use residue::Part;
use std::alloc::Global;
use std::marker::Model;
use std::vec::IntoIter;

/// The entries of a part's phis, one list for each parameter, seen by contracts as the list of these.
#[derive(Drop)]
pub(crate) struct Row {
    lists: Vec<PhiEntries>,
}

impl Model for Row {
    ghost use Rattle.std.specs.Prelude.{List};
    ghost use Rattle.ir_module.specs.declared.tree.Operand.{Operand};
    ghost use Rattle.ir_values.specs.declared.ids.BlockId.{BlockId};

    ghost Value = { List (List (Operand × BlockId)) };

    ghost view = { λ r. r.lists.items };
}

impl Row {
    /// No entry for any of these parameters.
    fn new(alloc: Global, mut params: &[(Dyn, Width)]) -> Result<Row, Memory>
        ensures { IfOk result (λ row. row ≡ map (λ x. []) params.entry.now) }
    {
        let mut lists = Vec::new(alloc);
        while let [_, rest @ ..] = params {
            lists.push(Seq::new(alloc))?;
            params = rest;
        }
        Ok(Row { lists })
    }

    /// The number of parameters.
    pub(crate) fn len(&self) -> usize
        ensures { result ≡ length self.now }
    {
        self.lists.len()
    }

    /// Adds an entry last for the parameter of this number.
    pub(crate) fn add(
        &mut self,
        index: usize,
        operand: Operand,
        from: BlockId,
    ) -> Result<(), Memory>
        requires { index < length self.old }
        ensures { OnOk result ((entries : code.Entries) → slice_get self.old index ≡ Some entries → self.new ≡ slice_set self.old index (entries ++ (operand, from) ∷ [])) }
    {
        self.lists[index].push((operand, from))
    }

    /// The phis of these entries, whose local names begin with this number.
    pub(crate) fn into_phis(self, alloc: Global, first: u64) -> Result<Phis, Memory>
        requires { first + length self < 2 ^ 64 }
        ensures { IfOk result (λ phis. phis ≡ code.phis_from first self) }
    {
        let mut phis = Seq::new(alloc);
        let mut number = first;
        let mut lists = self.lists.into_iter();
        while let Some(entries) = lists.next() {
            phis.push(Phi {
                result: LocalId(number),
                entries,
            })?;
            number += 1;
        }
        Ok(phis)
    }
}

/// A row for each part, in the order of their numbers, seen by contracts as the list of these.
#[derive(Drop)]
pub(crate) struct Rows {
    pub(crate) rows: Vec<Row>,
}

impl Model for Rows {
    ghost use Rattle.std.specs.Prelude.{List};
    ghost use Rattle.ir_module.specs.declared.tree.Operand.{Operand};
    ghost use Rattle.ir_values.specs.declared.ids.BlockId.{BlockId};

    ghost Value = { List (List (List (Operand × BlockId))) };

    ghost view = { λ r. r.rows.items };
}

impl Rows {
    /// No entry for any parameter of these parts.
    pub(crate) fn new(alloc: Global, mut parts: &[Part]) -> Result<Rows, Memory>
        ensures { IfOk result (λ rows. rows ≡ map (λ p. map (λ x. []) p.params) parts.entry.now) }
    {
        let mut rows = Vec::new(alloc);
        while let [part, rest @ ..] = parts {
            rows.push(Row::new(alloc, part.params.as_slice())?)?;
            parts = rest;
        }
        Ok(Rows { rows })
    }

    /// The number of parts.
    pub(crate) fn len(&self) -> usize
        ensures { result ≡ length self.now }
    {
        self.rows.len()
    }

    /// The rows in order.
    pub(crate) fn into_rows(self) -> IntoIter<Row>
        ensures { into_iter_items result ≡ self }
    {
        self.rows.into_iter()
    }
}

/// The next row, where one is left.
pub(crate) fn next_row(rows: &mut IntoIter<Row>) -> Row
    requires { 0 < length (into_iter_items rows.old) }
    ensures { into_iter_items rows.old ≡ result ∷ into_iter_items rows.new }
{
    match rows.next() {
        Some(row) => row,
        None => unreachable!(),
    }
}
