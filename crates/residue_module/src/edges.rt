//! The entries that jumps give to phis, in the text order of the labels.
ghost use Rattle.std.specs.Prelude.{◌≡◌, ◌<◌, ◌+◌, ◌^◌, ◌∷◌, [], true, flat_map, length, map, IfOk, OnOk};
ghost use Rattle.std.specs.List.{list_all};
ghost use Rattle.residue.specs.Instructions.{block_number};
ghost use Rattle.residue.specs.Printed.{edges_of};
ghost use Rattle.residue.specs.Scopes.{jump_args, jumps};
ghost use Rattle.residue_module.specs.code.Edges as code;
ghost use Rattle.residue_module.specs.code.Scenes.{args_small, at, is_small};

use crate::printer::Printer;
use crate::rows::{Row, Rows};
use ir_values::{BlockId, Int, Memory};
use residue::{Jump, Part, Tail, Vals};
use std::alloc::Global;

impl<'a> Printer<'a> {
    /// Adds an entry for each parameter of a part.
    fn enter(&self, alloc: Global, row: &mut Row, from: u32, args: &Vals) -> Result<(), Memory>
        requires { list_all (is_small (at self.now)) args.now ≡ true }
        ensures { OnOk result (row.new ≡ code.entered (at self.now) (block_number from) args.now 0 row.old) }
    {
        let mut index = 0;
        while index < row.len() {
            let operand = self.taken(alloc, args, index)?;
            row.add(index, operand, BlockId(from))?;
            index += 1;
        }
        Ok(())
    }

    /// Adds the entries that a jump from this part gives.
    fn enter_jump(
        &self,
        alloc: Global,
        rows: &mut Rows,
        from: u32,
        jump: &Jump,
    ) -> Result<(), Memory>
        requires { list_all (is_small (at self.now)) jump.now.args ≡ true }
        ensures { OnOk result (code.Enters (at self.now) ((from, jump.now) ∷ []) rows.old rows.new) }
    {
        let to = jump.to as usize;
        if to < rows.len() {
            self.enter(alloc, &mut rows.rows[to], from, &jump.args)
        } else {
            Ok(())
        }
    }

    /// Adds the entries that the cases of a switch give.
    fn enter_cases(
        &self,
        alloc: Global,
        rows: &mut Rows,
        from: u32,
        mut cases: &[(Int, Jump)],
    ) -> Result<(), Memory>
        requires { list_all (is_small (at self.now)) (flat_map (λ j. j.args) (map (λ c. c.1) cases.now)) ≡ true }
        ensures { OnOk result (code.Enters (at self.now) (map (λ j. (from, j)) (map (λ c. c.1) cases.entry.now)) rows.old rows.new) }
    {
        while let Some((case, rest)) = cases.split_first() {
            self.enter_jump(alloc, rows, from, &case.1)?;
            cases = rest;
        }
        Ok(())
    }

    /// Adds the entries that a tail's jumps give.
    fn enter_tail(
        &self,
        alloc: Global,
        rows: &mut Rows,
        from: u32,
        tail: &Tail,
    ) -> Result<(), Memory>
        requires { list_all (is_small (at self.now)) (jump_args tail.now) ≡ true }
        ensures { OnOk result (code.Enters (at self.now) (map (λ j. (from, j)) (jumps tail.now)) rows.old rows.new) }
    {
        match tail {
            Tail::Jump(jump) => self.enter_jump(alloc, rows, from, jump),
            Tail::Branch(_, first, second) => {
                self.enter_jump(alloc, rows, from, first)?;
                self.enter_jump(alloc, rows, from, second)
            }
            Tail::Switch(_, _, jump, cases) => {
                self.enter_jump(alloc, rows, from, jump)?;
                self.enter_cases(alloc, rows, from, cases.as_slice())
            }
            Tail::Return(_) => Ok(()),
        }
    }

    /// The entries that the jumps of parts give.
    pub(crate) fn entries(&self, alloc: Global, mut parts: &[Part]) -> Result<Rows, Memory>
        requires few { length parts.now < 2 ^ 32 }
        requires small { list_all (args_small (at self.now)) parts.now ≡ true }
        ensures { IfOk result (λ rows. rows ≡ code.rows_from (at self.now) (edges_of 0 parts.entry.now) 0 parts.entry.now) }
    {
        let mut rows = Rows::new(alloc, parts)?;
        let mut from = 0;
        while let Some((part, rest)) = parts.split_first() {
            self.enter_tail(alloc, &mut rows, from, &part.tail)?;
            from += 1;
            parts = rest;
        }
        Ok(rows)
    }
}
