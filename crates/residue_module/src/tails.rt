//! The terminators of tails.
ghost use Rattle.std.specs.Prelude.{◌≡◌, true, map, IfOk};
ghost use Rattle.residue.specs.Instructions.{block_number, print_tail};
ghost use Rattle.residue.specs.Scopes.{tail_uses};
ghost use Rattle.residue_module.specs.code.Scenes.{are_small, at};

use crate::printer::Printer;
use ir_module::{Cases, Term};
use ir_values::{BlockId, Int, Memory, Seq, Ty, Width};
use residue::{Jump, Tail};
use std::alloc::Global;

/// The cases of a switch.
fn cases_of(alloc: Global, mut cases: &[(Int, Jump)]) -> Result<Cases, Memory>
    ensures { IfOk result (λ l. l ≡ map (λ c. (c.0, block_number c.1.to)) cases.entry.now) }
{
    let mut out = Seq::new(alloc);
    while let [case, rest @ ..] = cases {
        out.push((case.0, BlockId(case.1.to)))?;
        cases = rest;
    }
    Ok(out)
}

impl<'a> Printer<'a> {
    /// The terminator of a tail.
    pub(crate) fn tail(&self, alloc: Global, tail: &Tail) -> Result<Term, Memory>
        requires { are_small (at self.now) (tail_uses tail.now) ≡ true }
        ensures { IfOk result (λ t. t ≡ print_tail (at self.now) tail.now) }
    {
        match tail {
            Tail::Jump(jump) => Ok(Term::Br(BlockId(jump.to))),
            Tail::Branch(val, first, second) => {
                let condition = self.operand(alloc, val)?;
                Ok(Term::CondBr(condition, BlockId(first.to), BlockId(second.to)))
            }
            Tail::Switch(width, val, jump, cases) => {
                let operand = self.operand(alloc, val)?;
                let cases = cases_of(alloc, cases.as_slice())?;
                Ok(Term::Switch(Ty::Int(*width), operand, BlockId(jump.to), cases))
            }
            Tail::Return(val) => Ok(Term::Ret(Ty::Int(Width::W64), self.operand(alloc, val)?)),
        }
    }
}
