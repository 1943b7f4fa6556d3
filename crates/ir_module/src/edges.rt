//! The edges that leave a block.
ghost use Rattle.std.specs.Prelude.{◌≡◌, ◌<◌, length, slice_get};
ghost use Rattle.ir_module.specs.Edges as spec;

use crate::tree::Term;
use ir_values::BlockId;
use std::marker::Model;

/// The blocks that a terminator leads to, seen by contracts as their list in order. It borrows the
/// terminator.
#[derive(Drop)]
pub struct Edges<'a> {
    term: &'a Term,
}

impl<'a> Model for Edges<'a> {
    ghost use Rattle.std.specs.Prelude.{List};
    ghost use Rattle.ir_values.specs.declared.ids.BlockId.{BlockId};
    ghost use Rattle.ir_module.specs.Edges.{edges};

    ghost Value = { List BlockId };

    ghost view = { λ e. edges e.term.now };
}

/// The edges of a terminator: true before false, and cases in text order before the default. It
/// takes no memory.
pub fn successors(term: &Term) -> Edges<'_>
    ensures { result ≡ spec.edges term.now }
{
    Edges { term }
}

impl<'a> Edges<'a> {
    /// The number of edges.
    pub fn len(&self) -> usize
        ensures { result ≡ length self.now }
    {
        match self.term {
            Term::RetVoid | Term::Ret(_, _) => 0,
            Term::Br(_) => 1,
            Term::CondBr(_, _, _) => 2,
            Term::Switch(_, _, _, cases) => cases.as_slice().len() + 1,
        }
    }

    /// The block that edge `i` leads to, counted from 0 and below the number of edges.
    pub fn at(&self, i: usize) -> BlockId
        requires { i < length self.now }
        ensures { slice_get self.now i ≡ Some result }
    {
        match self.term {
            Term::RetVoid | Term::Ret(_, _) => unreachable!(),
            Term::Br(b) => *b,
            Term::CondBr(_, yes, no) => { if i == 0 { *yes } else { *no } }
            Term::Switch(_, _, default, cases) => {
                if i < cases.len() {
                    cases.at(i).1
                } else {
                    *default
                }
            }
        }
    }
}
