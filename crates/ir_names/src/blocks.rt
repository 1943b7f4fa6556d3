//! Terminators and blocks.
#![tactic(auto, using(crate::proofs::Parts::fails_front, crate::proofs::Parts::fails_behind, crate::proofs::Parts::clean))]

ghost use Rattle.std.specs.Prelude.{◌≡◌, ◌+◌, IfOk};
ghost use Rattle.ir_names.specs.code.Answers.{Gives};
ghost use Rattle.std.specs.Prelude.{map};
ghost use Rattle.std.specs.List.{flat_map};
ghost use Rattle.ir_names.specs.Blocks.{case_faults, case_of, term_faults, term_of, block_faults, block_of, behind_block, blocks_faults, blocks_of};
ghost use Rattle.ir_names.specs.Blocks as spec;
ghost use Rattle.ir_names.specs.code.Seen.{seen};
ghost use Rattle.ir_tokens.specs.Spelled.{name_at};

use crate::fault::Stop;
use crate::lines::next;
use crate::scope::Scope;
use ir_grammar::{BlockSyntax, CaseSyntax, TermSyntax};
use ir_module::{Block, Blocks, Cases, Term};
use ir_tokens::{Token, name_at};
use ir_values::{Copies, Memory, Name, Seq};
use std::alloc::Global;

/// The name of a parameter or a block; one without is numbered.
pub(crate) fn name_or(
    alloc: Global,
    text: &[u8],
    label: &Option<Token>,
    unnamed: u32,
) -> Result<Name, Memory>
    ensures { IfOk result (λ n. n ≡ spec.name_or (name_at text.now) unnamed label.now) }
{
    match label {
        None => Ok(Name::Number(unnamed)),
        Some(token) => name_at(alloc, text, *token),
    }
}

/// The first token of a block.
fn first_token(block: &BlockSyntax) -> Token
    ensures { let k = block.now in result ≡ spec.first_token k.label k.lines.phis k.lines.insts k.last }
{
    match &block.label {
        Some(token) => *token,
        None => match block.lines.phis.as_slice() {
            [phi, ..] => phi.result,
            [] => match block.lines.insts.as_slice() {
                [line, ..] => line.first,
                [] => block.last,
            },
        },
    }
}

impl Scope<'_> {
    /// The cases of a switch.
    fn cases(&self, mut cases: &[CaseSyntax]) -> Result<Cases, Stop>
        ensures { Gives (flat_map (case_faults (seen self.now)) cases.entry.now) (map (case_of (seen self.now)) cases.entry.now) result }
    {
        let mut out = Seq::new(self.outer.alloc);
        while let [case, rest @ ..] = cases {
            let target = self.target(&case.target)?;
            out.push((case.value, target))?;
            cases = rest;
        }
        Ok(out)
    }

    /// A terminator.
    fn term(&self, term: &TermSyntax) -> Result<Term, Stop>
        ensures { Gives (term_faults (seen self.now) term.now) (term_of (seen self.now) term.now) result }
    {
        match term {
            TermSyntax::RetVoid => Ok(Term::RetVoid),
            TermSyntax::Ret(ty, value) => {
                let value = self.operand(value)?;
                Ok(Term::Ret(ty.copy(self.outer.alloc)?, value))
            }
            TermSyntax::Br(to) => Ok(Term::Br(self.target(to)?)),
            TermSyntax::CondBr(condition, yes, no) => {
                let condition = self.operand(condition)?;
                let yes = self.target(yes)?;
                let no = self.target(no)?;
                Ok(Term::CondBr(condition, yes, no))
            }
            TermSyntax::Switch(ty, value, to, cases) => {
                let value = self.operand(value)?;
                let to = self.target(to)?;
                let cases = self.cases(cases.as_slice())?;
                Ok(Term::Switch(ty.copy(self.outer.alloc)?, value, to, cases))
            }
        }
    }

    /// A block, behind so many values and labels, and how many values there are behind it.
    fn block(
        &self,
        block: &BlockSyntax,
        unnamed: u32,
        values: u64,
        labels: u64,
    ) -> Result<(Block, u64), Stop>
        ensures { Gives (block_faults (seen self.now) unnamed values labels block.now) (block_of (seen self.now) unnamed values block.now, behind_block values block.now) result }
    {
        let name = name_or(self.outer.alloc, self.outer.text, &block.label, unnamed)?;
        self.fresh(&first_token(block), &name, values, labels)?;
        let inside = next(labels)?;
        let (phis, behind_phis) = self.phis(block.lines.phis.as_slice(), values, inside)?;
        let (insts, behind) = self.lines(block.lines.insts.as_slice(), behind_phis, inside)?;
        let term = self.term(&block.term)?;
        Ok((
            Block {
                name,
                phis,
                insts,
                term,
            },
            behind,
        ))
    }

    /// Blocks, behind so many values and labels.
    pub(crate) fn blocks(
        &self,
        mut blocks: &[BlockSyntax],
        unnamed: u32,
        mut values: u64,
        mut labels: u64,
    ) -> Result<Blocks, Stop>
        ensures { Gives (blocks_faults (seen self.now) unnamed values labels blocks.entry.now) (blocks_of (seen self.now) unnamed values blocks.entry.now) result }
    {
        let mut out = Seq::new(self.outer.alloc);
        while let [block, rest @ ..] = blocks {
            let (made, behind) = self.block(block, unnamed, values, labels)?;
            out.push(made)?;
            values = behind;
            labels = next(labels)?;
            blocks = rest;
        }
        Ok(out)
    }
}
