//! Instructions and phis.
#![tactic(auto, using(crate::proofs::Parts::fails_front, crate::proofs::Parts::fails_behind, crate::proofs::Parts::clean))]

ghost use Rattle.std.specs.Prelude.{◌≡◌, ◌+◌, map, IfOk};
ghost use Rattle.std.specs.List.{flat_map};
ghost use Rattle.ir_names.specs.Sense as sense;
ghost use Rattle.ir_names.specs.code.Answers.{Gives};
ghost use Rattle.ir_names.specs.Instructions.{duplicate, what_faults, what_of, result_faults, result_of, behind, line_faults, line_of, lines_faults, insts_of, behind_lines, entry_faults, entry_of, phi_faults, phi_of, phis_faults, phis_of, behind_phis};
ghost use Rattle.ir_names.specs.Instructions as spec;
ghost use Rattle.ir_names.specs.code.Seen.{seen};

use crate::fault::{NameCode, Stop};
use crate::scope::Scope;
use ir_grammar::{EntrySyntax, InstSyntax, LineSyntax, PhiSyntax};
use ir_module::{Inst, InstKind, Insts, Operand, Phi, PhiEntries, Phis};
use ir_tokens::Token;
use ir_values::{BlockId, Copies, LocalId, Memory, Name, Seq};

/// The next number. No text is so long that there is none.
pub(crate) fn next(n: u64) -> Result<u64, Memory>
    ensures { IfOk result (λ m. m ≡ n + 1) }
{
    if n == u64::MAX {
        Err(Memory)
    } else {
        Ok(n + 1)
    }
}

/// Whether a number is one of the first `n`.
pub(crate) fn is_before(number: Option<u64>, n: u64) -> bool
    ensures { result ≡ sense.is_before number n }
{
    match number {
        None => false,
        Some(k) => k < n,
    }
}

impl Scope<'_> {
    /// The name has no definition before.
    pub(crate) fn fresh(
        &self,
        at: &Token,
        name: &Name,
        values: u64,
        labels: u64,
    ) -> Result<(), Stop>
        ensures { Gives (duplicate (seen self.now) at.now name.now values labels) tt result }
    {
        let value = is_before(self.locals.values.number(name), values);
        let label = is_before(self.locals.labels.number(name), labels);
        if value || label {
            Err(Stop::at(NameCode::Duplicate, at))
        } else {
            Ok(())
        }
    }

    /// What an instruction does.
    fn what(&self, what: &InstSyntax) -> Result<InstKind, Stop>
        ensures { Gives (what_faults (seen self.now) what.now) (what_of (seen self.now) what.now) result }
    {
        match what {
            InstSyntax::Binary(op, flags, ty, a, b) => {
                let a = self.operand(a)?;
                let b = self.operand(b)?;
                Ok(InstKind::Binary(*op, *flags, ty.copy(self.outer.alloc)?, a, b))
            }
            InstSyntax::Icmp(pred, ty, a, b) => {
                let a = self.operand(a)?;
                let b = self.operand(b)?;
                Ok(InstKind::Icmp(*pred, ty.copy(self.outer.alloc)?, a, b))
            }
            InstSyntax::Convert(conv, ty, a, to) => {
                let a = self.operand(a)?;
                Ok(InstKind::Convert(
                    *conv,
                    ty.copy(self.outer.alloc)?,
                    a,
                    to.copy(self.outer.alloc)?,
                ))
            }
            InstSyntax::Select(condition, ty, a, other, b) => {
                let condition = self.operand(condition)?;
                let a = self.operand(a)?;
                let b = self.operand(b)?;
                Ok(InstKind::Select(
                    condition,
                    ty.copy(self.outer.alloc)?,
                    a,
                    other.copy(self.outer.alloc)?,
                    b,
                ))
            }
            InstSyntax::Call(ty, callee, args, groups) => {
                self.call(ty, callee, args.as_slice(), groups.as_slice())
            }
        }
    }

    /// The name that an instruction may define, behind so many values and labels.
    fn result(
        &self,
        token: &Option<Token>,
        values: u64,
        labels: u64,
    ) -> Result<Option<LocalId>, Stop>
        ensures { Gives (result_faults (seen self.now) values labels token.now) (result_of values token.now) result }
    {
        match token {
            None => Ok(None),
            Some(at) => {
                let name = self.name(at)?;
                self.fresh(at, &name, values, labels)?;
                Ok(Some(LocalId(values)))
            }
        }
    }

    /// An instruction, behind so many values and labels.
    fn line(&self, line: &LineSyntax, values: u64, labels: u64) -> Result<Inst, Stop>
        ensures { Gives (line_faults (seen self.now) values labels line.now) (line_of (seen self.now) values line.now) result }
    {
        let result = self.result(&line.result, values, labels)?;
        let what = self.what(&line.what)?;
        Ok(Inst { result, what })
    }

    /// Instructions, and how many values there are behind them.
    pub(crate) fn lines(
        &self,
        mut lines: &[LineSyntax],
        mut values: u64,
        labels: u64,
    ) -> Result<(Insts, u64), Stop>
        ensures { Gives (lines_faults (seen self.now) values labels lines.entry.now) (insts_of (seen self.now) values lines.entry.now, behind_lines values lines.entry.now) result }
    {
        let mut out = Seq::new(self.outer.alloc);
        while let [line, rest @ ..] = lines {
            out.push(self.line(line, values, labels)?)?;
            values = behind(values, &line.result)?;
            lines = rest;
        }
        Ok((out, values))
    }

    /// An entry of a phi.
    fn entry(&self, entry: &EntrySyntax) -> Result<(Operand, BlockId), Stop>
        ensures { Gives (entry_faults (seen self.now) entry.now) (entry_of (seen self.now) entry.now) result }
    {
        let value = self.operand(&entry.value)?;
        let from = self.target(&entry.from)?;
        Ok((value, from))
    }

    /// The entries of a phi.
    fn entries(&self, mut entries: &[EntrySyntax]) -> Result<PhiEntries, Stop>
        ensures { Gives (flat_map (entry_faults (seen self.now)) entries.entry.now) (map (entry_of (seen self.now)) entries.entry.now) result }
    {
        let mut out = Seq::new(self.outer.alloc);
        while let [entry, rest @ ..] = entries {
            out.push(self.entry(entry)?)?;
            entries = rest;
        }
        Ok(out)
    }

    /// A phi, behind so many values and labels.
    fn phi(&self, phi: &PhiSyntax, values: u64, labels: u64) -> Result<Phi, Stop>
        ensures { Gives (phi_faults (seen self.now) values labels phi.now) (phi_of (seen self.now) values phi.now) result }
    {
        let name = self.name(&phi.result)?;
        self.fresh(&phi.result, &name, values, labels)?;
        let entries = self.entries(phi.entries.as_slice())?;
        Ok(Phi {
            result: LocalId(values),
            entries,
        })
    }

    /// Phis, and how many values there are behind them.
    pub(crate) fn phis(
        &self,
        mut phis: &[PhiSyntax],
        mut values: u64,
        labels: u64,
    ) -> Result<(Phis, u64), Stop>
        ensures { Gives (phis_faults (seen self.now) values labels phis.entry.now) (phis_of (seen self.now) values phis.entry.now, behind_phis values phis.entry.now) result }
    {
        let mut out = Seq::new(self.outer.alloc);
        while let [phi, rest @ ..] = phis {
            out.push(self.phi(phi, values, labels)?)?;
            values = next(values)?;
            phis = rest;
        }
        Ok((out, values))
    }
}

/// How many values there are behind an instruction.
fn behind(values: u64, token: &Option<Token>) -> Result<u64, Memory>
    ensures { IfOk result (λ n. n ≡ spec.behind values token.now) }
{
    match token {
        None => Ok(values),
        Some(_) => next(values),
    }
}
