//! The names that a function defines.
ghost use Rattle.std.specs.Prelude.{◌≡◌, ◌+◌, ◌++◌, ◌∷◌, [], IfOk, OnOk, map};
ghost use Rattle.std.specs.List.{flat_map};
ghost use Rattle.ir_names.specs.Functions as spec;
ghost use Rattle.ir_names.specs.code.Held.{Holds};
ghost use Rattle.ir_names.specs.code.Tables as numbers;
ghost use Rattle.ir_names.specs.code.Names.{same_name};
ghost use Rattle.ir_tokens.specs.Spelled.{name_at};

use crate::blocks::name_or;
use crate::numbers::Numbers;
use ir_grammar::{BlockSyntax, InstSyntax, LineSyntax, ParamSyntax, PhiSyntax};
use ir_module::Locals;
use ir_tokens::name_at;
use ir_values::{Copies, Memory, Name, Seq, Ty, Width};
use std::alloc::Global;

/// The values of a function: their names and types in text order, and the number of each name.
#[derive(Drop)]
pub struct Values {
    pub table: Numbers<Name>,
    pub list: Locals,
}

/// The type of what an instruction gives.
fn type_of(alloc: Global, what: &InstSyntax) -> Result<Ty, Memory>
    ensures { IfOk result (λ t. t ≡ spec.type_of what.now) }
{
    match what {
        InstSyntax::Icmp(_, _, _, _) => Ok(Ty::Int(Width::W1)),
        InstSyntax::Binary(_, _, ty, _, _) => ty.copy(alloc),
        InstSyntax::Convert(_, _, _, to) => to.copy(alloc),
        InstSyntax::Select(_, ty, _, _, _) => ty.copy(alloc),
        InstSyntax::Call(ty, _, _, _) => ty.copy(alloc),
    }
}

impl Values {
    /// No value.
    pub(crate) fn new(alloc: Global) -> Values
        ensures holds { Holds result }
        ensures list { result.list ≡ [] }
    {
        Values {
            table: Numbers::new(alloc),
            list: Seq::new(alloc),
        }
    }

    /// Adds a value.
    #[tactic(auto, using(crate::proofs::Names::one_more_name))]
    fn define(&mut self, alloc: Global, name: Name, ty: Ty) -> Result<(), Memory>
        requires { Holds self.old }
        ensures holds { OnOk result (Holds self.new) }
        ensures list { OnOk result (self.new.list ≡ self.old.list ++ (name, ty) ∷ []) }
    {
        self.table.add(name.copy(alloc)?)?;
        self.list.push((name, ty))?;
        Ok(())
    }

    /// Adds what an instruction defines.
    fn line(&mut self, alloc: Global, text: &[u8], line: &LineSyntax) -> Result<(), Memory>
        requires { Holds self.old }
        ensures holds { OnOk result (Holds self.new) }
        ensures list { OnOk result (self.new.list ≡ self.old.list ++ spec.line_locals (name_at text.now) line.now) }
    {
        match &line.result {
            None => Ok(()),
            Some(token) => {
                let name = name_at(alloc, text, *token)?;
                let ty = type_of(alloc, &line.what)?;
                self.define(alloc, name, ty)
            }
        }
    }

    /// Adds what instructions define.
    fn lines(&mut self, alloc: Global, text: &[u8], mut lines: &[LineSyntax]) -> Result<(), Memory>
        requires { Holds self.old }
        ensures holds { OnOk result (Holds self.new) }
        ensures list { OnOk result (self.new.list ≡ self.old.list ++ flat_map (spec.line_locals (name_at text.now)) lines.entry.now) }
    {
        while let [line, rest @ ..] = lines {
            self.line(alloc, text, line)?;
            lines = rest;
        }
        Ok(())
    }

    /// Adds what phis define.
    fn phis(&mut self, alloc: Global, text: &[u8], mut phis: &[PhiSyntax]) -> Result<(), Memory>
        requires { Holds self.old }
        ensures holds { OnOk result (Holds self.new) }
        ensures list { OnOk result (self.new.list ≡ self.old.list ++ map (spec.phi_local (name_at text.now)) phis.entry.now) }
    {
        while let [phi, rest @ ..] = phis {
            let name = name_at(alloc, text, phi.result)?;
            self.define(alloc, name, phi.ty.copy(alloc)?)?;
            phis = rest;
        }
        Ok(())
    }

    /// Adds what blocks define.
    pub(crate) fn blocks(
        &mut self,
        alloc: Global,
        text: &[u8],
        mut blocks: &[BlockSyntax],
    ) -> Result<(), Memory>
        requires { Holds self.old }
        ensures holds { OnOk result (Holds self.new) }
        ensures list { OnOk result (self.new.list ≡ self.old.list ++ flat_map (spec.block_locals (name_at text.now)) blocks.entry.now) }
    {
        while let [block, rest @ ..] = blocks {
            self.phis(alloc, text, block.lines.phis.as_slice())?;
            self.lines(alloc, text, block.lines.insts.as_slice())?;
            blocks = rest;
        }
        Ok(())
    }

    /// Adds parameters, behind so many without a name, and answers how many of these there are then.
    pub(crate) fn params(
        &mut self,
        alloc: Global,
        text: &[u8],
        mut params: &[ParamSyntax],
        mut unnamed: u32,
    ) -> Result<u32, Memory>
        requires { Holds self.old }
        ensures holds { OnOk result (Holds self.new) }
        ensures unnamed { IfOk result (λ n. n ≡ spec.behind_params unnamed params.entry.now) }
        ensures list { OnOk result (self.new.list ≡ self.old.list ++ spec.params_locals (name_at text.now) unnamed params.entry.now) }
    {
        while let [param, rest @ ..] = params {
            let name = name_or(alloc, text, &param.name, unnamed)?;
            self.define(alloc, name, param.ty.copy(alloc)?)?;
            unnamed = behind_param(param, unnamed)?;
            params = rest;
        }
        Ok(unnamed)
    }
}

/// How many parameters have no name, behind this one.
pub(crate) fn behind_param(param: &ParamSyntax, unnamed: u32) -> Result<u32, Memory>
    ensures { IfOk result (λ n. n ≡ spec.behind_param unnamed param.now.name) }
{
    match &param.name {
        Some(_) => Ok(unnamed),
        None => {
            if unnamed == u32::MAX {
                Err(Memory)
            } else {
                Ok(unnamed + 1)
            }
        }
    }
}

/// The labels of a function's blocks.
pub(crate) fn labels(
    alloc: Global,
    text: &[u8],
    mut blocks: &[BlockSyntax],
    unnamed: u32,
) -> Result<Numbers<Name>, Memory>
    ensures { IfOk result (λ t. numbers.Numbers same_name t (map (spec.label_name (name_at text.now) unnamed) blocks.entry.now)) }
{
    let mut table = Numbers::new(alloc);
    while let [block, rest @ ..] = blocks {
        table.add(name_or(alloc, text, &block.label, unnamed)?)?;
        blocks = rest;
    }
    Ok(table)
}
