//! Functions and their blocks.
ghost use Rattle.std.specs.Prelude.{◌≡◌, ◌++◌, ◌∷◌, [], flat_map, map, take, IfOk, OnOk};
ghost use Rattle.ir_parts.specs.Parts.{text_of};
ghost use Rattle.ir_printer.specs.Functions as spec;
ghost use Rattle.ir_printer.specs.Groups.{groups_of, number_from, group_use};
ghost use Rattle.ir_printer.specs.Instructions.{phi_parts, inst_parts};
ghost use Rattle.ir_printer.specs.Pieces.{further, line_end, listed};

use crate::groups::Groups;
use crate::writer::Writer;
use ir_module::{Block, Function, Inst, Module, Phi};
use ir_values::{Memory, Name, Ty};

impl Writer {
    /// Adds functions, each behind an empty line. `groups` are those of the module.
    pub(crate) fn functions(
        &mut self,
        m: &Module,
        groups: &Groups,
        mut functions: &[Function],
    ) -> Result<(), Memory>
        requires { groups.now ≡ groups_of m.now }
        ensures { OnOk result (self.new ≡ self.old ++ text_of (flat_map (spec.function_section m.now) functions.entry.now)) }
    {
        while let [f, rest @ ..] = functions {
            self.byte(b'\n')?;
            self.function(m, groups, f)?;
            functions = rest;
        }
        Ok(())
    }

    fn function(&mut self, m: &Module, groups: &Groups, f: &Function) -> Result<(), Memory>
        requires { groups.now ≡ groups_of m.now }
        ensures { OnOk result (self.new ≡ self.old ++ text_of (spec.function_parts m.now f.now)) }
    {
        match &f.blocks {
            Some(blocks) => self.definition(m, groups, f, blocks.as_slice()),
            None => self.declaration(m, groups, f),
        }
    }

    fn declaration(&mut self, m: &Module, groups: &Groups, f: &Function) -> Result<(), Memory>
        requires { groups.now ≡ groups_of m.now }
        ensures { OnOk result (self.new ≡ self.old ++ text_of (spec.declaration_parts m.now f.now)) }
    {
        self.write(b"declare ")?;
        self.called_name(f)?;
        self.param_types(params_of(f))?;
        self.group_use(groups.number(&f.attrs))?;
        self.byte(b'\n')
    }

    fn definition(
        &mut self,
        m: &Module,
        groups: &Groups,
        f: &Function,
        blocks: &[Block],
    ) -> Result<(), Memory>
        requires { groups.now ≡ groups_of m.now }
        ensures { OnOk result (self.new ≡ self.old ++ text_of (spec.definition_parts m.now f.now blocks.now)) }
    {
        self.definition_head(m, groups, f)?;
        self.write(b" {\n")?;
        self.blocks(m, f, blocks)?;
        self.write(b"}\n")
    }

    /// Adds `define RET @name(T %x, T %y) #0`.
    fn definition_head(&mut self, m: &Module, groups: &Groups, f: &Function) -> Result<(), Memory>
        requires { groups.now ≡ groups_of m.now }
        ensures { OnOk result (self.new ≡ self.old ++ text_of (spec.definition_head m.now f.now)) }
    {
        self.write(b"define ")?;
        self.called_name(f)?;
        self.params(params_of(f))?;
        self.group_use(groups.number(&f.attrs))
    }

    /// Adds `RET @name`.
    fn called_name(&mut self, f: &Function) -> Result<(), Memory>
        ensures { OnOk result (self.new ≡ self.old ++ text_of (spec.name_parts f.now)) }
    {
        self.ty(&f.ret)?;
        self.byte(b' ')?;
        self.global_name(&f.name)
    }

    /// Adds `(T, T)`.
    fn param_types(&mut self, params: &[(Name, Ty)]) -> Result<(), Memory>
        ensures { OnOk result (self.new ≡ self.old ++ text_of (spec.params_parts spec.nameless_param params.now)) }
    {
        self.byte(b'(')?;
        if let [first, rest @ ..] = params {
            self.ty(&first.1)?;
            self.further_types(rest)?;
        }
        self.byte(b')')
    }

    /// Adds types of parameters, each behind a comma.
    fn further_types(&mut self, mut params: &[(Name, Ty)]) -> Result<(), Memory>
        ensures { OnOk result (self.new ≡ self.old ++ text_of (further (map spec.nameless_param params.entry.now))) }
    {
        while let [param, rest @ ..] = params {
            self.write(b", ")?;
            self.ty(&param.1)?;
            params = rest;
        }
        Ok(())
    }

    /// Adds `(T %x, T %y)`.
    fn params(&mut self, params: &[(Name, Ty)]) -> Result<(), Memory>
        ensures { OnOk result (self.new ≡ self.old ++ text_of (spec.params_parts spec.named_param params.now)) }
    {
        self.byte(b'(')?;
        if let [first, rest @ ..] = params {
            self.param(first)?;
            self.further_params(rest)?;
        }
        self.byte(b')')
    }

    /// Adds parameters, each behind a comma.
    fn further_params(&mut self, mut params: &[(Name, Ty)]) -> Result<(), Memory>
        ensures { OnOk result (self.new ≡ self.old ++ text_of (further (map spec.named_param params.entry.now))) }
    {
        while let [param, rest @ ..] = params {
            self.write(b", ")?;
            self.param(param)?;
            params = rest;
        }
        Ok(())
    }

    /// Adds `T %x`.
    fn param(&mut self, param: &(Name, Ty)) -> Result<(), Memory>
        ensures { OnOk result (self.new ≡ self.old ++ text_of (spec.named_param param.now)) }
    {
        self.ty(&param.1)?;
        self.byte(b' ')?;
        self.local_name(&param.0)
    }

    /// Adds blocks, with an empty line between two.
    fn blocks(&mut self, m: &Module, f: &Function, blocks: &[Block]) -> Result<(), Memory>
        ensures { OnOk result (self.new ≡ self.old ++ text_of (spec.blocks_parts m.now f.now blocks.now)) }
    {
        if let [first, rest @ ..] = blocks {
            self.block(m, f, first)?;
            self.further_blocks(m, f, rest)?;
        }
        Ok(())
    }

    /// Adds blocks, each behind an empty line.
    fn further_blocks(
        &mut self,
        m: &Module,
        f: &Function,
        mut blocks: &[Block],
    ) -> Result<(), Memory>
        ensures { OnOk result (self.new ≡ self.old ++ text_of (flat_map (spec.further_block m.now f.now) blocks.entry.now)) }
    {
        while let [block, rest @ ..] = blocks {
            self.byte(b'\n')?;
            self.block(m, f, block)?;
            blocks = rest;
        }
        Ok(())
    }

    fn block(&mut self, m: &Module, f: &Function, block: &Block) -> Result<(), Memory>
        ensures { OnOk result (self.new ≡ self.old ++ text_of (spec.block_parts m.now f.now block.now)) }
    {
        self.label(&block.name)?;
        self.byte(b'\n')?;
        self.phis(m, f, block.phis.as_slice())?;
        self.steps(m, f, block)
    }

    /// Adds the lines of the instructions and of the terminator.
    fn steps(&mut self, m: &Module, f: &Function, block: &Block) -> Result<(), Memory>
        ensures { OnOk result (self.new ≡ self.old ++ text_of (spec.steps_parts m.now f.now block.now)) }
    {
        self.insts(m, f, block.insts.as_slice())?;
        self.write(b"  ")?;
        self.term(m, f, &block.term)?;
        self.byte(b'\n')
    }

    fn phis(&mut self, m: &Module, f: &Function, mut phis: &[Phi]) -> Result<(), Memory>
        ensures { OnOk result (self.new ≡ self.old ++ text_of (flat_map (spec.phi_line m.now f.now) phis.entry.now)) }
    {
        while let [phi, rest @ ..] = phis {
            self.write(b"  ")?;
            self.phi(m, f, phi)?;
            self.byte(b'\n')?;
            phis = rest;
        }
        Ok(())
    }

    fn insts(&mut self, m: &Module, f: &Function, mut insts: &[Inst]) -> Result<(), Memory>
        ensures { OnOk result (self.new ≡ self.old ++ text_of (flat_map (spec.inst_line m.now f.now) insts.entry.now)) }
    {
        while let [inst, rest @ ..] = insts {
            self.write(b"  ")?;
            self.inst(m, f, inst)?;
            self.byte(b'\n')?;
            insts = rest;
        }
        Ok(())
    }
}

/// The parameters of a function.
fn params_of(f: &Function) -> &[(Name, Ty)]
    ensures { result.now ≡ take f.now.params f.now.locals }
{
    let locals = f.locals.as_slice();
    let count = locals.len().min(f.params as usize);
    locals.split_at(count).0
}
