//! Modules.
ghost use Rattle.std.specs.Prelude.{◌≡◌, ◌++◌, IfOk, OnOk};
ghost use Rattle.ir_parts.specs.Parts.{text_of};
ghost use Rattle.ir_printer.specs.Canonical as spec;
ghost use Rattle.ir_printer.specs.Groups.{groups_of};

use crate::groups::Groups;
use crate::writer::Writer;
use ir_module::{Constant, Module};
use ir_values::{Bytes, Memory, Name};
use std::alloc::Global;

/// The canonical text of a module: the one text that every other text of the module is printed as. It holds two type
/// lines, then the constants, the functions, the attribute groups, the list of the flags and their nodes, with an empty line
/// between two sections, and ends with a line feed. Groups are numbered by their first use, and locals and blocks keep
/// their names.
///
/// Any module has one. Where the numbers in it are out of range or its names are not distinct, no text reads as it.
///
/// # Errors
///
/// [`Memory`] where there is none for the text.
///
/// # Cost
///
/// Linear in the text and in the module, with a look-up in a hash table for each function.
#[tactic(auto, unfolding(crate::specs::Canonical::canonical))]
pub fn print(alloc: Global, m: &Module) -> Result<Bytes, Memory>
    ensures { IfOk result (λ text. text ≡ spec.canonical m.now) }
{
    let groups = Groups::of(alloc, m)?;
    let mut writer = Writer::new(alloc);
    writer.module(m, &groups)?;
    Ok(writer.into_bytes())
}

impl Writer {
    /// Adds a module, whose groups these are.
    fn module(&mut self, m: &Module, groups: &Groups) -> Result<(), Memory>
        requires { groups.now ≡ groups_of m.now }
        ensures { OnOk result (self.new ≡ self.old ++ text_of (spec.module_parts m.now)) }
    {
        self.type_lines()?;
        self.constants(m.globals.as_slice())?;
        self.functions(m, groups, m.funcs.as_slice())?;
        self.tail(m, groups)
    }

    #[tactic(auto, unfolding(crate::specs::Canonical::type_lines))]
    fn type_lines(&mut self) -> Result<(), Memory>
        ensures { OnOk result (self.new ≡ self.old ++ text_of spec.type_lines) }
    {
        self.write(b"%Qubit = type opaque\n%Result = type opaque\n")
    }

    /// Adds the groups and the flags of a module.
    fn tail(&mut self, m: &Module, groups: &Groups) -> Result<(), Memory>
        requires { groups.now ≡ groups_of m.now }
        ensures { OnOk result (self.new ≡ self.old ++ text_of (spec.tail_parts m.now)) }
    {
        self.groups(groups.as_slice())?;
        self.flags_sections(m.flags.as_slice())
    }

    /// Adds the lines of the constants, if there is one, behind an empty line.
    fn constants(&mut self, constants: &[Constant]) -> Result<(), Memory>
        ensures { OnOk result (self.new ≡ self.old ++ text_of (spec.section spec.constant_lines constants.now)) }
    {
        if constants.is_empty() {
            return Ok(());
        }
        self.byte(b'\n')?;
        self.constant_lines(constants)
    }

    fn constant_lines(&mut self, mut constants: &[Constant]) -> Result<(), Memory>
        ensures { OnOk result (self.new ≡ self.old ++ text_of (spec.constant_lines constants.entry.now)) }
    {
        while let [constant, rest @ ..] = constants {
            self.constant(constant)?;
            constants = rest;
        }
        Ok(())
    }

    fn constant(&mut self, constant: &Constant) -> Result<(), Memory>
        ensures { OnOk result (self.new ≡ self.old ++ text_of (spec.constant_line constant.now)) }
    {
        self.constant_begin(&constant.name)?;
        self.constant_value(constant.bytes.as_slice())?;
        self.byte(b'\n')
    }

    /// Adds `@0 = internal constant `.
    #[tactic(auto, unfolding(crate::specs::Canonical::constant_begin))]
    fn constant_begin(&mut self, name: &Name) -> Result<(), Memory>
        ensures { OnOk result (self.new ≡ self.old ++ text_of (spec.constant_begin name.now)) }
    {
        self.global_name(name)?;
        self.write(b" = internal constant ")
    }

    /// Adds `[3 x i8] c"r0\00"`.
    #[tactic(auto, unfolding(crate::specs::Canonical::constant_value))]
    fn constant_value(&mut self, bytes: &[u8]) -> Result<(), Memory>
        ensures { OnOk result (self.new ≡ self.old ++ text_of (spec.constant_value bytes.now)) }
    {
        self.array(bytes.len())?;
        self.write(b" c")?;
        self.quoted(bytes)
    }
}
