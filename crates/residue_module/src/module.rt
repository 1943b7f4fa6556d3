//! The module that a residue is for a target.
ghost use Rattle.std.specs.Prelude.{◌≡◌, ◌∷◌, [], map, IfOk};
ghost use Rattle.called_functions.specs.code.Tables.{Lists};
ghost use Rattle.residue.specs.Functions.{declaration, declared_of};
ghost use Rattle.residue.specs.Printed as spec;
ghost use Rattle.residue.specs.Valid.{Valid};
ghost use Rattle.residue_module.specs.code.Names.{Holds};

use crate::attributes::entry_attrs;
use crate::flags::module_flags;
use crate::names::{LocalNames, names_of_parts};
use crate::printer::Printer;
use called_functions::{Table, name_set, table_of};
use ir_module::{Blocks, Function, Functions, Locals, Module};
use ir_values::{Copies, Memory, Seq, Ty, Width};
use kept_items::Target;
use residue::Residue;
use std::alloc::Global;

/// The blocks of the printed entry.
fn blocks(
    alloc: Global,
    names: &LocalNames,
    functions: &Table,
    residue: &Residue,
    target: Target,
) -> Result<Blocks, Memory>
    requires valid { Valid residue.now target }
    requires names { Holds (spec.names_of residue.now.parts) names.now }
    requires functions { Lists residue.now.irreversible (declared_of residue.now) functions.now }
    ensures { IfOk result (λ l. l ≡ spec.print_blocks residue.now target) }
{
    let printer = Printer {
        names,
        functions,
        qubits: residue.own_qubits,
        results: residue.own_results,
    };
    match target {
        Target::Base => {
            let irreversible = name_set(alloc, residue.irreversible.as_slice())?;
            printer.base_blocks(alloc, &irreversible, residue.parts.as_slice())
        }
        Target::Adaptive(_) => printer.adaptive_blocks(alloc, residue.parts.as_slice()),
    }
}

/// The printed entry, with these local names and blocks.
fn entry(
    alloc: Global,
    residue: &Residue,
    target: Target,
    locals: Locals,
    blocks: Blocks,
) -> Result<Function, Memory>
    requires locals { locals ≡ spec.locals_from 0 (spec.names_of residue.now.parts) }
    requires blocks { blocks ≡ spec.print_blocks residue.now target }
    ensures { IfOk result (λ f. f ≡ spec.printed_entry residue.now target) }
{
    Ok(Function {
        name: residue.entry.copy(alloc)?,
        ret: Ty::Int(Width::W64),
        params: 0,
        locals,
        attrs: entry_attrs(alloc, residue, target)?,
        blocks: Some(blocks),
    })
}

/// The entry before declarations.
fn with_declarations(
    alloc: Global,
    entry: Function,
    declarations: Functions,
) -> Result<Functions, Memory>
    ensures { IfOk result (λ l. l ≡ entry ∷ declarations) }
{
    let mut functions = Seq::new(alloc);
    functions.push(entry)?;
    functions.append(declarations)?;
    Ok(functions)
}

/// The functions of the module: the entry, and the declarations of those that it calls.
fn functions(alloc: Global, residue: &Residue, target: Target) -> Result<Functions, Memory>
    requires { Valid residue.now target }
    ensures { IfOk result (λ l. l ≡ spec.printed_entry residue.now target ∷ map (declaration residue.now.irreversible) (declared_of residue.now)) }
{
    let table = table_of(alloc, residue)?;
    let names = names_of_parts(alloc, residue.parts.as_slice())?;
    let blocks = blocks(alloc, &names, &table, residue, target)?;
    let LocalNames { locals, firsts: _ } = names;
    let Table {
        names: _,
        functions,
    } = table;
    let entry = entry(alloc, residue, target, locals, blocks)?;
    with_declarations(alloc, entry, functions)
}

/// The module that a valid residue is for a target. [`Memory`] comes where there is none for it.
pub fn to_module(alloc: Global, residue: &Residue, target: Target) -> Result<Module, Memory>
    requires { Valid residue.now target }
    ensures { IfOk result (λ m. m ≡ spec.printed residue.now target) }
{
    Ok(Module {
        globals: residue.globals.copy(alloc)?,
        funcs: functions(alloc, residue, target)?,
        flags: module_flags(alloc, target)?,
    })
}
