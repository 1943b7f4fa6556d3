//! The operations that can't be undone (QIR specification, 'Base Profile').
ghost use Rattle.std.specs.Prelude.{◌≡◌, ◌++◌, Some, codes, map, IfOk, OnOk};
ghost use Rattle.ir_values.specs.Calls.{qis};
ghost use Rattle.ir_values.specs.declared.class.Class.TheVariants as class;
ghost use Rattle.ir_module.specs.Classes.{class_of_function};
ghost use Rattle.lowered_program.specs.Residues as spec;

use ir_module::{Function, Module};
use ir_values::{Bytes, Class, Memory, Seq};
use residue::Names;
use std::alloc::Global;

/// The measurement that is issued where one returns its result.
fn measurement(alloc: Global) -> Result<Bytes, Memory>
    ensures { IfOk result (λ name. name ≡ qis (codes "mz__body")) }
{
    Bytes::from_slice(alloc, b"__quantum__qis__mz__body")
}

/// Adds the name that calls of a function issue, if it can't be undone.
fn push_name(
    alloc: Global,
    names: &mut Names,
    f: &Function,
    class: Option<Class>,
) -> Result<(), Memory>
    ensures { OnOk result (names.new ≡ names.old ++ spec.irreversible_as f.now class) }
{
    match class {
        Some(Class::Measure) => names.push(Bytes::from_slice(alloc, f.name.text())?),
        Some(Class::Returning) => names.push(measurement(alloc)?),
        Some(Class::Gate) => push_gate(alloc, names, f),
        _ => Ok(()),
    }
}

/// Adds the name of a gate, if it is declared as one that can't be undone.
fn push_gate(alloc: Global, names: &mut Names, f: &Function) -> Result<(), Memory>
    ensures { OnOk result (names.new ≡ names.old ++ spec.irreversible_as f.now (Some class.Gate)) }
{
    if f.attribute(b"irreversible").is_some() {
        names.push(Bytes::from_slice(alloc, f.name.text())?)
    } else {
        Ok(())
    }
}

/// The names of the operations that can't be undone and that calls of the module's functions issue, in the order of
/// these. The classes are those of the functions.
pub fn irreversible_of(
    alloc: Global,
    m: &Module,
    classes: &[Option<Class>],
) -> Result<Names, Memory>
    requires { classes.now ≡ map class_of_function m.now.funcs }
    ensures { IfOk result (λ names. names ≡ spec.irreversible_of m.now) }
{
    let mut names = Seq::new(alloc);
    let mut functions = m.funcs.as_slice();
    let mut classes = classes;
    while let [f, functions_behind @ ..] = functions {
        let [class, classes_behind @ ..] = classes else {
            return Ok(names);
        };
        push_name(alloc, &mut names, f, *class)?;
        functions = functions_behind;
        classes = classes_behind;
    }
    Ok(names)
}
