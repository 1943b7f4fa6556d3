//! The classes of a module's functions.
ghost use Rattle.std.specs.Prelude.{◌≡◌, IfOk, map};
ghost use Rattle.ir_module.specs.Classes.{class_of_function};

use ir_module::Function;
use ir_values::{Class, Memory, Seq};
use std::alloc::Global;

/// The class of each function of a module, where it has one.
pub type Classes = Seq<Option<Class>>;

/// The classes of these functions, so that none is looked up twice.
pub(crate) fn classes_of(alloc: Global, mut functions: &[Function]) -> Result<Classes, Memory>
    ensures { IfOk result (λ classes. classes ≡ map class_of_function functions.entry.now) }
{
    let mut classes = Classes::new(alloc);
    while let [function, rest @ ..] = functions {
        classes.push(function.class(alloc)?)?;
        functions = rest;
    }
    Ok(classes)
}
