//! What calls call.
ghost use Rattle.std.specs.Prelude.{◌≡◌, ◌&&◌, not, is_some, map, option_copied, IfOk};
ghost use Rattle.profile_rules.specs.Calls as spec;
ghost use Rattle.profile_rules.specs.Shared.{has_other_body, is_first_of_entry};
ghost use Rattle.findings.specs.code.Told.{IsTold};

use ir_module::{Callee, Function, Module, Point};
use ir_values::{Class, FuncId, Memory, Seq};
use std::alloc::Global;

/// What each function of a module does where it is declared. None of one that has a body or no class.
pub type Classes = Seq<Option<Class>>;

/// The functions of a module with their classes.
#[derive(Clone, Copy)]
pub struct Callees<'a> {
    pub tree: &'a Module,
    pub classes: &'a [Option<Class>],
}

/// What a function does where it is declared. None where it has a body or no class.
fn declared_class(alloc: Global, f: &Function) -> Result<Option<Class>, Memory>
    ensures { IfOk result (λ class. class ≡ spec.declared_class f.now) }
{
    match &f.blocks {
        Some(_) => Ok(None),
        None => f.class(alloc),
    }
}

/// The classes of functions, in order.
pub fn classes(alloc: Global, mut funcs: &[Function]) -> Result<Classes, Memory>
    ensures { IfOk result (λ classes. classes ≡ map spec.declared_class funcs.entry.now) }
{
    let mut classes = Classes::new(alloc);
    while let [f, rest @ ..] = funcs {
        classes.push(declared_class(alloc, f)?)?;
        funcs = rest;
    }
    Ok(classes)
}

impl<'a> Callees<'a> {
    /// The function that is called by its name.
    pub fn function(&self, callee: Callee) -> Option<&'a Function>
        ensures { option_copied result ≡ spec.called_function self.now.tree.now callee }
    {
        match callee {
            Callee::Func(g) => self.tree.funcs.as_slice().get(g.0 as usize),
            Callee::Local(_) => None,
        }
    }

    /// The class of the declared function that is called.
    pub fn class(&self, callee: Callee) -> Option<Class>
        requires { IsTold self.now }
        ensures { result ≡ spec.called_class self.now.tree.now callee }
    {
        match callee {
            Callee::Func(g) => self.classes.get(g.0 as usize).copied().flatten(),
            Callee::Local(_) => None,
        }
    }

    /// Whether a function with a body is called by its name.
    pub fn has_body(&self, callee: Callee) -> bool
        ensures { result ≡ spec.passes (spec.called_function self.now.tree.now callee) (λ f. is_some f.blocks) }
    {
        match self.function(callee) {
            Some(f) => f.blocks.is_some(),
            None => false,
        }
    }
}

/// Whether this is a function with a body other than the entry.
pub fn is_other_body(entry: FuncId, number: FuncId, f: &Function) -> bool
    ensures { result ≡ has_other_body entry.0 number.0 f.now }
{
    number != entry && f.blocks.is_some()
}

fn is_init(class: Option<Class>) -> bool
    ensures { result ≡ spec.passes class spec.is_init }
{
    matches!(class, Some(Class::Init))
}

fn is_first_of_entry(entry: FuncId, at: Point) -> bool
    ensures { result ≡ is_first_of_entry entry.0 at }
{
    at.func == entry && at.block.0 == 0 && at.index == 0
}

/// Whether a call of this class initialises the runtime, and isn't the first instruction of the entry.
pub fn is_late_init(entry: FuncId, at: Point, class: Option<Class>) -> bool
    ensures { result ≡ (spec.passes class spec.is_init && not (is_first_of_entry entry.0 at)) }
{
    is_init(class) && !is_first_of_entry(entry, at)
}
