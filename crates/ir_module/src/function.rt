//! Functions by their numbers, their attributes and their types.
ghost use Rattle.std.specs.Prelude.{◌≡◌, ◌<◌, ◌≤◌, ◌^◌, length, map, slice_get, IsSome, IfOk};
ghost use Rattle.std.specs.Option.{option_copied, option_map};
ghost use Rattle.ir_module.specs.Classes.{parameter_types, type_words, class_of_function};
ghost use Rattle.ir_module.specs.Entry.{attribute_of, has_attribute, is_entry, entry_of, entry_from};
ghost use Rattle.ir_module.specs.Tree.{block_at};

use crate::tree::{Attr, Block, Function, Module};
use ir_values::{BlockId, Class, Copies, FuncId, Memory, Name, Sig, Ty, Tys, call_class};
use std::alloc::Global;

impl Module {
    /// The function of this number, which is in range. It takes no memory.
    pub fn function(&self, f: FuncId) -> &Function
        requires { f.0 < length self.now.funcs }
        ensures { slice_get self.now.funcs f.0 ≡ Some result.now }
    {
        self.funcs.at(f.0 as usize)
    }

    /// The entry of a module of at most 2^32 functions: the first function that is one ([`Function::is_entry`]). None where
    /// no function is. It takes no memory.
    #[tactic(auto, unfolding(crate::specs::Entry::entry_of))]
    pub fn entry(&self) -> Option<FuncId>
        requires { length self.now.funcs ≤ 2 ^ 32 }
        ensures { option_map (λ f. f.0) result ≡ option_map (λ e. e.number) (entry_of self.now) }
    {
        first_entry(self.funcs.as_slice())
    }
}

/// The number of the first entry among these functions.
fn first_entry(mut funcs: &[Function]) -> Option<FuncId>
    requires { length funcs.now ≤ 2 ^ 32 }
    ensures { option_map (λ f. f.0) result ≡ option_map (λ e. e.number) (entry_from 0 funcs.entry.now) }
{
    let mut number: u64 = 0;
    while let [f, rest @ ..] = funcs {
        if f.is_entry() {
            return Some(FuncId(number as u32));
        }
        number += 1;
        funcs = rest;
    }
    None
}

impl Function {
    /// The block of this number, which is in range, of a function with a body. It takes no memory.
    pub fn block(&self, b: BlockId) -> &Block
        requires { IsSome (block_at self.now b) }
        ensures { block_at self.now b ≡ Some result.now }
    {
        match &self.blocks {
            Some(blocks) => blocks.at(b.0 as usize),
            None => unreachable!(),
        }
    }

    /// The first attribute with this key, if there is one. It takes no memory.
    pub fn attribute(&self, key: &[u8]) -> Option<&Attr>
        ensures { option_copied result ≡ attribute_of key.now self.now.attrs }
    {
        self.attrs
            .as_slice()
            .iter()
            .find(|a| a.key.as_slice() == key)
    }

    /// Whether it has a body and the attribute `entry_point` (QIR specification, 'Entry Point'). It
    /// takes no memory.
    pub fn is_entry(&self) -> bool
        ensures { result ≡ is_entry self.now }
    {
        self.blocks.is_some() && self.attribute(b"entry_point").is_some()
    }

    /// The function pointer type of its pointers: its return type and the types of its parameters.
    pub fn signature(&self, alloc: Global) -> Result<Sig, Memory>
        ensures { IfOk result (λ s. s ≡ type_words self.now) }
    {
        let params = self.parameter_types(alloc)?;
        Sig::new(alloc, &self.ret, &params)
    }

    fn parameter_types(&self, alloc: Global) -> Result<Tys, Memory>
        ensures types { IfOk result (λ ts. ts ≡ parameter_types self.now) }
        ensures few { IfOk result (λ ts. length ts < 2 ^ 32) }
    {
        let locals = self.locals.as_slice();
        let count = locals.len().min(self.params as usize);
        types_of(alloc, locals.split_at(count).0)
    }

    /// What the function does where it is declared, by its name and its type (QIR specification, 'Runtime Functions' and
    /// 'Quantum Instruction Set'). None where it has no class, as a function has whose name is a number.
    pub fn class(&self, alloc: Global) -> Result<Option<Class>, Memory>
        ensures { IfOk result (λ class. class ≡ class_of_function self.now) }
    {
        match &self.name {
            Name::Text(name) => Ok(call_class(name, &self.signature(alloc)?)),
            Name::Number(_) => Ok(None),
        }
    }
}

/// The types of local names, in order.
fn types_of(alloc: Global, locals: &[(Name, Ty)]) -> Result<Tys, Memory>
    ensures { IfOk result (λ ts. ts ≡ map (λ l. l.1) locals.now) }
{
    let mut types = Tys::new(alloc);
    for local in locals {
        types.push(local.1.copy(alloc)?)?;
    }
    Ok(types)
}
