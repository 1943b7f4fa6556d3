//! What the rules ask of each function of a module, found once.
ghost use Rattle.std.specs.Prelude.{◌≡◌, ◌||◌, is_some, map, IfOk};
ghost use Rattle.ir_module.specs.Classes.{class_of_function};
ghost use Rattle.type_check.specs.code.Operands as spec;

use ir_module::Function;
use ir_values::{Memory, Seq, Sig};
use std::alloc::Global;

/// The type of a function, and whether it has a body or a class.
#[derive(Drop)]
pub(crate) struct Signature {
    pub(crate) words: Sig,
    pub(crate) known: bool,
}

/// Whether the function has a body or a class.
fn is_known(alloc: Global, f: &Function) -> Result<bool, Memory>
    ensures { IfOk result (λ known. known ≡ (is_some f.now.blocks || is_some (class_of_function f.now))) }
{
    match &f.blocks {
        Some(_) => Ok(true),
        None => Ok(f.class(alloc)?.is_some()),
    }
}

fn signature_of(alloc: Global, f: &Function) -> Result<Signature, Memory>
    ensures { IfOk result (λ s. s ≡ spec.signature_of f.now) }
{
    let words = f.signature(alloc)?;
    let known = is_known(alloc, f)?;
    Ok(Signature { words, known })
}

/// The types of functions, in order.
pub(crate) fn signatures(alloc: Global, mut funcs: &[Function]) -> Result<Seq<Signature>, Memory>
    ensures { IfOk result (λ s. s ≡ map spec.signature_of funcs.entry.now) }
{
    let mut signatures = Seq::new(alloc);
    while let [f, rest @ ..] = funcs {
        signatures.push(signature_of(alloc, f)?)?;
        funcs = rest;
    }
    Ok(signatures)
}
