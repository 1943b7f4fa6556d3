//! The required numbers of qubits and results of a whole module.
ghost use Rattle.std.specs.Prelude.{◌≡◌, option_map, map, unwrap_or, IfOk};
ghost use Rattle.std.specs.List.{find};
ghost use Rattle.std.specs.Option.{option_copied};
ghost use Rattle.ir_module.specs.Entry.{entry_of, is_entry};
ghost use Rattle.type_check.specs.code.Operands.{above, signature_of};
ghost use Rattle.type_check.specs.Required as spec;

use crate::numbers::{QUBITS, RESULTS, above, stated};
use crate::signatures::{Signature, signatures};
use crate::written::module_seen;
use ir_module::{Function, Module};
use ir_values::Memory;
use std::alloc::Global;

/// The required numbers of a module: in one without faults each number that it writes for a qubit or
/// a result is below.
#[derive(Clone, Copy)]
pub struct Required {
    pub qubits: u64,
    pub results: u64,
}

fn first_entry(funcs: &[Function]) -> Option<&Function>
    ensures { option_copied result ≡ find is_entry funcs.now }
{
    funcs.iter().find(|f| f.is_entry())
}

/// The entry, if there is one.
fn entry_function(m: &Module) -> Option<&Function>
    ensures { option_copied result ≡ option_map (λ e. e.function) (entry_of m.now) }
{
    first_entry(m.funcs.as_slice())
}

/// The number that the entry states by the attribute with the key.
#[tactic(auto, using(crate::proofs::EntryFaults::stated_is))]
fn stated_by_entry(limit: u64, m: &Module, key: &[u8]) -> Option<u64>
    ensures { result ≡ spec.stated key.now limit (entry_of m.now) }
{
    match entry_function(m) {
        Some(f) => stated(limit, f, key),
        None => None,
    }
}

/// The number that the entry states, or one above the greatest that is written.
fn stated_or_above(limit: u64, m: &Module, key: &[u8], greatest: Option<u64>) -> u64
    ensures { result ≡ unwrap_or (spec.stated key.now limit (entry_of m.now)) (above limit greatest) }
{
    match stated_by_entry(limit, m, key) {
        Some(n) => n,
        None => above(limit, greatest),
    }
}

/// The required numbers of a module whose functions have these types.
#[tactic(auto, using(crate::proofs::GreatestNumbers::above_qubits, crate::proofs::GreatestNumbers::above_results), unfolding(crate::specs::Required::required_qubits, crate::specs::Required::required_results))]
pub(crate) fn numbers_of(limit: u64, m: &Module, signatures: &[Signature]) -> Required
    requires { signatures.now ≡ map signature_of m.now.funcs }
    ensures qubits { result.qubits ≡ spec.required_qubits m.now limit }
    ensures results { result.results ≡ spec.required_results m.now limit }
{
    let seen = module_seen(m, signatures);
    Required {
        qubits: stated_or_above(limit, m, QUBITS, seen.qubit),
        results: stated_or_above(limit, m, RESULTS, seen.result),
    }
}

/// The required numbers of a module where they may be `limit` at most: those that the entry states,
/// and where one is missing, one above the greatest that the module writes for that kind. The only
/// error is want of memory.
pub fn required_numbers(alloc: Global, m: &Module, limit: u64) -> Result<Required, Memory>
    ensures qubits { IfOk result (λ n. n.qubits ≡ spec.required_qubits m.now limit) }
    ensures results { IfOk result (λ n. n.results ≡ spec.required_results m.now limit) }
{
    let signatures = signatures(alloc, m.funcs.as_slice())?;
    Ok(numbers_of(limit, m, signatures.as_slice()))
}
