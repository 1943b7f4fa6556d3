//! The first fault of a module.
ghost use Rattle.std.specs.Prelude.{◌≡◌, ⊤, is_none, map, IfOk, MatchOption};
ghost use Rattle.ir_module.specs.Numbered.{Numbered};
ghost use Rattle.type_check.specs.code.Operands.{signature_of};
ghost use Rattle.type_check.specs.code.Walk as walk;
ghost use Rattle.type_check.specs.Faults.{Typed, IsFirstFault};
ghost use Rattle.type_check.specs.Told.{HasPlace};

use crate::code::TypeCode;
use crate::entries::entry_fault;
use crate::required::{Required, numbers_of};
use crate::reserved::constants_have_own_names;
use crate::signatures::{Signature, signatures};
use crate::walk::{Fault, Tree};
use ir_module::{Module, Spot};
use ir_values::Memory;
use std::alloc::Global;

/// The numbers that qubits and results have to be below: where the entry has a fault there are none.
fn required(
    limit: u64,
    m: &Module,
    signatures: &[Signature],
    entry: Option<Fault>,
) -> Option<Required>
    requires { signatures.now ≡ map signature_of m.now.funcs }
    ensures { result ≡ walk.required_of m.now limit (is_none entry) }
{
    match entry {
        Some(_) => None,
        None => Some(numbers_of(limit, m, signatures)),
    }
}

/// The first fault against rules that aren't on the entry.
fn other_fault(
    alloc: Global,
    m: &Module,
    signatures: &[Signature],
    required: Option<Required>,
) -> Result<Option<Fault>, Memory>
    requires numbered { Numbered m.now }
    requires told { signatures.now ≡ map signature_of m.now.funcs }
    ensures { IfOk result (λ r. r ≡ walk.module_fault m.now required) }
{
    if !constants_have_own_names(m) {
        return Ok(Some((Spot::Module, TypeCode::ReservedName)));
    }
    let tree = Tree {
        module: m,
        signatures,
        required,
    };
    tree.functions_fault(alloc, 0, m.funcs.as_slice())
}

/// The first fault of a module whose numbers are in order, where required numbers may be `limit` at
/// most: where it is, which has a place in the module's text, and which rule it breaks. None exactly where the module keeps all rules. Faults
/// on the entry come last, and of the others the first in text order, and at one spot the rule with
/// the least number. The only error is want of memory. It goes over the module once, and sorts the
/// edges of each function and the entries of each phi.
pub fn first_fault(
    alloc: Global,
    m: &Module,
    limit: u64,
) -> Result<Option<(Spot, TypeCode)>, Memory>
    requires { Numbered m.now }
    ensures first { IfOk result (λ r. MatchOption r (Typed m.now limit) (λ fault. IsFirstFault m.now limit fault.0 fault.1)) }
    ensures placed { IfOk result (λ r. MatchOption r ⊤ (λ fault. HasPlace m.now fault.0)) }
{
    let entry = entry_fault(limit, m);
    let signatures = signatures(alloc, m.funcs.as_slice())?;
    let bounds = required(limit, m, signatures.as_slice(), entry);
    let other = other_fault(alloc, m, signatures.as_slice(), bounds)?;
    Ok(other.or(entry))
}
