//! The rules on the entry, the first function with a body and the attribute `entry_point`.
ghost use Rattle.std.specs.Prelude.{◌≡◌, ◌<◌, ◌^◌, length};
ghost use Rattle.type_check.specs.code.Entries as spec;
ghost use Rattle.type_check.specs.code.Search as search;

use crate::code::TypeCode;
use crate::numbers::{is_entry_type, numbers_are_plain};
use ir_module::{Function, Module, Spot};
use ir_values::FuncId;

/// The rule that function `g` breaks, where function `e` is the entry.
fn entry_breaks(limit: u64, e: u32, g: u32, f: &Function) -> Option<TypeCode>
    ensures { result ≡ spec.entry_breaks limit e g f.now }
{
    if g != e {
        if f.is_entry() {
            Some(TypeCode::NoEntry)
        } else {
            None
        }
    } else if !numbers_are_plain(limit, f) {
        Some(TypeCode::BadNumberAttr)
    } else if !is_entry_type(f) {
        Some(TypeCode::EntrySignature)
    } else {
        None
    }
}

/// The first of the functions that breaks a rule, where function `e` is the entry.
fn entries_fault(limit: u64, e: FuncId, mut funcs: &[Function]) -> Option<(Spot, TypeCode)>
    requires { length funcs.now < 2 ^ 32 }
    ensures { result ≡ spec.entries_fault limit e.0 0 funcs.entry.now }
{
    let mut g = 0u32;
    while let [f, rest @ ..] = funcs {
        if let Some(code) = entry_breaks(limit, e.0, g, f) {
            return Some((Spot::Func(FuncId(g)), code));
        }
        g += 1;
        funcs = rest;
    }
    None
}

/// The first fault of a module against the rules on its entry.
pub(crate) fn entry_fault(limit: u64, m: &Module) -> Option<(Spot, TypeCode)>
    requires { length m.now.funcs < 2 ^ 32 }
    ensures { result ≡ search.entry_fault m.now limit }
{
    match m.entry() {
        Some(e) => entries_fault(limit, e, m.funcs.as_slice()),
        None => Some((Spot::Module, TypeCode::NoEntry)),
    }
}
