//! The required numbers of qubits and results.
ghost use Rattle.std.specs.Prelude.{◌≡◌, true, option_and_then};
ghost use Rattle.std.specs.Char.{is_ascii_digit};
ghost use Rattle.std.specs.List.{list_all};
ghost use Rattle.std.specs.Str.Parse.{digits_value};
ghost use Rattle.ir_module.specs.Entry.{attribute_of};
ghost use Rattle.type_check.specs.code.Numbers.{at_most};
ghost use Rattle.type_check.specs.code.Operands.{above};
ghost use Rattle.type_check.specs.Required as spec;
ghost use Rattle.type_check.specs.Rules.{is_entry_type};

use crate::scene::same_type;
use ir_module::{Attr, Function};
use ir_values::{Ty, Width};

/// The key of the required number of qubits.
pub(crate) const QUBITS: &[u8] = b"required_num_qubits";
/// The key of the required number of results.
pub(crate) const RESULTS: &[u8] = b"required_num_results";

/// Whether there is nothing but digits.
fn are_digits(mut bytes: &[u8]) -> bool
    ensures { result ≡ list_all is_ascii_digit bytes.entry.now }
{
    while let [c, rest @ ..] = bytes {
        if !c.is_ascii_digit() {
            return false;
        }
        bytes = rest;
    }
    true
}

/// Whether the text is a number in plain decimal digits.
fn is_plain(text: &[u8]) -> bool
    ensures { result ≡ spec.is_plain text.now }
{
    match text {
        [] => false,
        [c] => c.is_ascii_digit(),
        [c, ..] => *c != b'0' && are_digits(text),
    }
}

/// The number that the digits write. None where it is above the limit.
#[tactic(auto, using(crate::proofs::PlainNumbers::too_many, crate::proofs::PlainNumbers::within))]
fn value_within(limit: u64, mut digits: &[u8]) -> Option<u64>
    requires { list_all is_ascii_digit digits.now ≡ true }
    ensures { result ≡ at_most limit (digits_value 10 digits.entry.now) }
{
    let mut value = 0u64;
    while let [c, rest @ ..] = digits {
        let more = u128::from(value) * 10 + u128::from(*c - b'0');
        if u128::from(limit) < more {
            return None;
        }
        value = more as u64;
        digits = rest;
    }
    Some(value)
}

/// The number of at most the limit that a text writes in plain decimal digits.
#[tactic(auto, using(crate::proofs::PlainNumbers::plain_digits))]
fn plain_number(limit: u64, text: &[u8]) -> Option<u64>
    ensures { result ≡ spec.plain_number limit text.now }
{
    if is_plain(text) {
        value_within(limit, text)
    } else {
        None
    }
}

fn stated_by(limit: u64, a: &Attr) -> Option<u64>
    ensures { result ≡ spec.stated_by limit a.now }
{
    match &a.value {
        Some(text) => plain_number(limit, text.as_slice()),
        None => None,
    }
}

/// Whether the attribute with the key, where it is there, states a number.
fn states_number(limit: u64, f: &Function, key: &[u8]) -> bool
    ensures { result ≡ spec.states_number limit (attribute_of key.now f.now.attrs) }
{
    match f.attribute(key) {
        Some(a) => stated_by(limit, a).is_some(),
        None => true,
    }
}

/// The number that the attribute with the key states.
pub(crate) fn stated(limit: u64, f: &Function, key: &[u8]) -> Option<u64>
    ensures { result ≡ option_and_then (spec.stated_by limit) (attribute_of key.now f.now.attrs) }
{
    match f.attribute(key) {
        Some(a) => stated_by(limit, a),
        None => None,
    }
}

/// Whether both required numbers of the function are numbers or missing.
pub(crate) fn numbers_are_plain(limit: u64, f: &Function) -> bool
    ensures { result ≡ spec.numbers_are_plain limit f.now }
{
    states_number(limit, f, QUBITS) && states_number(limit, f, RESULTS)
}

/// Whether the function has the type of an entry: no parameters, and the return type `i64` or `void`.
pub(crate) fn is_entry_type(f: &Function) -> bool
    ensures { result ≡ is_entry_type f.now }
{
    f.params == 0 && (same_type(&f.ret, &Ty::Int(Width::W64)) || matches!(f.ret, Ty::Void))
}

/// One more than the number, but at most the limit; 0 where there is none.
pub(crate) fn above(limit: u64, number: Option<u64>) -> u64
    ensures { result ≡ above limit number }
{
    match number {
        None => 0,
        Some(n) => { if n < limit { n + 1 } else { limit } }
    }
}
