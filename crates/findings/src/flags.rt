//! The rule on flags that profiles share (QIR specification, 'Module Flags Metadata').
ghost use Rattle.std.specs.Prelude.{◌≡◌, ◌==◌, ◌&&◌, option_copied};
ghost use Rattle.profile_rules.specs.Shared as spec;

use ir_module::{Flag, FlagPart, FlagValue};

/// The first flag of a key, if there is one. It takes no memory.
pub fn flag_of<'a>(flags: &'a [Flag], key: &[u8]) -> Option<&'a Flag>
    ensures { option_copied result ≡ spec.flag_of key.now flags.now }
{
    flags.iter().find(|a| a.key.as_slice() == key)
}

fn value_is(value: &FlagValue, width: u32, bits: u128) -> bool
    ensures { result ≡ spec.value_is width bits value.now }
{
    match value {
        FlagValue::One(FlagPart::Int { width: w, bits: b }) => *w == width && *b == bits,
        FlagValue::One(FlagPart::Text(_)) => false,
        FlagValue::List(_) => false,
    }
}

fn is(a: &Flag, behaviour: u32, width: u32, bits: u128) -> bool
    ensures { result ≡ ((a.now.behaviour == behaviour) && spec.value_is width bits a.now.value) }
{
    a.behaviour == behaviour && value_is(&a.value, width, bits)
}

/// Whether the first flag of the key has this behaviour and this integer of this width as its value.
fn flag_is(flags: &[Flag], key: &[u8], behaviour: u32, width: u32, bits: u128) -> bool
    ensures { result ≡ spec.flag_is key.now behaviour width bits flags.now }
{
    match flag_of(flags, key) {
        Some(a) => is(a, behaviour, width, bits),
        None => false,
    }
}

/// Whether one of the four flags that every profile asks for is missing or differs: version 1.0, no dynamic qubits and
/// no dynamic results.
pub fn lacks_required_flag(flags: &[Flag]) -> bool
    ensures { result ≡ spec.lacks_required_flag flags.now }
{
    !(flag_is(flags, b"qir_major_version", 1, 32, 1)
        && flag_is(flags, b"qir_minor_version", 7, 32, 0)
        && flag_is(flags, b"dynamic_qubit_management", 1, 1, 0)
        && flag_is(flags, b"dynamic_result_management", 1, 1, 0))
}
