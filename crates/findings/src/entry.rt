//! The rules on the attributes of the entry that profiles share (QIR specification, 'Attributes').
ghost use Rattle.std.specs.Prelude.{◌≡◌};
ghost use Rattle.ir_values.specs.Calls.{same_text};
ghost use Rattle.ir_module.specs.Entry.{has_attribute};
ghost use Rattle.profile_rules.specs.Calls.{passes};
ghost use Rattle.profile_rules.specs.Shared as spec;

use ir_module::{Attr, Function};

fn has_text(a: &Attr, text: &[u8]) -> bool
    ensures { result ≡ passes a.now.value (λ t. same_text t text.now) }
{
    match &a.value {
        Some(value) => value.as_slice() == text,
        None => false,
    }
}

/// Whether the first attribute with the key has this text as its value.
fn attribute_is(f: &Function, key: &[u8], text: &[u8]) -> bool
    ensures { result ≡ spec.attribute_is key.now text.now f.now }
{
    match f.attribute(key) {
        Some(a) => has_text(a, text),
        None => false,
    }
}

fn has(f: &Function, key: &[u8]) -> bool
    ensures { result ≡ has_attribute key.now f.now.attrs }
{
    f.attribute(key).is_some()
}

/// Whether the function doesn't name this profile as its own.
pub fn names_other_profile(f: &Function, profile: &[u8]) -> bool
    ensures { result ≡ spec.names_other_profile profile.now f.now }
{
    !attribute_is(f, b"qir_profiles", profile)
}

/// Whether the function doesn't say how output is labelled.
pub fn lacks_labeling_schema(f: &Function) -> bool
    ensures { result ≡ spec.lacks_labeling_schema f.now }
{
    !has(f, b"output_labeling_schema")
}

/// Whether the function doesn't say how many qubits and results it needs.
pub fn lacks_required_number(f: &Function) -> bool
    ensures { result ≡ spec.lacks_required_number f.now }
{
    !(has(f, b"required_num_qubits") && has(f, b"required_num_results"))
}
