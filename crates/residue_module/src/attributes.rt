//! The attributes of the printed entry: five of its own, and the source's others.
ghost use Rattle.std.specs.Prelude.{◌≡◌, ◌++◌, ◌∷◌, [], None, Some, not, codes, filter, decimal, option_and_then, IfOk, OnOk};
ghost use Rattle.std.specs.Option.{option_copied};
ghost use Rattle.ir_module.specs.declared.tree.Attr.{Attr};
ghost use Rattle.ir_module.specs.Entry.{attribute_of};
ghost use Rattle.ir_values.specs.Calls.{same_text};
ghost use Rattle.residue.specs.Functions.{attr, is_named};
ghost use Rattle.residue.specs.Printed as spec;

use called_functions::text;
use ir_module::{Attr, Attrs};
use ir_values::{Bytes, Copies, Memory, Seq, push_decimal};
use kept_items::Target;
use residue::Residue;
use std::alloc::Global;

/// Adds an attribute last.
fn add(alloc: Global, attrs: &mut Attrs, key: &[u8], value: Option<Bytes>) -> Result<(), Memory>
    ensures { OnOk result (attrs.new ≡ attrs.old ++ attr key.now value ∷ []) }
{
    attrs.push(Attr {
        key: text(alloc, key)?,
        value,
    })
}

/// The digits of a number.
fn digits(alloc: Global, number: u64) -> Result<Bytes, Memory>
    ensures { IfOk result (λ b. b ≡ decimal number) }
{
    let mut bytes = Bytes::new(alloc);
    push_decimal(&mut bytes, u128::from(number))?;
    Ok(bytes)
}

/// The name of a target's profile.
fn profile_of(alloc: Global, target: Target) -> Result<Bytes, Memory>
    ensures { IfOk result (λ b. b ≡ spec.profile_of target) }
{
    match target {
        Target::Base => text(alloc, b"base_profile"),
        Target::Adaptive(_) => text(alloc, b"adaptive_profile"),
    }
}

/// The first attribute with this key, if there is one.
fn attribute<'a>(attrs: &'a [Attr], key: &[u8]) -> Option<&'a Attr>
    ensures { option_copied result ≡ attribute_of key.now attrs.now }
{
    attrs.iter().find(|a| a.key.as_slice() == key)
}

/// The value of the source's attribute on labels, if it has one.
fn schema(alloc: Global, attrs: &[Attr]) -> Result<Option<Bytes>, Memory>
    ensures { IfOk result (λ v. v ≡ option_and_then (λ (a : Attr). a.value) (attribute_of spec.schema_key attrs.now)) }
{
    match attribute(attrs, b"output_labeling_schema") {
        Some(attr) => attr.value.copy(alloc),
        None => Ok(None),
    }
}

fn is_text(bytes: &[u8], other: &[u8]) -> bool
    ensures { result ≡ same_text bytes.now other.now }
{
    bytes == other
}

/// Whether the printed entry has an attribute of its own with this key.
fn is_own(key: &[u8]) -> bool
    ensures { result ≡ is_named spec.own_keys key.now }
{
    is_text(key, b"entry_point")
        || is_text(key, b"qir_profiles")
        || is_text(key, b"output_labeling_schema")
        || is_text(key, b"required_num_qubits")
        || is_text(key, b"required_num_results")
}

/// Adds the attributes of the source for which the printed entry has none of its own.
fn add_others(alloc: Global, attrs: &mut Attrs, mut source: &[Attr]) -> Result<(), Memory>
    ensures { OnOk result (attrs.new ≡ attrs.old ++ filter (λ a. not (is_named spec.own_keys a.key)) source.entry.now) }
{
    while let [attr, rest @ ..] = source {
        if !is_own(attr.key.as_slice()) {
            attrs.push(attr.copy(alloc)?)?;
        }
        source = rest;
    }
    Ok(())
}

/// The attributes by which a tool knows the entry and its labels.
fn first_attrs(alloc: Global, residue: &Residue, target: Target) -> Result<Attrs, Memory>
    ensures { IfOk result (λ l. l ≡ attr (codes "entry_point") None
        ∷ attr (codes "qir_profiles") (Some (spec.profile_of target))
        ∷ attr spec.schema_key (option_and_then (λ (a : Attr). a.value) (attribute_of spec.schema_key residue.now.attrs))
        ∷ []) }
{
    let mut attrs = Seq::new(alloc);
    add(alloc, &mut attrs, b"entry_point", None)?;
    let profile = profile_of(alloc, target)?;
    add(alloc, &mut attrs, b"qir_profiles", Some(profile))?;
    let schema = schema(alloc, residue.attrs.as_slice())?;
    add(alloc, &mut attrs, b"output_labeling_schema", schema)?;
    Ok(attrs)
}

/// Adds the attributes that state how many qubits and results are required.
fn add_required(alloc: Global, attrs: &mut Attrs, residue: &Residue) -> Result<(), Memory>
    ensures { OnOk result (attrs.new ≡ attrs.old ++ (attr (codes "required_num_qubits") (Some (decimal residue.now.all_qubits))
        ∷ attr (codes "required_num_results") (Some (decimal residue.now.all_results))
        ∷ [])) }
{
    let qubits = digits(alloc, residue.all_qubits)?;
    add(alloc, attrs, b"required_num_qubits", Some(qubits))?;
    let results = digits(alloc, residue.all_results)?;
    add(alloc, attrs, b"required_num_results", Some(results))
}

/// The attributes of the printed entry.
pub(crate) fn entry_attrs(alloc: Global, residue: &Residue, target: Target) -> Result<Attrs, Memory>
    ensures { IfOk result (λ l. l ≡ spec.entry_attrs residue.now target) }
{
    let mut attrs = first_attrs(alloc, residue, target)?;
    add_required(alloc, &mut attrs, residue)?;
    add_others(alloc, &mut attrs, residue.attrs.as_slice())?;
    Ok(attrs)
}
