//! Declarations of the functions that a lowered program calls.
ghost use Rattle.std.specs.Prelude.{◌≡◌, ℕ, ◌<◌, ◌^◌, List, Bool, length, IfOk};
ghost use Rattle.residue.specs.Functions as spec;

use ir_module::{Attr, Attrs, Function, Locals};
use ir_values::{Bytes, Class, Copies, Memory, Name, Seq, Ty, Tys};
use kept_items::Val;
use std::alloc::Global;

/// A copy of these bytes. [`Memory`] comes where there is none for it.
pub fn text(alloc: Global, bytes: &[u8]) -> Result<Bytes, Memory>
    ensures { IfOk result (λ b. b ≡ bytes.now) }
{
    let mut text = Bytes::new(alloc);
    text.extend_from_slice(bytes)?;
    Ok(text)
}

/// The name of the function that writes the records of a class, empty where a class has no records.
/// [`Memory`] comes where there is none for it.
pub fn record_name(alloc: Global, class: Class) -> Result<Bytes, Memory>
    ensures { IfOk result (λ n. n ≡ spec.record_name class) }
{
    match class {
        Class::Tuple => text(alloc, b"__quantum__rt__tuple_record_output"),
        Class::Array => text(alloc, b"__quantum__rt__array_record_output"),
        Class::ResRecord => text(alloc, b"__quantum__rt__result_record_output"),
        Class::BoolRecord => text(alloc, b"__quantum__rt__bool_record_output"),
        Class::IntRecord => text(alloc, b"__quantum__rt__int_record_output"),
        Class::DoubleRecord => text(alloc, b"__quantum__rt__double_record_output"),
        _ => Ok(Bytes::new(alloc)),
    }
}

/// The types of these values.
pub(crate) fn types_of(alloc: Global, mut args: &[(Ty, Val)]) -> Result<Tys, Memory>
    ensures { IfOk result (λ ts. ts ≡ spec.types_of args.entry.now) }
{
    let mut types = Seq::new(alloc);
    while let [arg, rest @ ..] = args {
        types.push(arg.0.copy(alloc)?)?;
        args = rest;
    }
    Ok(types)
}

/// The parameters of a declaration, which have numbers in place of names.
fn parameters(alloc: Global, mut types: &[Ty]) -> Result<Locals, Memory>
    requires { length types.now < 2 ^ 32 }
    ensures { IfOk result (λ ls. ls ≡ spec.parameters 0 types.entry.now) }
{
    let mut locals = Seq::new(alloc);
    let mut number = 0;
    while let [ty, rest @ ..] = types {
        locals.push((Name::Number(number), ty.copy(alloc)?))?;
        number += 1;
        types = rest;
    }
    Ok(locals)
}

/// The attributes of a declaration.
fn irreversible_attrs(alloc: Global, marked: bool) -> Result<Attrs, Memory>
    ensures { IfOk result (λ l. l ≡ spec.irreversible_attrs marked) }
{
    let mut attrs = Seq::new(alloc);
    if marked {
        attrs.push(Attr {
            key: text(alloc, b"irreversible")?,
            value: None,
        })?;
    }
    Ok(attrs)
}

/// A declaration, of an irreversible operation where it is marked.
pub(crate) fn declaration(
    alloc: Global,
    marked: bool,
    name: Bytes,
    ret: Ty,
    params: &Tys,
) -> Result<Function, Memory>
    requires { length params.now < 2 ^ 32 }
    ensures { IfOk result (λ f. (names : List (List ℕ)) → spec.is_named names name ≡ marked → f ≡ spec.declaration names (spec.called name ret params.now)) }
{
    Ok(Function {
        name: Name::Text(name),
        ret,
        params: params.len() as u32,
        locals: parameters(alloc, params.as_slice())?,
        attrs: irreversible_attrs(alloc, marked)?,
        blocks: None,
    })
}
