//! Tests on calls and their arguments.
ghost use Rattle.std.specs.Prelude.{◌≡◌, ◌&&◌, ◌||◌, not};
ghost use Rattle.std.specs.List.{list_any};
ghost use Rattle.profile_rules.specs.Adaptive as spec;
ghost use Rattle.profile_rules.specs.Calls.{has_count, is_int_record, passes};

use ir_module::{Function, Operand};
use ir_values::{Class, Ty};

/// Whether the profile has functions of this class.
pub(crate) fn is_adaptive(class: Option<Class>) -> bool
    ensures { result ≡ passes class spec.is_adaptive_class }
{
    matches!(
        class,
        Some(
            Class::Init
                | Class::Gate
                | Class::Measure
                | Class::Read
                | Class::Tuple
                | Class::Array
                | Class::ResRecord
                | Class::BoolRecord
                | Class::IntRecord
                | Class::DoubleRecord
        )
    )
}

pub(crate) fn is_int_record(class: Option<Class>) -> bool
    ensures { result ≡ passes class is_int_record }
{
    matches!(class, Some(Class::IntRecord))
}

fn has_count(class: Option<Class>) -> bool
    ensures { result ≡ passes class has_count }
{
    matches!(class, Some(Class::Tuple | Class::Array))
}

/// Whether the operand is a constant or, outside the entry, a parameter.
fn is_fixed(in_entry: bool, f: &Function, a: &Operand) -> bool
    ensures { result ≡ spec.is_fixed in_entry f.now a.now }
{
    match a {
        Operand::Const(_) => true,
        Operand::Local(x) => !in_entry && x.0 < u64::from(f.params),
    }
}

fn is_handle(t: &Ty) -> bool
    ensures { result ≡ spec.is_handle t.now }
{
    matches!(t, Ty::Qubit | Ty::Res)
}

fn is_function(t: &Ty) -> bool
    ensures { result ≡ spec.is_function_type t.now }
{
    matches!(t, Ty::Func(_))
}

fn is_label_or_double(t: &Ty) -> bool
    ensures { result ≡ spec.is_label_or_double t.now }
{
    matches!(t, Ty::Text | Ty::Double)
}

fn is_bad_handle(in_entry: bool, f: &Function, t: &Ty, a: &Operand) -> bool
    ensures { result ≡ (spec.is_function_type t.now || (spec.is_handle t.now && not (spec.is_fixed in_entry f.now a.now))) }
{
    is_function(t) || (is_handle(t) && !is_fixed(in_entry, f, a))
}

/// Whether a function, or a qubit or a result that isn't fixed, is among the arguments.
pub(crate) fn has_bad_handle(in_entry: bool, f: &Function, mut args: &[(Ty, Operand)]) -> bool
    ensures { result ≡ list_any (λ a. spec.is_function_type a.0
        || (spec.is_handle a.0 && not (spec.is_fixed in_entry f.now a.1))) args.entry.now }
{
    while let [(t, a), rest @ ..] = args {
        if is_bad_handle(in_entry, f, t, a) {
            return true;
        }
        args = rest;
    }
    false
}

fn is_bad_label(in_entry: bool, f: &Function, t: &Ty, a: &Operand) -> bool
    ensures { result ≡ (spec.is_label_or_double t.now && not (spec.is_fixed in_entry f.now a.now)) }
{
    is_label_or_double(t) && !is_fixed(in_entry, f, a)
}

fn has_bad_text(in_entry: bool, f: &Function, mut args: &[(Ty, Operand)]) -> bool
    ensures { result ≡ list_any (λ a. spec.is_label_or_double a.0 && not (spec.is_fixed in_entry f.now a.1)) args.entry.now }
{
    while let [(t, a), rest @ ..] = args {
        if is_bad_label(in_entry, f, t, a) {
            return true;
        }
        args = rest;
    }
    false
}

fn first_is_computed(in_entry: bool, f: &Function, args: &[(Ty, Operand)]) -> bool
    ensures { result ≡ list_any (λ a. not (spec.is_fixed in_entry f.now a.1)) (spec.first_of args.now) }
{
    match args {
        [] => false,
        [(_, a), ..] => !is_fixed(in_entry, f, a),
    }
}

/// Whether a label or a double that isn't fixed is among the arguments, or the count of a tuple or an array isn't fixed.
pub(crate) fn has_bad_label(
    in_entry: bool,
    f: &Function,
    class: Option<Class>,
    args: &[(Ty, Operand)],
) -> bool
    ensures { result ≡ (list_any (λ a. spec.is_label_or_double a.0 && not (spec.is_fixed in_entry f.now a.1)) args.now
        || (passes class has_count && list_any (λ a. not (spec.is_fixed in_entry f.now a.1)) (spec.first_of args.now))) }
{
    has_bad_text(in_entry, f, args) || (has_count(class) && first_is_computed(in_entry, f, args))
}
