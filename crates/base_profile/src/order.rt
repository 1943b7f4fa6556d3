//! Tests on calls by the class of what is called.
ghost use Rattle.std.specs.Prelude.{◌≡◌, not};
ghost use Rattle.std.specs.List.{list_any};
ghost use Rattle.profile_rules.specs.Base.{is_base_class, is_code, branches_on_value};
ghost use Rattle.profile_rules.specs.Calls.{passes, is_constant, is_gate, is_init, is_measure, is_record};
ghost use Rattle.ir_module.specs.Steps.{TermAt};
ghost use Rattle.base_profile.specs.code.Order.{fits_class};

use ir_module::{Operand, Term};
use ir_values::{Class, Ty, Width};

/// Whether the profile has functions of this class.
pub(crate) fn is_base(class: Option<Class>) -> bool
    ensures { result ≡ passes class is_base_class }
{
    matches!(
        class,
        Some(
            Class::Init
                | Class::Gate
                | Class::Measure
                | Class::Tuple
                | Class::Array
                | Class::ResRecord
        )
    )
}

fn is_init(class: Option<Class>) -> bool
    ensures { result ≡ passes class is_init }
{
    matches!(class, Some(Class::Init))
}

fn is_gate(class: Option<Class>) -> bool
    ensures { result ≡ passes class is_gate }
{
    matches!(class, Some(Class::Gate))
}

/// Whether it is a measurement of a qubit into a result.
pub(crate) fn is_measure(class: Option<Class>) -> bool
    ensures { result ≡ passes class is_measure }
{
    matches!(class, Some(Class::Measure))
}

fn is_record(class: Option<Class>) -> bool
    ensures { result ≡ passes class is_record }
{
    matches!(
        class,
        Some(
            Class::Tuple
                | Class::Array
                | Class::ResRecord
                | Class::BoolRecord
                | Class::IntRecord
                | Class::DoubleRecord
        )
    )
}

/// Whether a block at this position of the walk, counted from 1, takes calls of this class. Off the walk, at 0, it takes
/// any.
pub(crate) fn fits(position: usize, class: Option<Class>, irreversible: bool) -> bool
    ensures { result ≡ fits_class position class irreversible }
{
    match position {
        0 => true,
        1 => is_init(class),
        2 => is_gate(class) && !irreversible,
        3 => (is_gate(class) && irreversible) || is_measure(class),
        _ => is_record(class),
    }
}

fn is_constant(a: &Operand) -> bool
    ensures { result ≡ is_constant a.now }
{
    matches!(a, Operand::Const(_))
}

/// Whether an argument is no constant.
pub(crate) fn has_computed(mut args: &[(Ty, Operand)]) -> bool
    ensures { result ≡ list_any (λ a. not (is_constant a.1)) args.entry.now }
{
    while let [(_, a), rest @ ..] = args {
        if !is_constant(a) {
            return true;
        }
        args = rest;
    }
    false
}

/// Whether it is the type of a code of 64 bits.
pub(crate) fn is_code(t: &Ty) -> bool
    ensures { result ≡ is_code t.now }
{
    matches!(t, Ty::Int(Width::W64))
}

/// Whether the block ends neither in an unconditional branch nor in a return.
pub(crate) fn branches(term: &Term) -> bool
    ensures { result ≡ branches_on_value (TermAt term.now) }
{
    matches!(term, Term::CondBr(_, _, _) | Term::Switch(_, _, _, _))
}
