//! What a module may use beyond the core of the profile, by its flags.
ghost use Rattle.std.specs.Prelude.{◌≡◌};
ghost use Rattle.ir_module.specs.declared.tree.Module.{Module};
ghost use Rattle.profile_rules.specs.Adaptive.{value_is_on, is_on};
ghost use Rattle.profile_rules.specs.Calls.{passes};
ghost use Rattle.profile_rules.specs.Shared.{flag_of};

use findings::flag_of;
use ir_module::{Flag, FlagPart, FlagValue};

/// What a module may use beyond the core of the profile.
#[derive(Clone, Copy)]
pub(crate) struct Capabilities {
    pub(crate) integers: bool,
    pub(crate) functions: bool,
    pub(crate) backwards: bool,
    pub(crate) switches: bool,
    pub(crate) returns: bool,
}

fn value_is_on(value: &FlagValue) -> bool
    ensures { result ≡ value_is_on value.now }
{
    match value {
        FlagValue::One(FlagPart::Int { width: _, bits }) => *bits != 0,
        FlagValue::One(FlagPart::Text(_)) => false,
        FlagValue::List(parts) => !parts.as_slice().is_empty(),
    }
}

/// Whether the first flag of the key is on: an integer other than 0, or a list that isn't empty.
pub(crate) fn is_on(flags: &[Flag], key: &[u8]) -> bool
    ensures { result ≡ passes (flag_of key.now flags.now) (λ a. value_is_on a.value) }
{
    match flag_of(flags, key) {
        Some(a) => value_is_on(&a.value),
        None => false,
    }
}
