//! The names that the runtime's functions and the quantum instructions keep for themselves.
ghost use Rattle.std.specs.Prelude.{◌≡◌};
ghost use Rattle.std.specs.List.{list_any};
ghost use Rattle.type_check.specs.Rules as rule;

use ir_module::{Constant, Function, Module};
use ir_values::Name;

/// What the names of all these functions begin with.
const QUANTUM_PREFIX: &[u8] = b"__quantum__";

fn is_reserved(name: &Name) -> bool
    ensures { result ≡ rule.is_reserved name.now }
{
    name.text().starts_with(QUANTUM_PREFIX)
}

/// Whether the function has no body or a name of its own.
pub(crate) fn body_has_own_name(f: &Function) -> bool
    ensures { result ≡ rule.body_has_own_name f.now }
{
    !(f.blocks.is_some() && is_reserved(&f.name))
}

fn any_is_reserved(mut constants: &[Constant]) -> bool
    ensures { result ≡ list_any (λ c. rule.is_reserved c.name) constants.entry.now }
{
    while let [constant, rest @ ..] = constants {
        if is_reserved(&constant.name) {
            return true;
        }
        constants = rest;
    }
    false
}

/// Whether no constant of the module has a reserved name.
pub(crate) fn constants_have_own_names(m: &Module) -> bool
    ensures { result ≡ rule.constants_have_own_names m.now }
{
    !any_is_reserved(m.globals.as_slice())
}
