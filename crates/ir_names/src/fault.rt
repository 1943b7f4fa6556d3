//! What can be wrong with names.
ghost use Rattle.std.specs.Prelude.{◌≡◌};
ghost use Rattle.ir_names.specs.declared.fault.Stop.TheVariants as stop;

use ir_tokens::Token;
use ir_values::Memory;

/// A rule on names that a text breaks.
#[derive(Clone, Copy)]
pub enum NameCode {
    /// A name that has a definition before is defined.
    Duplicate,
    /// A name is used that has no definition of the sort.
    Unknown,
    /// A label expression has another length than its constant.
    StringLength,
    /// A node that is listed as a flag is of another shape.
    BadFlag,
}

/// A broken rule, and the token at which it is told.
#[derive(Clone, Copy)]
pub struct Fault {
    pub code: NameCode,
    pub at: Token,
}

/// Why a tree gives no module.
#[derive(Clone, Copy)]
pub enum Stop {
    /// There was no memory.
    Memory,
    /// The first broken rule in text order.
    At(Fault),
}

impl Stop {
    /// This rule is broken at a token.
    pub(crate) fn at(code: NameCode, token: &Token) -> Stop
        ensures { result ≡ stop.At (record { code = code; at = token.now }) }
    {
        Stop::At(Fault { code, at: *token })
    }
}

impl From<Memory> for Stop {
    ghost from_gives = { λ m s. s ≡ stop.Memory };

    fn from(_e: Memory) -> Stop {
        Stop::Memory
    }
}
