//! The numbers of groups and nodes.
ghost use Rattle.std.specs.Prelude.{◌≡◌};
ghost use Rattle.ir_names.specs.Module as spec;

use crate::numbers::Written;
use ir_tokens::Token;

/// The number of a group or a node.
pub(crate) fn written(token: &Token) -> Written
    ensures { result ≡ spec.written token.now }
{
    Written(Some(token.number.value()))
}
