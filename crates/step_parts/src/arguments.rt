//! The arguments of a call.
ghost use Rattle.std.specs.Prelude.{◌≡◌, map, IfOk};
ghost use Rattle.static_steps.specs.Operations as spec;

use ir_module::Operand;
use ir_values::{Copies, Memory, Seq, Ty};
use kept_items::{TypedVals, Val};
use std::alloc::Global;

/// Values with the types that arguments have, where there are as many of these.
#[tactic(auto, using(crate::proofs::Ahead::ahead_arg))]
pub fn typed_args(
    alloc: Global,
    args: &[(Ty, Operand)],
    vals: &[Val],
) -> Result<Option<TypedVals>, Memory>
    ensures { IfOk result (λ o. o ≡ spec.typed_args (map (λ a. a.0) args.now) vals.now) }
{
    let mut out = Seq::new(alloc);
    let mut rest = args;
    let mut left = vals;
    while let [a, tail @ ..] = rest {
        match left {
            [v, others @ ..] => {
                out.push((a.0.copy(alloc)?, v.copy(alloc)?))?;
                left = others;
            }
            [] => return Ok(None),
        }
        rest = tail;
    }
    if left.is_empty() {
        Ok(Some(out))
    } else {
        Ok(None)
    }
}
