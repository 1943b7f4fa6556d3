//! The numbers of parameters of functions. The functions do nothing: what they look at is in range.
ghost use Rattle.std.specs.Prelude.{◌<◌, ◌^◌};
ghost use Rattle.lowered_program.specs.Parameters.{HaveFewParameters};

use ir_module::Function;

/// A number of parameters is below 2^32.
fn few(_count: u32)
    ensures { _count < 2 ^ 32 }
{}

/// Each function has fewer than 2^32 parameters.
#[tactic(auto, using(crate::proofs::Functions::one_more))]
pub fn few_parameters(functions: &[Function])
    ensures { HaveFewParameters functions.now }
{
    let mut rest = functions;
    while let [f, behind @ ..] = rest {
        few(f.params);
        rest = behind;
    }
}
