//! Codes that are returned are integers of 64 bits. The functions do nothing: what they look at is in range.
ghost use Rattle.lowered_runs.specs.Made.{CodesFit};
ghost use Rattle.qubit_lowering.specs.Codes.{IsWord, ReturnsWord};

use kept_items::Code;
use unroller::{Node, Outcome};

/// A number of 64 bits is itself in two's complement.
#[tactic(auto, using(crate::proofs::Words::is_word))]
fn number_fits(_number: i64)
    ensures { IsWord _number }
{}

/// What an outcome returns is such a number.
fn code_fits(outcome: &Outcome)
    ensures { ReturnsWord outcome.now }
{
    match outcome {
        Outcome::Goes(_, _) => {}
        Outcome::Exits(Code::Known(number)) => number_fits(*number),
        Outcome::Exits(Code::Dynamic(_)) => {}
    }
}

/// What these configurations return are such numbers.
pub fn codes_fit(nodes: &[Node])
    ensures { CodesFit nodes.now }
{
    let mut rest = nodes;
    while let [node, behind @ ..] = rest {
        code_fits(&node.item);
        rest = behind;
    }
}
