//! The required numbers of a lowered program.
ghost use Rattle.std.specs.Prelude.{◌≡◌};
ghost use Rattle.lowered_program.specs.Residues as spec;

use unroller::Node;

/// The greater of two numbers.
fn greater(a: u64, b: u64) -> u64
    ensures { result ≡ spec.greater a b }
{
    if a < b { b } else { a }
}

/// The greatest number of allocations of the configurations, and the greatest of returned results.
#[tactic(auto, using(crate::proofs::Greatest::greater_first, crate::proofs::Greatest::greater_next))]
pub fn greatest(nodes: &[Node]) -> (u64, u64)
    ensures allocated { result.0 ≡ spec.greatest (λ g. g.allocated) nodes.now }
    ensures returned { result.1 ≡ spec.greatest (λ g. g.returned) nodes.now }
{
    let mut allocated = 0;
    let mut returned = 0;
    let mut rest = nodes;
    while let [node, behind @ ..] = rest {
        allocated = greater(allocated, node.node.allocated);
        returned = greater(returned, node.node.returned);
        rest = behind;
    }
    (allocated, returned)
}
