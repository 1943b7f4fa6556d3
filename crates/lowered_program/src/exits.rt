//! The configurations that return from the entry.
ghost use Rattle.std.specs.Prelude.{◌≡◌};
ghost use Rattle.fused_parts.specs.Nodes.{joins};
ghost use Rattle.lowered_program.specs.Residues as spec;

use fused_parts::Layout;
use ir_values::Seq;
use kept_items::Target;
use unroller::{Node, Outcome};

/// Whether a configuration returns: 1 or 0.
fn exits(outcome: &Outcome) -> usize
    ensures { result ≡ spec.exits outcome.now }
{
    match outcome {
        Outcome::Goes(_, _) => 0,
        Outcome::Exits(_) => 1,
    }
}

/// How many configurations return.
fn count_exits(nodes: &[Node]) -> usize
    ensures { result ≡ spec.count_exits nodes.now }
{
    let mut count = 0;
    let mut rest = nodes;
    while let [node, behind @ ..] = rest {
        count += exits(&node.item);
        rest = behind;
    }
    count
}

/// The number of the part that exits share, where the target has one return and several configurations return.
pub fn shared_exit(target: Target, nodes: &Seq<Node>, layout: &Layout) -> Option<u32>
    requires { layout.now ≡ joins nodes.now }
    ensures { result ≡ spec.shared_exit target nodes.now }
{
    if target.has_returns() || count_exits(nodes.as_slice()) < 2 {
        None
    } else {
        Some(layout.part(nodes.len()))
    }
}
