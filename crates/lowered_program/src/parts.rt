//! The parts of a lowered program.
ghost use Rattle.std.specs.Prelude.{◌≡◌, ◌<◌, ◌^◌, flat_map, length, IfOk};
ghost use Rattle.fused_parts.specs.Nodes.{joins};
ghost use Rattle.fused_parts.specs.Parts.{parts_of};
ghost use Rattle.fused_parts.specs.Ranks.{part_number};
ghost use Rattle.residue.specs.Scopes.{part_gives};
ghost use Rattle.lowered_program.specs.Residues.{shared_exit};

use crate::exits::shared_exit;
use crate::given::give_few;
use fused_parts::{Layout, Source, parts_of};
use ir_module::Module;
use ir_values::{Memory, Seq};
use kept_items::Target;
use residue::Parts;
use std::alloc::Global;
use unroller::Node;

/// The parts of the lowered program. They give fewer than 2^63 Dynamic values.
pub fn all_parts(
    alloc: Global,
    m: &Module,
    target: Target,
    nodes: &Seq<Node>,
) -> Result<Parts, Memory>
    ensures parts { IfOk result (λ r. r ≡
        parts_of m.now (part_number (joins nodes.now)) (shared_exit target nodes.now) nodes.now (joins nodes.now)) }
    ensures few { IfOk result (λ r. length (flat_map part_gives r) < 2 ^ 63) }
{
    let layout = Layout::new(alloc, nodes)?;
    let shared = shared_exit(target, nodes, &layout);
    let source = Source {
        m,
        nodes,
        layout: &layout,
        shared,
    };
    let parts = parts_of(alloc, &source)?;
    give_few(parts.as_slice())?;
    Ok(parts)
}
