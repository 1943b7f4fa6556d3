//! The lowered program of a module that was checked.
ghost use Rattle.std.specs.Prelude.{◌<◌, ◌^◌, length, IfOk};
ghost use Rattle.lowered_program.specs.Parameters.{HaveFewParameters};
ghost use Rattle.qubit_lowering.specs.Sources.{IsResidueOf};
ghost use Rattle.residue.specs.Scopes.{gives_of};

use admission::Checked;
use ir_values::{Memory, Seq};
use kept_items::Target;
use lowered_program::{Given, residue_of};
use residue::Residue;
use std::alloc::Global;
use unroller::Node;

/// The lowered program that is made of these configurations of the module.
#[tactic(auto, using(crate::proofs::Entries::entry_within, crate::proofs::Entries::residue_is))]
pub fn source_residue(
    alloc: Global,
    checked: &Checked,
    target: Target,
    nodes: &Seq<Node>,
) -> Result<Residue, Memory>
    ensures residue { IfOk result (IsResidueOf checked.now target nodes.now) }
    ensures few_values { IfOk result (λ r. length (gives_of r) < 2 ^ 63) }
    ensures few_parameters { IfOk result (λ r. HaveFewParameters checked.now.tree.funcs) }
{
    let m = checked.module();
    let given = Given {
        m,
        entry: m.function(checked.entry()),
        target,
        qubits: checked.qubits(),
        results: checked.results(),
        classes: checked.classes(),
    };
    residue_of(alloc, &given, nodes)
}
