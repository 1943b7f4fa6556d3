//! The findings of the Base Profile.
ghost use Rattle.std.specs.Prelude.{◌≡◌, ◌<◌, length, slice_get, Some, IfOk};
ghost use Rattle.ir_module.specs.Numbered.{Numbered};
ghost use Rattle.ir_module.specs.Tree.{blocks_of};
ghost use Rattle.profile_rules.specs.Base.{ViolatesBase};
ghost use Rattle.profile_rules.specs.Findings.{AreFindings};

use crate::called::{called, irreversible};
use crate::tables::Tables;
use crate::walk::{is_chain, positions, walk};
use findings::{Callees, classes, findings_of};
use ir_module::{Block, Function, Module};
use ir_values::{FuncId, Memory};
use profile_rules::{Findings, Form, base_lists_are_exact};
use std::alloc::Global;

fn body(f: &Function) -> &[Block]
    ensures { result.now ≡ blocks_of f.now }
{
    match &f.blocks {
        Some(blocks) => blocks.as_slice(),
        None => &[],
    }
}

/// The violations of the Base Profile in this form, of a module whose numbers are in order and whose entry has this
/// number: each spot with the number of a rule that is broken there, in the order of spots and then of rules, each once.
/// It takes time and memory in proportion to the module, and the only error is want of memory.
pub fn base(alloc: Global, m: &Module, entry: FuncId, form: Form) -> Result<Findings, Memory>
    requires numbered { Numbered m.now }
    requires entry { entry.0 < length m.now.funcs }
    ensures { IfOk result (AreFindings (ViolatesBase form m.now entry.0)) }
{
    let function = m.function(entry);
    let blocks = body(function);
    let classes = classes(alloc, m.funcs.as_slice())?;
    let irreversible = irreversible(alloc, m.funcs.as_slice())?;
    let called = called(alloc, m.funcs.len(), function)?;
    let walk = walk(alloc, blocks)?;
    let positions = positions(alloc, blocks, walk.as_slice())?;
    let tables = Tables {
        callees: Callees {
            tree: m,
            classes: classes.as_slice(),
        },
        form,
        entry,
        function,
        irreversible: irreversible.as_slice(),
        called: called.as_slice(),
        chain: is_chain(blocks, walk.as_slice(), positions.as_slice()),
        positions: positions.as_slice(),
    };
    base_lists_are_exact();
    findings_of(alloc, &tables, m)
}
