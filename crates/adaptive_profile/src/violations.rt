//! The findings of the Adaptive Profile.
ghost use Rattle.std.specs.Prelude.{IfOk};
ghost use Rattle.ir_module.specs.Numbered.{Numbered};
ghost use Rattle.profile_rules.specs.Adaptive.{ViolatesAdaptive};
ghost use Rattle.profile_rules.specs.Findings.{AreFindings};
ghost use Rattle.adaptive_profile.specs.code.Graphs.{AreReturningCalls};
ghost use Rattle.adaptive_profile.specs.code.On.{AreOn};

use crate::capabilities::{Capabilities, is_on};
use crate::flow::{call_graph, cyclic, first_returns};
use crate::pairs::Pairs;
use crate::tables::Tables;
use findings::{Callees, classes, findings_of};
use ir_module::Module;
use ir_values::{FuncId, Memory};
use profile_rules::{Findings, adaptive_lists_are_exact};
use returning_edges::edges_that_return;
use std::alloc::Global;

fn capabilities(m: &Module) -> Capabilities
    ensures { AreOn m.now result }
{
    let flags = m.flags.as_slice();
    Capabilities {
        integers: is_on(flags, b"int_computations"),
        functions: is_on(flags, b"ir_functions"),
        backwards: is_on(flags, b"backwards_branching"),
        switches: is_on(flags, b"multiple_target_branching"),
        returns: is_on(flags, b"multiple_return_points"),
    }
}

/// Callers and callees of the calls that lead back.
fn returning_calls(alloc: Global, m: &Module) -> Result<Pairs, Memory>
    requires { Numbered m.now }
    ensures { IfOk result (AreReturningCalls m.now) }
{
    let graph = call_graph(alloc, m.funcs.as_slice())?;
    let edges = edges_that_return(alloc, &graph)?;
    Pairs::of(alloc, edges.as_slice())
}

/// The violations of the Adaptive Profile, of a module whose numbers are in order and whose entry has this number: each
/// spot with the number of a rule that is broken there, in the order of spots and then of rules, each once. It takes time
/// and memory in proportion to the module, and the only error is want of memory.
pub fn adaptive(alloc: Global, m: &Module, entry: FuncId) -> Result<Findings, Memory>
    requires { Numbered m.now }
    ensures { IfOk result (AreFindings (ViolatesAdaptive m.now entry.0)) }
{
    let classes = classes(alloc, m.funcs.as_slice())?;
    let first_returns = first_returns(alloc, m.funcs.as_slice())?;
    let cyclic = cyclic(alloc, &m.funcs)?;
    let returning = returning_calls(alloc, m)?;
    let tables = Tables {
        callees: Callees {
            tree: m,
            classes: classes.as_slice(),
        },
        entry,
        capabilities: capabilities(m),
        first_returns: first_returns.as_slice(),
        cyclic: cyclic.as_slice(),
        returning: &returning,
    };
    adaptive_lists_are_exact();
    findings_of(alloc, &tables, m)
}
