//! The lowered program of a module.
ghost use Rattle.std.specs.Prelude.{◌≡◌, ◌+◌, ◌<◌, ◌^◌, length, map, IfOk};
ghost use Rattle.ir_module.specs.Classes.{class_of_function};
ghost use Rattle.residue.specs.Scopes.{gives_of};
ghost use Rattle.lowered_program.specs.Parameters.{HaveFewParameters};
ghost use Rattle.lowered_program.specs.Residues.{greatest};
ghost use Rattle.lowered_program.specs.code.Made.{made_of};

use crate::irreversible::irreversible_of;
use crate::parameters::few_parameters;
use crate::parts::all_parts;
use crate::required::greatest;
use ir_module::{Attrs, Constants, Function, Module};
use ir_values::{Class, Copies, Memory, Name, Seq};
use kept_items::Target;
use residue::Residue;
use std::alloc::Global;
use unroller::Node;

/// What a lowered program is made of, beside the reachable configurations.
#[derive(Clone, Copy)]
pub struct Given<'a> {
    /// The source.
    pub m: &'a Module,
    /// Its entry.
    pub entry: &'a Function,
    /// The profile that the lowered program belongs to.
    pub target: Target,
    /// The required number of qubits of the source.
    pub qubits: u64,
    /// The required number of results of the source.
    pub results: u64,
    /// The class of each function of the source, as it would have if it were declared.
    pub classes: &'a [Option<Class>],
}

/// The constants of the source, and the name and the attributes of its entry.
fn copies_of(alloc: Global, given: &Given<'_>) -> Result<(Constants, Name, Attrs), Memory>
    ensures globals { IfOk result (λ r. r.0 ≡ given.now.m.now.globals) }
    ensures entry { IfOk result (λ r. r.1 ≡ given.now.entry.now.name) }
    ensures attrs { IfOk result (λ r. r.2 ≡ given.now.entry.now.attrs) }
{
    let globals = given.m.globals.copy(alloc)?;
    let entry = given.entry.name.copy(alloc)?;
    let attrs = given.entry.attrs.copy(alloc)?;
    Ok((globals, entry, attrs))
}

/// The numbers of qubits and of results that are required of the lowered program.
fn all_required(given: &Given<'_>, nodes: &Seq<Node>) -> Result<(u64, u64), Memory>
    ensures qubits { IfOk result (λ r. r.0 ≡ given.now.qubits + greatest (λ g. g.allocated) nodes.now) }
    ensures results { IfOk result (λ r. r.1 ≡ given.now.results + greatest (λ g. g.returned) nodes.now) }
{
    let (allocated, returned) = greatest(nodes.as_slice());
    let qubits = given.qubits.checked_add(allocated).ok_or(Memory)?;
    let results = given.results.checked_add(returned).ok_or(Memory)?;
    Ok((qubits, results))
}

/// The lowered program that is made of the reachable configurations: their parts, with the entry's name and attributes,
/// the names of the operations that can't be undone, and the required numbers, to which the greatest numbers of allocations
/// and of returned results are added. It gives fewer than 2^63 Dynamic values. [`Memory`] also comes where there would be
/// more, more than 2^32 parts, or a number past 2^64.
pub fn residue_of(alloc: Global, given: &Given<'_>, nodes: &Seq<Node>) -> Result<Residue, Memory>
    requires { given.now.classes.now ≡ map class_of_function given.now.m.now.funcs }
    ensures residue { IfOk result (λ r. r ≡
        made_of given.now.m.now given.now.target given.now.qubits given.now.results given.now.entry.now nodes.now) }
    ensures few_values { IfOk result (λ r. length (gives_of r) < 2 ^ 63) }
    ensures few_parameters { IfOk result (λ r. HaveFewParameters given.now.m.now.funcs) }
{
    few_parameters(given.m.funcs.as_slice());
    let (globals, entry, attrs) = copies_of(alloc, given)?;
    let (all_qubits, all_results) = all_required(given, nodes)?;
    Ok(Residue {
        globals,
        entry,
        attrs,
        irreversible: irreversible_of(alloc, given.m, given.classes)?,
        own_qubits: given.qubits,
        own_results: given.results,
        all_qubits,
        all_results,
        parts: all_parts(alloc, given.m, given.target, nodes)?,
    })
}
