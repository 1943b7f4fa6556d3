//! What is kept beside a checked module, found once.
ghost use Rattle.std.specs.Prelude.{◌≡◌, ◌<◌, ◌^◌, length, map, slice_get, IfOk, IfSome};
ghost use Rattle.ir_module.specs.Classes.{class_of_function};
ghost use Rattle.admission.specs.Admitted.{IsAdmitted, IsEntryOf};
ghost use Rattle.admission.specs.code.Tables.{AreFlowsOf, AreTablesOf, IsFlowOfBody};

use ir_module::{Function, Module};
use ir_values::{Class, FuncId, Memory, Seq};
use name_flow::Flow;
use std::alloc::Global;
use type_check::required_numbers;

/// The greatest required number of qubits or of results.
pub(crate) const GREATEST_REQUIRED: u64 = 1_000_000_000;

/// What is looked up of a module without faults.
#[derive(Drop)]
pub(crate) struct Tables {
    pub(crate) entry: FuncId,
    pub(crate) qubits: u64,
    pub(crate) results: u64,
    /// The flow of each function that has a body.
    pub(crate) flows: Seq<Option<Flow>>,
    /// The class of each function that has one.
    pub(crate) classes: Seq<Option<Class>>,
}

fn flow_of(alloc: Global, m: &Module, g: FuncId) -> Result<Option<Flow>, Memory>
    requires { g.0 < length m.now.funcs }
    ensures { IfOk result (λ flow. IfSome (slice_get m.now.funcs g.0) (λ f. IsFlowOfBody f flow)) }
{
    match &m.function(g).blocks {
        Some(_) => Ok(Some(Flow::build(alloc, m, g)?)),
        None => Ok(None),
    }
}

/// The flows of the functions that have a body.
fn flows(alloc: Global, m: &Module) -> Result<Seq<Option<Flow>>, Memory>
    requires { length m.now.funcs < 2 ^ 32 }
    ensures { IfOk result (λ flows. AreFlowsOf m.now.funcs flows) }
{
    let mut flows = Seq::new(alloc);
    for g in 0..m.funcs.len() as u32 {
        flows.push(flow_of(alloc, m, FuncId(g))?)?;
    }
    Ok(flows)
}

/// The classes of functions, in order.
fn classes(alloc: Global, mut funcs: &[Function]) -> Result<Seq<Option<Class>>, Memory>
    ensures { IfOk result (λ classes. classes ≡ map class_of_function funcs.entry.now) }
{
    let mut classes = Seq::new(alloc);
    while let [f, rest @ ..] = funcs {
        classes.push(f.class(alloc)?)?;
        funcs = rest;
    }
    Ok(classes)
}

/// The entry of a module that has one.
fn entry(m: &Module) -> FuncId
    requires { IsAdmitted m.now }
    ensures { IsEntryOf m.now result }
{
    match m.entry() {
        Some(g) => g,
        None => unreachable!(),
    }
}

/// The tables of a module without faults.
pub(crate) fn tables_of(alloc: Global, m: &Module) -> Result<Tables, Memory>
    requires { IsAdmitted m.now }
    ensures { IfOk result (λ t. AreTablesOf m.now t) }
{
    let required = required_numbers(alloc, m, GREATEST_REQUIRED)?;
    let flows = flows(alloc, m)?;
    let classes = classes(alloc, m.funcs.as_slice())?;
    Ok(Tables {
        entry: entry(m),
        qubits: required.qubits,
        results: required.results,
        flows,
        classes,
    })
}
