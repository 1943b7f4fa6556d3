//! Modules that were admitted.
ghost use Rattle.std.specs.Prelude.{◌≡◌, ◌<◌, length, map, slice_get, IfSome};
ghost use Rattle.ir_module.specs.Classes.{class_of_function};
ghost use Rattle.name_flow.specs.Tables.{HasBody, IsFlowOf};
ghost use Rattle.told_liveness.specs.Tests.{IsLiveTest};
ghost use Rattle.type_check.specs.Required.{required_qubits, required_results};
ghost use Rattle.admission.specs.Admitted.{IsAdmitted, IsEntryOf, greatest_required};
ghost use Rattle.admission.specs.Live.{live_in};
ghost use Rattle.admission.specs.code.Tables.{AreTablesOf};

use crate::tables::Tables;
use ir_module::{Module, Point};
use ir_values::{Class, FuncId, LocalId};
use name_flow::Flow;
use std::marker::Model;

/// A module that was admitted, with its entry, its required numbers, the flows of its functions and
/// the classes of its declared ones. Nothing of it takes memory to look up.
///
/// Contracts see the module and the flows.
#[derive(Drop)]
pub struct Checked {
    tree: Module,
    tables: Tables,
}

impl Model for Checked {
    ghost use Rattle.admission.specs.Admitted.{CheckedModule, IsAdmitted};
    ghost use Rattle.admission.specs.code.Tables.{AreTablesOf};

    ghost Value = { CheckedModule };

    ghost view = { λ c. record { tree = c.tree; flows = c.tables.flows } };

    ghost invariant = { λ c. IsAdmitted c.tree × AreTablesOf c.tree c.tables };
}

impl Checked {
    pub(crate) fn new(tree: Module, tables: Tables) -> Checked
        requires admitted { IsAdmitted tree }
        requires told { AreTablesOf tree tables }
        ensures { result.tree ≡ tree }
    {
        Checked { tree, tables }
    }

    /// The module. Its numbers and names are in order, it has no fault, and the names that are live in
    /// it are told.
    pub fn module(&self) -> &Module
        ensures module { result.now ≡ self.now.tree }
        ensures admitted { IsAdmitted self.now.tree }
        ensures live { IsLiveTest self.now.tree (live_in self.now) }
    {
        &self.tree
    }

    /// The entry.
    pub fn entry(&self) -> FuncId
        ensures entry { IsEntryOf self.now.tree result }
        ensures body { HasBody self.now.tree result }
    {
        self.tables.entry
    }

    /// The required number of qubits.
    pub fn qubits(&self) -> u64
        ensures { result ≡ required_qubits self.now.tree greatest_required }
    {
        self.tables.qubits
    }

    /// The required number of results.
    pub fn results(&self) -> u64
        ensures { result ≡ required_results self.now.tree greatest_required }
    {
        self.tables.results
    }

    /// The flow of a function that has a body.
    pub fn flow(&self, f: FuncId) -> &Flow
        requires { HasBody self.now.tree f }
        ensures told { slice_get self.now.flows f.0 ≡ Some (Some result.now) }
        ensures flow { IfSome (slice_get self.now.tree.funcs f.0) (λ function. IsFlowOf function result.now) }
    {
        match self.tables.flows.at(f.0 as usize) {
            Some(flow) => flow,
            None => unreachable!(),
        }
    }

    /// The flows of the functions, in order: one where there is a body.
    pub fn flows(&self) -> &[Option<Flow>]
        ensures { result.now ≡ self.now.flows }
    {
        self.tables.flows.as_slice()
    }

    /// The class of each function in order, as it would have if it were declared.
    pub fn classes(&self) -> &[Option<Class>]
        ensures { result.now ≡ map class_of_function self.now.tree.funcs }
    {
        self.tables.classes.as_slice()
    }

    /// Whether the local name `x` is live at the point `p`: whether some walk from there reaches a use
    /// of it before a definition of it.
    #[tactic(auto, unfolding(crate::specs::Live::live_in))]
    pub fn live_at(&self, p: Point, x: LocalId) -> bool
        ensures { result ≡ live_in self.now p x }
    {
        match self.tables.flows.as_slice().get(p.func.0 as usize) {
            Some(Some(flow)) => flow.live_at(p, x),
            _ => false,
        }
    }

    /// What a declared function does, by its name and its type. None where it has no class.
    pub fn class(&self, f: FuncId) -> Option<Class>
        requires { f.0 < length self.now.tree.funcs }
        ensures { IfSome (slice_get self.now.tree.funcs f.0) (λ function. result ≡ class_of_function function) }
    {
        *self.tables.classes.at(f.0 as usize)
    }
}
