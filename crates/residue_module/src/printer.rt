//! What the values and the functions of a residue are in the printed module.
use crate::names::LocalNames;
use called_functions::Table;

/// The local names, the functions, and the numbers of allocation 0 and of returned result 0.
#[derive(Drop)]
pub(crate) struct Printer<'a> {
    pub(crate) names: &'a LocalNames,
    pub(crate) functions: &'a Table,
    pub(crate) qubits: u64,
    pub(crate) results: u64,
}
