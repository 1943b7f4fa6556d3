//! The names that qubits and results have in a lowered module.

/// The required numbers of a module: fixed numbers keep their names, and allocations and returned results follow these.
#[derive(Clone, Copy)]
pub(crate) struct Names {
    pub(crate) qubits: u64,
    pub(crate) results: u64,
}
