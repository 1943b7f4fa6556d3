//! A machine whose qubits are classical bits.
#![tactic(auto)]

mod action;
mod bits;
mod laws;
mod table;

pub use bits::Bits;
pub use laws::{renaming_keeps_bits, renaming_keeps_fits, renaming_keeps_operations};
