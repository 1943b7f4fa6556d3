//! What a running machine knows of qubits and results, and what declared functions read of it.
#![tactic(auto)]

mod allocations;
mod arguments;
mod results;

pub use allocations::Allocations;
pub use arguments::{Arguments, count_results, first_result, look_at};
pub use results::{Reading, Results, bit_of, make_room, read, set_bit};
