//! What answers the operations of a shot.
use ir_values::Seq;

/// The bits by which the measurements of a shot are answered, in order.
pub type Outcome = Seq<bool>;

/// What answers the operations of a shot.
#[derive(Debug, Drop)]
pub enum Backend {
    /// It does every operation, and answers measurements with these bits, in order.
    Script(Outcome),
    /// Its qubits are classical bits, each 0 at first.
    Bits,
}
