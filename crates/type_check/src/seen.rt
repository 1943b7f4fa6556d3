//! What is seen of the operands of a step.
ghost use Rattle.std.specs.Prelude.{◌≡◌};
ghost use Rattle.type_check.specs.code.Operands as spec;

/// What the rules ask of operands, in one.
#[derive(Clone, Copy)]
pub(crate) struct Seen {
    /// Each operand has its type.
    pub(crate) types: bool,
    /// No operand is a declared function without a class.
    pub(crate) known: bool,
    /// The greatest number that is written as a qubit.
    pub(crate) qubit: Option<u64>,
    /// The greatest number that is written as a result.
    pub(crate) result: Option<u64>,
}

fn greater(a: Option<u64>, b: Option<u64>) -> Option<u64>
    ensures { result ≡ spec.greater a b }
{
    match (a, b) {
        (Some(m), Some(n)) => Some(m.max(n)),
        (Some(m), None) => Some(m),
        (None, b) => b,
    }
}

impl Seen {
    /// What is seen of no operand.
    #[tactic(auto, unfolding(crate::specs::code::Operands::nothing))]
    pub(crate) fn nothing() -> Seen
        ensures { result ≡ spec.nothing }
    {
        Seen {
            types: true,
            known: true,
            qubit: None,
            result: None,
        }
    }

    /// What is seen of these operands and of others.
    #[tactic(auto, unfolding(crate::specs::code::Operands::both))]
    pub(crate) fn and(self, other: Seen) -> Seen
        ensures { result ≡ spec.both self other }
    {
        Seen {
            types: self.types && other.types,
            known: self.known && other.known,
            qubit: greater(self.qubit, other.qubit),
            result: greater(self.result, other.result),
        }
    }
}
