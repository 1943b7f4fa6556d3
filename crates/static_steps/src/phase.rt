//! The order of the Base Profile.
ghost use Rattle.std.specs.Hash as fed;
ghost use Rattle.std.specs.Prelude.{◌≡◌};
ghost use Rattle.std.proofs.Common.{ap};
ghost use Rattle.static_steps.specs.code.Phases.{
  rank,
  same_phase,
  same_phase-decides,
  same_phase-equiv,
  same_phase-per,
};

use ir_values::{Copies, Exact, Memory};
use std::alloc::Global;
use std::hash::{Hash, Hasher};

/// How far a program of the Base Profile has come, whose operations stand in this order (QIR
/// specification, 'Base Profile'). For another profile it stays at the beginning.
#[derive(Clone, Copy, Debug)]
pub enum Phase {
    /// No operation was kept.
    Begin,
    /// The last was a reversible operation.
    Reversible,
    /// The last was an irreversible operation.
    Irreversible,
    /// The last was a record.
    Output,
}

/// Its number in the order.
fn rank(phase: Phase) -> u8
    ensures { result ≡ rank phase }
{
    match phase {
        Phase::Begin => 0,
        Phase::Reversible => 1,
        Phase::Irreversible => 2,
        Phase::Output => 3,
    }
}

impl PartialEq for Phase {
    ghost eq = { same_phase };

    ghost laws = { same_phase-per };

    #[tactic(auto, unfolding(crate::specs::code::Phases::same_phase))]
    fn eq(&self, other: &Phase) -> bool {
        rank(*self) == rank(*other)
    }
}

impl Eq for Phase {
    ghost laws = { same_phase-equiv };
}

impl Hash for Phase {
    ghost hash_input = { λ a. fed.u8 (rank a) };

    ghost respects_eq = { λ a b e. ap (λ c. fed.u8 (rank c)) ((same_phase-decides a b).0 e) };

    fn hash<H: Hasher>(&self, state: &mut H) {
        rank(*self).hash(state);
    }
}

impl Copies for Phase {
    fn copy(&self, _alloc: Global) -> Result<Phase, Memory> {
        Ok(*self)
    }
}

impl Exact for Phase {
    ghost exact = { λ a b. (same_phase-decides a b).0 };
}
