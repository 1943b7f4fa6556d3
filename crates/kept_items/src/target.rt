//! What lowered programs may hold, and why a program can't be lowered.
ghost use Rattle.std.specs.Prelude.{◌≡◌};
ghost use Rattle.kept_items.specs.Targets.{has_ints, has_loops, has_returns, has_switch, is_base};

use ir_values::Cause;

/// The capabilities of the Adaptive Profile that a target names (QIR specification, 'Adaptive
/// Profile').
#[derive(Clone, Copy, Debug, PartialEq, Eq)]
pub struct Caps {
    /// Computations on integers.
    pub ints: bool,
    /// Terminators with more than two targets.
    pub switch: bool,
    /// More than one point of return, and returned codes other than 0.
    pub returns: bool,
    /// Branches that lead back.
    pub loops: bool,
}

/// The profile that a lowered program belongs to.
#[derive(Clone, Copy, Debug, PartialEq, Eq)]
pub enum Target {
    Base,
    Adaptive(Caps),
}

/// Why an instruction can't be lowered.
#[derive(Clone, Copy, Debug, PartialEq, Eq)]
pub enum Kind {
    /// A choice among qubits or results by a Dynamic condition.
    Handle,
    /// A choice among functions by a Dynamic condition.
    Target,
    /// The program comes back to where it was.
    Loop,
    /// The budget ends.
    Budget,
    /// A choice among labels or doubles by a Dynamic condition.
    Token,
    /// The profile has no such instruction.
    Forbidden,
    /// An operation that comes too late for the order of the Base Profile.
    Phase,
    /// The target doesn't name a capability that this needs.
    Capability,
    /// It traps in every run, or an operand has no value.
    Traps(Cause),
}

impl Target {
    /// Whether it is the Base Profile.
    pub fn is_base(self) -> bool
        ensures { result ≡ is_base self }
    {
        match self {
            Target::Base => true,
            Target::Adaptive(_) => false,
        }
    }

    /// Whether it has computations on integers.
    pub fn has_ints(self) -> bool
        ensures { result ≡ has_ints self }
    {
        match self {
            Target::Base => false,
            Target::Adaptive(caps) => caps.ints,
        }
    }

    /// Whether it has terminators with more than two targets.
    pub fn has_switch(self) -> bool
        ensures { result ≡ has_switch self }
    {
        match self {
            Target::Base => false,
            Target::Adaptive(caps) => caps.switch,
        }
    }

    /// Whether the entry may return another code than the known 0.
    pub fn has_returns(self) -> bool
        ensures { result ≡ has_returns self }
    {
        match self {
            Target::Base => true,
            Target::Adaptive(caps) => caps.returns,
        }
    }

    /// Whether it has branches that lead back.
    pub fn has_loops(self) -> bool
        ensures { result ≡ has_loops self }
    {
        match self {
            Target::Base => false,
            Target::Adaptive(caps) => caps.loops,
        }
    }
}
