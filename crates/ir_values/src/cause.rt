//! The causes that end a run.

/// Why an instruction ends a run.
#[derive(Clone, Copy, Debug, PartialEq, Eq, Hash)]
pub enum Cause {
    /// A division by zero.
    DivZero,
    /// A signed division of the least value by -1.
    Overflow,
    /// A broken flag, or a shift by the width or more.
    Poison,
    /// A result that was never measured is read.
    ReadUnset,
    /// A qubit that isn't held is used or released.
    Released,
    /// A qubit that no allocation gave is released.
    BadRelease,
    /// A measurement into a constant result.
    ConstResult,
    /// A local name without a value is read.
    Unbound,
}
