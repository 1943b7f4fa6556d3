//! The classes of declared functions.

/// What a declared runtime or quantum function does (QIR specification, 'Runtime Functions' and
/// 'Quantum Instruction Set').
#[derive(Clone, Copy, Debug, PartialEq, Eq, Hash)]
pub enum Class {
    /// Initialises the runtime.
    Init,
    /// Allocates a qubit.
    Alloc,
    /// Releases a qubit.
    Release,
    /// Gives the constant result one.
    One,
    /// Gives the constant result zero.
    Zero,
    /// Compares two results.
    Equal,
    /// Changes a result's reference count.
    Count,
    /// Reads a result's bit.
    Read,
    /// Records the beginning of a tuple.
    Tuple,
    /// Records the beginning of an array.
    Array,
    /// Records a result.
    ResRecord,
    /// Records a boolean.
    BoolRecord,
    /// Records an integer.
    IntRecord,
    /// Records a double.
    DoubleRecord,
    /// Measures a qubit and returns a fresh result.
    Returning,
    /// Measures into a result that is given.
    Measure,
    /// An operation without a result.
    Gate,
}
