//! The side rules of the grammar.

/// A rule that a token breaks, where its kind may stand there.
#[derive(Clone, Copy, Debug, PartialEq, Eq)]
pub enum Rule {
    /// The token doesn't fit what stands before it.
    Syntax,
    /// An integer isn't one of its type, or the number of a name, group or node is above 4,294,967,295.
    LiteralRange,
    /// A string hasn't as many bytes as its array type says.
    StringLength,
    /// Function pointer types are nested too deep.
    TooDeep,
}
