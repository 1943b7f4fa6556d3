//! Why a text has no syntax tree.
ghost use Rattle.std.specs.Prelude.{◌≡◌};
ghost use Rattle.ir_syntax.specs.declared.fault.SyntaxStop.TheVariants as stop;

use ir_values::Memory;

/// What is wrong with a text at its first fault, names left aside.
#[derive(Clone, Copy, Debug, PartialEq, Eq)]
pub enum SyntaxCode {
    /// No token begins with the byte.
    BadByte,
    /// No quote ends the string of the token.
    OpenString,
    /// A `\` in a string begins no escape.
    BadEscape,
    /// The magnitude of an integer is 2^128 or more.
    NumberTooWide,
    /// The token doesn't fit.
    Syntax,
    /// The token doesn't fit, and belongs to what QIR texts leave out of LLVM's language.
    LeftOut,
    /// An integer isn't one of its type, or the number of a name, group or node is above 4,294,967,295.
    LiteralRange,
    /// A byte string hasn't as many bytes as its array type says.
    StringLength,
    /// More than 64 function pointer types are nested.
    TooDeep,
}

/// The first fault of a text.
#[derive(Clone, Copy, Debug, PartialEq, Eq)]
pub struct SyntaxFault {
    pub code: SyntaxCode,
    /// Where it stands, counted in bytes from 0: the first byte of the token, or where the text goes on with no
    /// token the byte that is wrong.
    pub place: u32,
}

/// Why a text has no syntax tree.
#[derive(Clone, Copy, Debug, PartialEq, Eq)]
pub enum SyntaxStop {
    /// There is no memory left.
    Memory,
    /// The first fault of the text.
    Refused(SyntaxFault),
}

impl From<Memory> for SyntaxStop {
    ghost from_gives = { λ _ s. s ≡ stop.Memory };

    fn from(_e: Memory) -> SyntaxStop {
        SyntaxStop::Memory
    }
}
