//! What reading a text gives.
ghost use Rattle.std.specs.Prelude.{◌≡◌};
ghost use Rattle.ir_reader.specs.Codes as spec;
ghost use Rattle.ir_reader.specs.declared.parsed.ReadStop.TheVariants as stop;

use ir_module::{Module, Place, Places};
use ir_names::NameCode;
use ir_syntax::SyntaxCode;
use ir_values::Memory;

/// Why a text is refused.
#[derive(Clone, Copy, Debug, PartialEq, Eq)]
pub enum ReadCode {
    /// No token begins with the byte.
    BadByte,
    /// No quote ends the string of the token.
    OpenString,
    /// A `\` in a string begins no escape.
    BadEscape,
    /// The magnitude of an integer is 2^128 or more.
    NumberTooWide,
    /// The token doesn't fit what stands before it.
    Syntax,
    /// A name is defined that has a definition before.
    Duplicate,
    /// A name is used that has no definition of the sort that its use needs.
    Unknown,
    /// The token doesn't fit, and belongs to what QIR texts leave out of LLVM's language.
    LeftOut,
    /// An integer isn't one of its type, or the number of a name, group or node is above 4,294,967,295.
    LiteralRange,
    /// A byte string, or the constant of a label expression, has another length than is written there.
    StringLength,
    /// A node that is listed as a module flag has another shape.
    BadFlag,
    /// More than 64 function pointer types are nested.
    TooDeep,
}

impl ReadCode {
    /// The number of the code, from 1 to 12, which is fixed.
    pub fn number(self) -> u8
        ensures { result ≡ spec.number_of self }
    {
        match self {
            ReadCode::BadByte => 1,
            ReadCode::OpenString => 2,
            ReadCode::BadEscape => 3,
            ReadCode::NumberTooWide => 4,
            ReadCode::Syntax => 5,
            ReadCode::Duplicate => 6,
            ReadCode::Unknown => 7,
            ReadCode::LeftOut => 8,
            ReadCode::LiteralRange => 9,
            ReadCode::StringLength => 10,
            ReadCode::BadFlag => 11,
            ReadCode::TooDeep => 12,
        }
    }

    /// The name of the code.
    pub fn name(self) -> &'static [u8]
        ensures { result.now ≡ spec.name_of self }
    {
        match self {
            ReadCode::BadByte => b"BadByte",
            ReadCode::OpenString => b"OpenString",
            ReadCode::BadEscape => b"BadEscape",
            ReadCode::NumberTooWide => b"NumberTooWide",
            ReadCode::Syntax => b"Syntax",
            ReadCode::Duplicate => b"Duplicate",
            ReadCode::Unknown => b"Unknown",
            ReadCode::LeftOut => b"LeftOut",
            ReadCode::LiteralRange => b"LiteralRange",
            ReadCode::StringLength => b"StringLength",
            ReadCode::BadFlag => b"BadFlag",
            ReadCode::TooDeep => b"TooDeep",
        }
    }

    /// The code of a fault of the syntax.
    pub(crate) fn of_syntax(code: SyntaxCode) -> ReadCode
        ensures { result ≡ spec.of_syntax code }
    {
        match code {
            SyntaxCode::BadByte => ReadCode::BadByte,
            SyntaxCode::OpenString => ReadCode::OpenString,
            SyntaxCode::BadEscape => ReadCode::BadEscape,
            SyntaxCode::NumberTooWide => ReadCode::NumberTooWide,
            SyntaxCode::Syntax => ReadCode::Syntax,
            SyntaxCode::LeftOut => ReadCode::LeftOut,
            SyntaxCode::LiteralRange => ReadCode::LiteralRange,
            SyntaxCode::StringLength => ReadCode::StringLength,
            SyntaxCode::TooDeep => ReadCode::TooDeep,
        }
    }

    /// The code of a fault of the names.
    pub(crate) fn of_names(code: NameCode) -> ReadCode
        ensures { result ≡ spec.of_names code }
    {
        match code {
            NameCode::Duplicate => ReadCode::Duplicate,
            NameCode::Unknown => ReadCode::Unknown,
            NameCode::StringLength => ReadCode::StringLength,
            NameCode::BadFlag => ReadCode::BadFlag,
        }
    }
}

/// A module and the places of its parts in the text that it was read from.
#[derive(Debug, Drop)]
pub struct Parsed {
    /// The tree, without places.
    pub module: Module,
    /// The place of each spot of the tree, by line and column.
    pub places: Places,
}

/// What stops reading.
#[derive(Clone, Copy, Debug, PartialEq, Eq)]
pub enum ReadStop {
    /// The text is refused for this, at this place.
    Refused { code: ReadCode, place: Place },
    /// Out of memory.
    Memory,
}

impl From<Memory> for ReadStop {
    ghost from_gives = { λ _ s. s ≡ stop.Memory };

    fn from(_e: Memory) -> ReadStop {
        ReadStop::Memory
    }
}
