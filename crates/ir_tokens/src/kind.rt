//! The kinds of tokens.
ghost use Rattle.std.specs.Prelude.{◌≡◌};
ghost use Rattle.ir_tokens.specs.code.Kinds.{code};

/// The kind of a token: what a production of the grammar asks of it. Each word of the grammar has a kind
/// of its own, and so has each sign and each sort of name and literal.
#[derive(Clone, Copy)]
pub enum Kind {
    /// The end of the text.
    End,
    /// The text goes on with no token: no production takes it.
    Bad,
    /// A label, its `:` included.
    Label,
    /// `%` and a name, other than the two below.
    Local,
    /// `%Qubit`.
    QubitName,
    /// `%Result`.
    ResultName,
    /// `@` and a name.
    Global,
    /// An integer without a sign.
    Nat,
    /// An integer with a `-`.
    Minus,
    /// A double.
    DoubleLiteral,
    /// A string.
    Str,
    /// A byte string.
    ByteStr,
    /// `#` and digits.
    Group,
    /// `!` and digits.
    Node,
    /// `!` and a name.
    MetaName,
    /// `!` alone.
    Bang,
    /// `=`
    Equals,
    /// `,`
    Comma,
    /// `(`
    Open,
    /// `)`
    Close,
    /// `[`
    OpenSquare,
    /// `]`
    CloseSquare,
    /// `{`
    OpenBrace,
    /// `}`
    CloseBrace,
    /// `*`
    Star,
    /// `...`
    Dots,
    /// `<`
    Less,
    /// `>`
    Greater,
    /// A word that is none of those below.
    OtherWord,
    /// A word or a width of LLVM's language that QIR texts leave out, and that no production has.
    LeftOutWord,
    /// `i` and 1, 8, 16, 32 or 64 with zeros before it: a width in metadata alone.
    SameWidth,
    /// `i` and another number from 1 to 128: a width in metadata alone.
    OddWidth,
    /// Words of the grammar from here on: `source_filename`.
    SourceFilename,
    Target,
    Triple,
    DataLayout,
    TypeWord,
    Opaque,
    Private,
    Internal,
    UnnamedAddr,
    LocalUnnamedAddr,
    Constant,
    X,
    Align,
    Declare,
    Define,
    Attributes,
    Null,
    True,
    False,
    DsoLocal,
    WriteOnly,
    ReadOnly,
    NoCapture,
    I1,
    I8,
    I16,
    I32,
    I64,
    DoubleType,
    Void,
    Phi,
    Add,
    Sub,
    Mul,
    UDiv,
    SDiv,
    URem,
    SRem,
    Shl,
    LShr,
    AShr,
    And,
    Or,
    Xor,
    Icmp,
    Eq,
    Ne,
    Ugt,
    Uge,
    Ult,
    Ule,
    Sgt,
    Sge,
    Slt,
    Sle,
    ZExt,
    SExt,
    Trunc,
    To,
    Select,
    Tail,
    NoTail,
    Call,
    Ret,
    Br,
    LabelWord,
    Switch,
    IntToPtr,
    GetElementPtr,
    InBounds,
    Nuw,
    Nsw,
    Exact,
    /// `ptr`, which texts with typed pointers leave out.
    Ptr,
}

impl Kind {
    /// Its number, which tells kinds apart.
    pub fn number(self) -> u8
        ensures { result ≡ code self }
    {
        self as u8
    }
}
