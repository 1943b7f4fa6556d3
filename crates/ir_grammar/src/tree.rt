//! Syntax trees of module texts. Names, strings and doubles are still the tokens that spell them, with their places; types,
//! integers and the numbers of qubits and results are values already.
use ir_tokens::Token;
use ir_values::{BinOp, Conv, Flags, Int, Pred, Seq, Ty};

/// A type, its first token, and how deep function pointer types are nested in it.
#[derive(Drop)]
pub struct TypeSyntax {
    pub first: Token,
    pub ty: Ty,
    pub nesting: u64,
}

/// An operand of a type.
#[derive(Drop)]
pub enum OperandSyntax {
    /// An integer of its type.
    Integer(Int),
    /// A double.
    Double(Token),
    /// The number of a qubit or a result.
    Handle(u64),
    /// The `null` of a text.
    NoLabel,
    /// A label expression: its word `getelementptr`, the length that it gives, and its constant.
    LabelOf(Token, u128, Token),
    /// A function by its name.
    Function(Token),
    /// A local value.
    Local(Token),
}

/// An argument of a call.
#[derive(Drop)]
pub struct ArgSyntax {
    pub ty: Ty,
    pub value: OperandSyntax,
}

/// What an instruction does.
#[derive(Drop)]
pub enum InstSyntax {
    Binary(BinOp, Flags, Ty, OperandSyntax, OperandSyntax),
    Icmp(Pred, Ty, OperandSyntax, OperandSyntax),
    Convert(Conv, Ty, OperandSyntax, Ty),
    Select(OperandSyntax, Ty, OperandSyntax, Ty, OperandSyntax),
    /// The return type, the callee, a global or a local name, the arguments and the groups.
    Call(Ty, Token, Seq<ArgSyntax>, Seq<Token>),
}

/// An instruction: its first token, the name that it defines, and what it does.
#[derive(Drop)]
pub struct LineSyntax {
    pub first: Token,
    pub result: Option<Token>,
    pub what: InstSyntax,
}

/// An entry of a phi: the operand, and the label of the block that the edge comes from.
#[derive(Drop)]
pub struct EntrySyntax {
    pub value: OperandSyntax,
    pub from: Token,
}

/// A phi: the name that it defines, its type, and its entries, of which there is one at least.
#[derive(Drop)]
pub struct PhiSyntax {
    pub result: Token,
    pub ty: Ty,
    pub entries: Seq<EntrySyntax>,
}

/// The phis and then the instructions of a block, each in order.
#[derive(Drop)]
pub struct LinesSyntax {
    pub phis: Seq<PhiSyntax>,
    pub insts: Seq<LineSyntax>,
}

/// A case of a switch: its integer, and the label of the block that it leads to.
#[derive(Drop)]
pub struct CaseSyntax {
    pub value: Int,
    pub target: Token,
}

/// A terminator.
#[derive(Drop)]
pub enum TermSyntax {
    RetVoid,
    Ret(Ty, OperandSyntax),
    /// The label.
    Br(Token),
    /// The condition, the label where it is true, and the label where it is false.
    CondBr(OperandSyntax, Token, Token),
    /// The integer and its type, the label where no case fits, and the cases.
    Switch(Ty, OperandSyntax, Token, Seq<CaseSyntax>),
}

/// A basic block: its label if it has one, its phis and instructions, and its terminator with the first token of that.
#[derive(Drop)]
pub struct BlockSyntax {
    pub label: Option<Token>,
    pub lines: LinesSyntax,
    pub last: Token,
    pub term: TermSyntax,
}

/// A parameter: the first token and the name, if it has one, for what is said at it.
#[derive(Drop)]
pub struct ParamSyntax {
    pub first: Token,
    pub ty: Ty,
    pub name: Option<Token>,
}

/// A function: its name, its types, the names of its attribute groups, and its blocks where it is defined.
#[derive(Drop)]
pub struct FunctionSyntax {
    pub name: Token,
    pub ret: Ty,
    pub params: Seq<ParamSyntax>,
    pub groups: Seq<Token>,
    pub blocks: Option<Seq<BlockSyntax>>,
}

/// What stands in a group of attributes.
#[derive(Drop)]
pub enum AttrSyntax {
    /// A key, and its value if it has one.
    Text(Token, Option<Token>),
    /// A bare word.
    Word,
}

/// An integer or a string in a node.
#[derive(Drop)]
pub enum PartSyntax {
    /// The width, whether there is a `-`, and the magnitude. `true` is 1 of width 1, and `false` is 0.
    Integer(u128, bool, u128),
    Text(Token),
}

/// An element of a node: an integer or string, the name of a node, `null`, or a node written in place.
#[derive(Drop)]
pub enum ElemSyntax {
    Part(PartSyntax),
    Node(Token),
    Null,
    Parts(Seq<PartSyntax>),
}

/// An item of a module, in the order of the text.
#[derive(Drop)]
pub enum ItemSyntax {
    /// A header or a type line: what the tree of a module drops.
    Aside,
    /// The name and the byte string.
    Constant(Token, Token),
    Function(FunctionSyntax),
    /// The name of a group of attributes, and what stands in it.
    Group(Token, Seq<AttrSyntax>),
    /// The name of a list of nodes, and the names of the nodes.
    List(Token, Seq<Token>),
    /// The name of a node, and its elements.
    Node(Token, Seq<ElemSyntax>),
}
