//! The tree of a module (LLVM Language Reference, 'High Level Structure'). It holds no places.
ghost use Rattle.std.proofs.Common.{rules};
ghost use Rattle.ir_values.specs.Equal.{equal_decides};

use ir_values::{
    BinOp, BlockId, Bytes, Conv, Copies, Exact, Flags, FuncId, Int, LocalId, Memory, Name, Pred,
    Seq, Ty, Value,
};
use std::alloc::Global;

/// The constants of a module.
pub type Constants = Seq<Constant>;

/// The functions of a module.
pub type Functions = Seq<Function>;

/// The flags of a module.
pub type ModuleFlags = Seq<Flag>;

/// The local names of a function with their types.
pub type Locals = Seq<(Name, Ty)>;

/// The attributes of a function.
pub type Attrs = Seq<Attr>;

/// The basic blocks of a function.
pub type Blocks = Seq<Block>;

/// The parts of a flag's value.
pub type FlagParts = Seq<FlagPart>;

/// The phis of a block.
pub type Phis = Seq<Phi>;

/// The instructions of a block, without its phis and its terminator.
pub type Insts = Seq<Inst>;

/// The entries of a phi: the operand that it takes, and the block that the edge comes from.
pub type PhiEntries = Seq<(Operand, BlockId)>;

/// The arguments of a call with their types.
pub type CallArgs = Seq<(Ty, Operand)>;

/// The cases of a switch: the integer, and the block that it leads to.
pub type Cases = Seq<(Int, BlockId)>;

/// A module. Its parts stand in text order.
#[derive(Debug, Drop)]
pub struct Module {
    pub globals: Constants,
    pub funcs: Functions,
    pub flags: ModuleFlags,
}

impl Copies for Module {
    fn copy(&self, alloc: Global) -> Result<Module, Memory> {
        Ok(Module {
            globals: self.globals.copy(alloc)?,
            funcs: self.funcs.copy(alloc)?,
            flags: self.flags.copy(alloc)?,
        })
    }
}

/// A constant array of bytes (LLVM Language Reference, 'Global Variables').
#[derive(Debug, Drop)]
pub struct Constant {
    pub name: Name,
    pub bytes: Bytes,
}

impl Copies for Constant {
    fn copy(&self, alloc: Global) -> Result<Constant, Memory> {
        Ok(Constant {
            name: self.name.copy(alloc)?,
            bytes: self.bytes.copy(alloc)?,
        })
    }
}

/// A function. The first `params` locals are its parameters, and the results follow in text order. A
/// declaration has no blocks, and its parameters have the names `Number(0)`, `Number(1)` and so on.
#[derive(Debug, Drop)]
pub struct Function {
    pub name: Name,
    pub ret: Ty,
    pub params: u32,
    pub locals: Locals,
    pub attrs: Attrs,
    pub blocks: Option<Blocks>,
}

impl Copies for Function {
    fn copy(&self, alloc: Global) -> Result<Function, Memory> {
        Ok(Function {
            name: self.name.copy(alloc)?,
            ret: self.ret.copy(alloc)?,
            params: self.params,
            locals: self.locals.copy(alloc)?,
            attrs: self.attrs.copy(alloc)?,
            blocks: self.blocks.copy(alloc)?,
        })
    }
}

/// A string attribute, `"key"` or `"key"="value"` (LLVM Language Reference, 'Attribute Groups').
#[derive(Debug, Drop, PartialEq, Eq, Hash)]
pub struct Attr {
    pub key: Bytes,
    pub value: Option<Bytes>,
}

impl Copies for Attr {
    fn copy(&self, alloc: Global) -> Result<Attr, Memory> {
        Ok(Attr {
            key: self.key.copy(alloc)?,
            value: self.value.copy(alloc)?,
        })
    }
}

impl Exact for Attr {
    ghost exact = { Prim.search (rules, equal_decides) };
}

/// A flag of the module (LLVM Language Reference, 'Module Flags Metadata').
#[derive(Debug, Drop)]
pub struct Flag {
    pub behaviour: u32,
    pub key: Bytes,
    pub value: FlagValue,
}

impl Copies for Flag {
    fn copy(&self, alloc: Global) -> Result<Flag, Memory> {
        Ok(Flag {
            behaviour: self.behaviour,
            key: self.key.copy(alloc)?,
            value: self.value.copy(alloc)?,
        })
    }
}

/// A part of a flag's value: an integer of `width` bits, from 1 to 128, or a text.
#[derive(Debug, Drop, PartialEq, Eq)]
pub enum FlagPart {
    Int { width: u32, bits: u128 },
    Text(Bytes),
}

impl Copies for FlagPart {
    fn copy(&self, alloc: Global) -> Result<FlagPart, Memory> {
        Ok(match self {
            FlagPart::Int { width, bits } => FlagPart::Int {
                width: *width,
                bits: *bits,
            },
            FlagPart::Text(a) => FlagPart::Text(a.copy(alloc)?),
        })
    }
}

impl Exact for FlagPart {
    ghost exact = { Prim.search (rules, equal_decides) };
}

/// The value of a flag: one part, or a list of parts.
#[derive(Debug, Drop)]
pub enum FlagValue {
    One(FlagPart),
    List(FlagParts),
}

impl Copies for FlagValue {
    fn copy(&self, alloc: Global) -> Result<FlagValue, Memory> {
        Ok(match self {
            FlagValue::One(a) => FlagValue::One(a.copy(alloc)?),
            FlagValue::List(a) => FlagValue::List(a.copy(alloc)?),
        })
    }
}

/// A basic block: phis, instructions and the terminator.
#[derive(Debug, Drop)]
pub struct Block {
    pub name: Name,
    pub phis: Phis,
    pub insts: Insts,
    pub term: Term,
}

impl Copies for Block {
    fn copy(&self, alloc: Global) -> Result<Block, Memory> {
        Ok(Block {
            name: self.name.copy(alloc)?,
            phis: self.phis.copy(alloc)?,
            insts: self.insts.copy(alloc)?,
            term: self.term.copy(alloc)?,
        })
    }
}

/// A phi, with an entry for each edge into its block (LLVM Language Reference, 'phi Instruction').
#[derive(Debug, Drop)]
pub struct Phi {
    pub result: LocalId,
    pub entries: PhiEntries,
}

impl Copies for Phi {
    fn copy(&self, alloc: Global) -> Result<Phi, Memory> {
        Ok(Phi {
            result: self.result,
            entries: self.entries.copy(alloc)?,
        })
    }
}

/// An instruction, and the local name that it defines, if any.
#[derive(Debug, Drop)]
pub struct Inst {
    pub result: Option<LocalId>,
    pub what: InstKind,
}

impl Copies for Inst {
    fn copy(&self, alloc: Global) -> Result<Inst, Memory> {
        Ok(Inst {
            result: self.result,
            what: self.what.copy(alloc)?,
        })
    }
}

/// What an instruction does. A conversion goes from the first type to the second. A select has its
/// condition first. A call has its return type first.
#[derive(Debug, Drop)]
pub enum InstKind {
    Binary(BinOp, Flags, Ty, Operand, Operand),
    Icmp(Pred, Ty, Operand, Operand),
    Convert(Conv, Ty, Operand, Ty),
    Select(Operand, Ty, Operand, Ty, Operand),
    Call(Ty, Callee, CallArgs),
}

impl Copies for InstKind {
    fn copy(&self, alloc: Global) -> Result<InstKind, Memory> {
        Ok(match self {
            InstKind::Binary(a, b, c, d, e) => InstKind::Binary(
                *a,
                *b,
                c.copy(alloc)?,
                d.copy(alloc)?,
                e.copy(alloc)?,
            ),
            InstKind::Icmp(a, b, c, d) => InstKind::Icmp(
                *a,
                b.copy(alloc)?,
                c.copy(alloc)?,
                d.copy(alloc)?,
            ),
            InstKind::Convert(a, b, c, d) => InstKind::Convert(
                *a,
                b.copy(alloc)?,
                c.copy(alloc)?,
                d.copy(alloc)?,
            ),
            InstKind::Select(a, b, c, d, e) => InstKind::Select(
                a.copy(alloc)?,
                b.copy(alloc)?,
                c.copy(alloc)?,
                d.copy(alloc)?,
                e.copy(alloc)?,
            ),
            InstKind::Call(a, b, c) => InstKind::Call(a.copy(alloc)?, *b, c.copy(alloc)?),
        })
    }
}

/// What a call calls: a function by its name, or the function that a local name's value is.
#[derive(Clone, Copy, Debug, PartialEq, Eq)]
pub enum Callee {
    Func(FuncId),
    Local(LocalId),
}

impl Copies for Callee {
    fn copy(&self, _alloc: Global) -> Result<Callee, Memory> {
        Ok(*self)
    }
}

impl Exact for Callee {
    ghost exact = { Prim.search (rules, equal_decides) };
}

/// How a block ends. A conditional branch leads to the first block where its condition is true. A
/// switch leads to its block where no case equals.
#[derive(Debug, Drop)]
pub enum Term {
    RetVoid,
    Ret(Ty, Operand),
    Br(BlockId),
    CondBr(Operand, BlockId, BlockId),
    Switch(Ty, Operand, BlockId, Cases),
}

impl Copies for Term {
    fn copy(&self, alloc: Global) -> Result<Term, Memory> {
        Ok(match self {
            Term::RetVoid => Term::RetVoid,
            Term::Ret(a, b) => Term::Ret(a.copy(alloc)?, b.copy(alloc)?),
            Term::Br(a) => Term::Br(*a),
            Term::CondBr(a, b, c) => Term::CondBr(a.copy(alloc)?, *b, *c),
            Term::Switch(a, b, c, d) => Term::Switch(
                a.copy(alloc)?,
                b.copy(alloc)?,
                *c,
                d.copy(alloc)?,
            ),
        })
    }
}

/// What an instruction reads: a constant value, or a local name.
#[derive(Debug, Drop, PartialEq, Eq)]
pub enum Operand {
    Const(Value),
    Local(LocalId),
}

impl Copies for Operand {
    fn copy(&self, alloc: Global) -> Result<Operand, Memory> {
        Ok(match self {
            Operand::Const(a) => Operand::Const(a.copy(alloc)?),
            Operand::Local(a) => Operand::Local(*a),
        })
    }
}

impl Exact for Operand {
    ghost exact = { Prim.search (rules, equal_decides) };
}
