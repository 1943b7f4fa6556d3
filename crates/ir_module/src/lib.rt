//! A QIR module as a tree, the edges between its blocks, and the places of its parts in their text.
#![tactic(auto)]

mod edges;
mod function;
mod places;
mod tree;

pub use edges::{Edges, successors};
pub use places::{Place, Places, Point, Spot};
pub use tree::{
    Attr, Attrs, Block, Blocks, CallArgs, Callee, Cases, Constant, Constants, Flag, FlagPart,
    FlagParts, FlagValue, Function, Functions, Inst, InstKind, Insts, Locals, Module, ModuleFlags,
    Operand, Phi, PhiEntries, Phis, Term,
};
