//! The grammar of module texts as data, and their syntax trees.
//!
//! `specs/Module.antt` has the first production, `module_text`; each production is one line that reads as in the LLVM
//! Language Reference, with its side rules at their tokens. Its sentences, their trees, its viable prefixes and the first
//! fault of a list of tokens are those of `grammar` at this value, so nothing of a parser is in the definition. One token of
//! look-ahead decides in it (`specs/code/`), so every list of tokens has exactly one tree or exactly one first fault.
#![tactic(auto)]

mod laws;
mod tree;

pub use laws::{ModuleText, one_tree_or_fault, prefixes_begin_sentences, side_rules_aside};
pub use tree::{
    ArgSyntax, AttrSyntax, BlockSyntax, CaseSyntax, ElemSyntax, EntrySyntax, FunctionSyntax,
    InstSyntax, ItemSyntax, LineSyntax, LinesSyntax, OperandSyntax, ParamSyntax, PartSyntax,
    PhiSyntax, TermSyntax, TypeSyntax,
};
