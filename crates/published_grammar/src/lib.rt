//! The grammar of module texts as it is published, beside the factored one.
//!
//! `ir_grammar` has the grammar of module texts with its productions factored, so that one token of look-ahead decides. Here
//! it stands as it is published, production by production, in `specs/`: a choice for each form of an item, an instruction or
//! a terminator, phis and instructions as two repetitions, function pointer types with their return type first. The two have
//! the same sentences with the same trees, the same viable prefixes, and so the same first fault of every list of tokens:
//! [`same_sentences`], [`same_prefixes`], [`same_answers`]. What is proved of a reader by the one holds by the other.
#![tactic(auto)]

mod laws;

pub use laws::{
    one_tree_or_fault, prefixes_begin_sentences, same_answers, same_prefixes, same_sentences,
    side_rules_aside, types_hold_of_themselves,
};
