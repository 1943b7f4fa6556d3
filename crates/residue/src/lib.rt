//! A lowered program before it is a module: straight parts of items, jumps with arguments, and values
//! that are known or Dynamic. The definitions say when one is valid for a target, and which module it is.
#![tactic(auto)]

mod parts;

pub use parts::{
    Jump, Jumps, Line, Lines, Names, Params, Part, Parts, Residue, SwitchCases, Tail, Vals,
};
