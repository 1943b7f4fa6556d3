//! The values of a QIR module: integers of a width, spellings of doubles, types, names and handles,
//! and the lists and bytes that hold them.
#![tactic(auto)]

mod call_table;
mod cause;
mod class;
mod conversion;
mod data;
mod decimal;
mod double;
mod ids;
mod int;
pub mod laws;
mod memory;
mod name;
mod operations;
mod room;
mod seq;
mod sig;
mod token;
mod ty;
mod value;

pub use call_table::{INSTRUCTION_PREFIX, QUANTUM_PREFIX, RUNTIME_PREFIX, call_class};
pub use cause::Cause;
pub use class::Class;
pub use conversion::{compare, convert};
pub use data::{Copies, Exact};
pub use decimal::{parse_decimal, push_decimal, push_signed};
pub use double::behind_double;
pub use ids::{BlockId, FuncId, GlobalId, LocalId};
pub use int::{BinOp, Conv, Flags, Int, Pred, Width};
pub use memory::Memory;
pub use name::Name;
pub use operations::binary;
pub use room::Room;
pub use seq::Seq;
pub use sig::{Sig, TyWord, Words};
pub use token::Token;
pub use ty::{Ty, Tys};
pub use value::Value;

/// A list of bytes, which contracts see as the list of its numbers from 0 to 255.
pub type Bytes = Seq<u8>;
