//! The tokens of a module's text with their kinds, places and numbers, and what later passes need of a
//! token: the name or the string that it spells, and the line and column where it stands.
#![tactic(auto)]

mod classify;
mod digits;
mod escapes;
mod kind;
mod laws;
mod lines;
mod number;
mod parts;
mod rule;
mod spelled;
mod text;
mod token;
mod words;

pub use kind::Kind;
pub use laws::scanned_tokens_are_one;
pub use lines::{Lines, Position};
pub use number::Number;
pub use rule::Rule;
pub use spelled::{name_at, spelling, string_at};
pub use text::{Scanned, scan};
pub use token::Token;
