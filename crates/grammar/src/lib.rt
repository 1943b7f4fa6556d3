//! Grammars as data, and readers that answer exactly what a grammar says.
//!
//! A grammar is a value of `Grammar` (`specs/Grammar.antt`): a production is one line that reads as in a language
//! reference, and each sentence has a tree. `specs/Language.antt` says what a grammar means: `Derives` relates sentences
//! to trees, `Front` tells viable prefixes, and `Misread` tells the first fault of a list of tokens and its place.
//! `LL1` (`specs/LookAhead.antt`) is the test that one token of look-ahead decides. In a grammar that passes it every list
//! of tokens has exactly one tree or exactly one first fault, and the reader `read` that the grammar gives
//! (`specs/code/Reading.antt`) answers it; `laws` has the theorems. Nothing is said of other grammars.
//!
//! A hand-written reader by recursive descent goes along a [`Cursor`]. Each of its functions has one clause,
//! `Gives production cursor.old cursor.new result` (`specs/code/Gives.antt`): it answers what `read` answers for its
//! production. Such functions mostly need no proof of their own:
//!
//! - a token is taken by [`Cursor::take`] and its kin, a choice is an `if` on [`Cursor::next_is`] or
//!   [`Cursor::next_is_one_of`], and where an optional part is left out that may begin with a marked one, [`Cursor::skip`]
//!   says so;
//! - [`repeat`], [`separated`] and [`grow`] are the loops, and [`repeat_after`] and [`separated_after`] go on after items
//!   that were read before; a part that contains itself needs a loop of its own, whose goals are answered by a lemma each
//!   (`proofs/Turns.antt`);
//! - [`read_all`] reads all of the tokens.
//!
//! The tokens end as the grammar wants it, as with a token `End` that the first production takes last. A text that goes
//! on with no token ends in a token of a kind that no production takes: the first fault is at that token, or earlier, and
//! the caller tells by the token what to say of it.
#![tactic(auto)]

pub mod cursor;
pub mod fault;
pub mod growth;
pub mod laws;
pub mod part;
pub mod whole;

pub use cursor::{Cursor, Halt, SideRule, Terminal};
pub use fault::Fault;
pub use growth::{Growth, grow};
pub use part::{Listed, Part, repeat, repeat_after, separated, separated_after};
pub use whole::{Refusal, read_all};
