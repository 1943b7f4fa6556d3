//! Loops that read a part of a grammar any number of times.
ghost use Rattle.std.specs.Prelude.{◌≡◌, ℕ, Bool, List, [], ◌∷◌, ◌++◌};
ghost use Rattle.grammar.specs.Grammar.{Grammar, alphabet, as_tree, rep, preceded, listed, begins_with};
ghost use Rattle.grammar.specs.LookAhead.{Starts};
ghost use Rattle.grammar.specs.code.Gives.{Gives};

use crate::cursor::{Cursor, Halt};
use crate::fault::Fault;
use ir_values::Seq;
use std::alloc::Global;

/// A part of a grammar that is read any number of times, and the function that reads it.
///
/// An impl gives `kind` and `code`, which make the alphabet; `grammar`, the part itself, which may go by the value;
/// `kinds`, by which it begins; `mark`, whether it may begin with a marked part; and `starts`, that all this is so and that
/// one token of look-ahead decides in it.
pub trait Part {
    /// The tokens of the grammar.
    type Token;
    /// The kinds of tokens.
    type Kind;
    /// What is said of a token that breaks a side rule.
    type Rule: Drop;
    /// What is made of a sentence, which contracts see as its tree.
    type Item: Drop;

    ghost kind: { Self.Token → Self.Kind };

    ghost code: { Self.Kind → ℕ };

    ghost grammar: { Self → Grammar (alphabet Self.Rule kind code) Self.Item };

    ghost kinds: { Self → List Self.Kind };

    ghost mark: { Bool };

    ghost starts: { (part : Self) → Starts (grammar part) (kinds part) mark };

    /// Whether the part begins here.
    fn begins(&self, cursor: &Cursor<'_, Self::Token>) -> bool
        ensures { result ≡ begins_with (alphabet Self.Rule kind code) (kinds self.now) cursor.now.rest.now };

    /// Whether the part may begin with a marked one.
    fn marked(&self) -> bool
        ensures { result ≡ mark };

    /// Reads the part.
    fn read<'a>(
        &self,
        alloc: Global,
        cursor: &mut Cursor<'a, Self::Token>,
    ) -> Result<Self::Item, Halt<'a, Self::Token, Self::Rule>>
        ensures { Gives (grammar self.now) cursor.old cursor.new result };
}

/// Reads the part any number of times, as long as it begins. Stops at the first fault, or where memory runs out.
#[tactic(auto, using(crate::proofs::Turns::repeat_all))]
pub fn repeat<'a, P: Part>(
    alloc: Global,
    part: &P,
    cursor: &mut Cursor<'a, P::Token>,
) -> Result<Seq<P::Item>, Halt<'a, P::Token, P::Rule>>
    ensures { Gives (rep (P.grammar part.now)) cursor.old cursor.new result }
{
    repeat_after(alloc, part, cursor, Seq::new(alloc))
}

/// A part that is read any number of times with a separator between two. An impl gives the kind of the separator.
pub trait Listed: Part {
    ghost separator: { Self.Kind };

    /// Whether the separator comes next.
    fn separates(&self, cursor: &Cursor<'_, Self::Token>) -> bool
        ensures { result ≡ begins_with (alphabet Self.Rule Self.kind Self.code) (separator ∷ []) cursor.now.rest.now };
}

/// Reads nothing, or the part any number of times with a separator between two. Stops at the first fault, or where memory
/// runs out.
pub fn separated<'a, P: Listed>(
    alloc: Global,
    part: &P,
    cursor: &mut Cursor<'a, P::Token>,
) -> Result<Seq<P::Item>, Halt<'a, P::Token, P::Rule>>
    ensures { Gives (listed (P.separator ∷ []) (P.grammar part.now)) cursor.old cursor.new result }
{
    if !part.begins(cursor) {
        cursor.skip(part.marked());
        return Ok(Seq::new(alloc));
    }
    let first = part.read(alloc, cursor)?;
    let mut items = Seq::new(alloc);
    items.push(first)?;
    separated_after(alloc, part, cursor, items)
}

/// Reads a separator and the part any number of times, and adds the parts to the items that stand before.
pub fn separated_after<'a, P: Listed>(
    alloc: Global,
    part: &P,
    cursor: &mut Cursor<'a, P::Token>,
    items: Seq<P::Item>,
) -> Result<Seq<P::Item>, Halt<'a, P::Token, P::Rule>>
    ensures { Gives (as_tree (λ more. items ++ more) (rep (preceded (P.separator ∷ []) (P.grammar part.now)))) cursor.old cursor.new result }
{
    let mut all = items;
    while part.separates(cursor) {
        let item = preceded(alloc, part, cursor)?;
        all.push(item)?;
    }
    Ok(all)
}

/// Reads the part any number of times, and adds the parts to the items that stand before.
pub fn repeat_after<'a, P: Part>(
    alloc: Global,
    part: &P,
    cursor: &mut Cursor<'a, P::Token>,
    items: Seq<P::Item>,
) -> Result<Seq<P::Item>, Halt<'a, P::Token, P::Rule>>
    ensures { Gives (as_tree (λ more. items ++ more) (rep (P.grammar part.now))) cursor.old cursor.new result }
{
    let mut all = items;
    while part.begins(cursor) {
        let item = part.read(alloc, cursor)?;
        all.push(item)?;
    }
    cursor.skip(part.marked());
    Ok(all)
}

/// Reads a separator and the part.
#[tactic(auto, unfolding(crate::specs::Grammar::preceded))]
fn preceded<'a, P: Listed>(
    alloc: Global,
    part: &P,
    cursor: &mut Cursor<'a, P::Token>,
) -> Result<P::Item, Halt<'a, P::Token, P::Rule>>
    ensures { Gives (preceded (P.separator ∷ []) (P.grammar part.now)) cursor.old cursor.new result }
{
    match cursor.rest {
        [_, rest @ ..] if part.separates(cursor) => {
            cursor.rest = rest;
            cursor.marked = false;
        }
        _ => return Err(Halt::At(Fault::Unexpected(cursor.marked), cursor.rest)),
    }
    part.read(alloc, cursor)
}
