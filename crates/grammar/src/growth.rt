//! A loop that reads parts each of which is asked for by what was read before.
ghost use Rattle.std.specs.Prelude.{◌≡◌, ℕ, List};
ghost use Rattle.grammar.specs.Grammar.{Grammar, alphabet, grow, begins_with};
ghost use Rattle.grammar.specs.LookAhead.{LL1, firsts, marks};
ghost use Rattle.grammar.specs.code.Gives.{Gives};

use crate::cursor::{Cursor, Halt};
use std::alloc::Global;

/// A part that grows on what was read: what may come next is asked for by the tree so far, and gives the next one.
///
/// An impl gives `kind` and `code`, which make the alphabet; `grows`, what may come after a tree; `extensions`, the
/// kinds by which it may go on, as the grammar has them; and `decided`, that one token of look-ahead decides in what may come.
pub trait Growth {
    /// The tokens of the grammar.
    type Token;
    /// The kinds of tokens.
    type Kind;
    /// What is said of a token that breaks a side rule.
    type Rule: Drop;
    /// What is made of a sentence, which contracts see as its tree.
    type Item: Drop;

    ghost kind: { Self.Token → Self.Kind };

    ghost code: { Self.Kind → ℕ };

    ghost grows: { Self → Self.Item → Grammar (alphabet Self.Rule kind code) Self.Item };

    ghost extensions: { List Self.Kind };

    ghost decided: { (growth : Self) (tree : Self.Item) → LL1 (grows growth tree) };

    /// Whether one more part begins here.
    fn begins(&self, item: &Self::Item, cursor: &Cursor<'_, Self::Token>) -> bool
        ensures { result ≡ begins_with (alphabet Self.Rule kind code) (firsts (grows self.now item.now)) cursor.now.rest.now };

    /// Whether one more part may begin with a marked one.
    fn marked(&self, item: &Self::Item) -> bool
        ensures { result ≡ marks (grows self.now item.now) };

    /// Reads one more part.
    fn read<'a>(
        &self,
        alloc: Global,
        item: Self::Item,
        cursor: &mut Cursor<'a, Self::Token>,
    ) -> Result<Self::Item, Halt<'a, Self::Token, Self::Rule>>
        ensures { Gives (grows self.now item) cursor.old cursor.new result };
}

/// Reads parts from `start` on, each asked for by what was read before, as long as one begins. Stops at the first fault,
/// or where memory runs out.
pub fn grow<'a, G: Growth>(
    alloc: Global,
    growth: &G,
    start: G::Item,
    cursor: &mut Cursor<'a, G::Token>,
) -> Result<G::Item, Halt<'a, G::Token, G::Rule>>
    ensures { Gives (grow start G.extensions (G.grows growth.now)) cursor.old cursor.new result }
{
    let mut item = start;
    while growth.begins(&item, cursor) {
        item = growth.read(alloc, item, cursor)?;
    }
    cursor.skip(growth.marked(&item));
    Ok(item)
}
