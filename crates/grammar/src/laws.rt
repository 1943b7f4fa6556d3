//! The theorems on grammars, each as the contract of a function that does nothing.
ghost use Rattle.std.specs.Prelude.{ℕ};
ghost use Rattle.grammar.specs.Grammar.{Grammar, alphabet};
ghost use Rattle.grammar.specs.LookAhead.{LL1};
ghost use Rattle.grammar.specs.Laws.{HoldsOnce, OneTree, PrefixClosed, AnswersExactly};
ghost use Rattle.grammar.specs.Aside.{SameFault};
ghost use Rattle.grammar.specs.Union.{JoinHolds};

/// A language with a grammar in which one token of look-ahead decides.
///
/// An impl gives `kind` and `code`, which make the alphabet; `Tree`, what a sentence stands for; `grammar`; and `decided`,
/// that one token of look-ahead decides in it.
pub trait Language {
    /// The tokens of the grammar.
    type Token;
    /// The kinds of tokens.
    type Kind;
    /// What is said of a token that breaks a side rule.
    type Rule;

    ghost kind: { Self.Token → Self.Kind };

    ghost code: { Self.Kind → ℕ };

    ghost Tree: { Type 0 };

    ghost grammar: { Grammar (alphabet Self.Rule kind code) Tree };

    ghost decided: { LL1 grammar };
}

/// Every list of tokens has exactly one tree, or exactly one first fault.
pub fn holds_once<G: Language>()
    ensures { HoldsOnce G.grammar }
{}

/// A sentence has one tree.
pub fn one_tree<G: Language>()
    ensures { OneTree G.grammar }
{}

/// Sentences, and the beginnings of viable prefixes, are viable prefixes.
pub fn prefix_closed<G: Language>()
    ensures { PrefixClosed G.grammar }
{}

/// The reader by one token of look-ahead answers the tree or the first fault, and nothing else holds.
pub fn answers_exactly<G: Language>()
    ensures { AnswersExactly G.grammar }
{}

/// Whether viable prefixes keep side rules or leave them aside, the first fault is the same.
pub fn same_fault<G: Language>()
    ensures { SameFault G.grammar }
{}

/// A language with two grammars, in each of which one token of look-ahead decides: the members are those of `Language`.
pub trait TwoGrammars {
    /// The tokens of the grammar.
    type Token;
    /// The kinds of tokens.
    type Kind;
    /// What is said of a token that breaks a side rule.
    type Rule;

    ghost kind: { Self.Token → Self.Kind };

    ghost code: { Self.Kind → ℕ };

    ghost Tree: { Type 0 };

    ghost first: { Grammar (alphabet Self.Rule kind code) Tree };

    ghost second: { Grammar (alphabet Self.Rule kind code) Tree };

    ghost decided: { LL1 first × LL1 second };
}

/// The answers of the two grammars, joined, are those of their union.
pub fn join_holds<G: TwoGrammars>()
    ensures { JoinHolds G.first G.second }
{}
