//! The published grammar and the factored one are grammars of one language.
ghost use Rattle.std.specs.Prelude.{ℕ};
ghost use Rattle.grammar.specs.Aside.{SameFault};
ghost use Rattle.grammar.specs.Laws.{HoldsOnce, PrefixClosed};
ghost use Rattle.ir_grammar.specs.Module as factored;
ghost use Rattle.published_grammar.specs.Module as published;
ghost use Rattle.published_grammar.specs.SameLanguage.{SameAnswers, SamePrefixes, SameSentences};
ghost use Rattle.published_grammar.specs.Types.{or_void, parameters, type_at, type_by};

/// The two grammars have the same sentences, with the same trees.
pub fn same_sentences()
    ensures { SameSentences published.module_text factored.module_text }
{}

/// The two grammars have the same viable prefixes, with the same known at their ends: whether a type may begin there, and
/// which side rule the last token breaks.
pub fn same_prefixes()
    ensures { SamePrefixes published.module_text factored.module_text }
{}

/// The two grammars say the same of every list of tokens: its tree, or its first fault and how many tokens stand before it.
pub fn same_answers()
    ensures { SameAnswers published.module_text factored.module_text }
{}

/// By the published grammar too, every list of tokens has exactly one tree, or exactly one first fault.
pub fn one_tree_or_fault()
    ensures { HoldsOnce published.module_text }
{
    ir_grammar::one_tree_or_fault();
}

/// By the published grammar too, sentences, and the beginnings of viable prefixes, are viable prefixes.
pub fn prefixes_begin_sentences()
    ensures { PrefixClosed published.module_text }
{
    ir_grammar::prefixes_begin_sentences();
}

/// By the published grammar too, the first fault is the same where viable prefixes leave the side rules aside.
pub fn side_rules_aside()
    ensures { SameFault published.module_text }
{
    ir_grammar::side_rules_aside();
}

/// The production of types, which contains itself on its left and is cut at a depth, holds of itself: the cut takes no
/// sentence and no viable prefix away.
pub fn types_hold_of_themselves()
    ensures sentences { (left : ℕ) → SameSentences (type_at left) (type_by (or_void (type_at left)) (parameters left)) }
    ensures prefixes { (left : ℕ) → SamePrefixes (type_at left) (type_by (or_void (type_at left)) (parameters left)) }
{}
