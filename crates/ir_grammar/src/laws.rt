//! What holds of the grammar.
ghost use Rattle.std.specs.Prelude.{List};
ghost use Rattle.grammar.specs.Laws.{HoldsOnce, PrefixClosed};
ghost use Rattle.grammar.specs.Aside.{SameFault};
ghost use Rattle.ir_tokens.specs.code.Kinds.{code};
ghost use Rattle.ir_grammar.specs.declared.tree.ItemSyntax.{ItemSyntax};
ghost use Rattle.ir_grammar.specs.Module.{module_text};
ghost use Rattle.ir_grammar.specs.code.DecidedItems.{module_starts};

use grammar::laws::{Language, holds_once, prefix_closed, same_fault};
use ir_tokens::{Kind, Rule, Token};

/// The language of module texts.
pub struct ModuleText;

impl Language for ModuleText {
    type Token = Token;

    type Kind = Kind;

    type Rule = Rule;

    ghost kind = { λ t. t.kind };

    ghost code = { code };

    ghost Tree = { List ItemSyntax };

    ghost grammar = { module_text };

    ghost decided = { module_starts.decided };
}

/// Every list of tokens has exactly one tree, or exactly one first fault.
pub fn one_tree_or_fault()
    ensures { HoldsOnce module_text }
{
    holds_once::<ModuleText>();
}

/// Sentences, and the beginnings of viable prefixes, are viable prefixes.
pub fn prefixes_begin_sentences()
    ensures { PrefixClosed module_text }
{
    prefix_closed::<ModuleText>();
}

/// The first fault is the same where viable prefixes leave the side rules aside.
pub fn side_rules_aside()
    ensures { SameFault module_text }
{
    same_fault::<ModuleText>();
}
