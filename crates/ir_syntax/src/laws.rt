//! What holds of all texts.
ghost use Rattle.std.specs.Prelude.{ℕ, List};
ghost use Rattle.ir_syntax.specs.Texts.{HasOneAnswer};

use ir_grammar::one_tree_or_fault;
use ir_tokens::scanned_tokens_are_one;

/// Each text has exactly one syntax tree or exactly one first fault.
pub fn each_text_has_one_answer()
    ensures { (text : List ℕ) → HasOneAnswer text }
{
    scanned_tokens_are_one();
    one_tree_or_fault();
}
