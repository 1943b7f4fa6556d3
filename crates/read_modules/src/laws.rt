//! The modules that texts spell are in order.
ghost use Rattle.std.specs.Prelude.{ℕ, List};
ghost use Rattle.ir_grammar.specs.declared.tree.ItemSyntax.{ItemSyntax};
ghost use Rattle.ir_module.specs.Numbered.{Numbered};
ghost use Rattle.ir_module.specs.Printable.{IsPrintable};
ghost use Rattle.ir_names.specs.Module.{module_of};
ghost use Rattle.ir_tokens.specs.declared.token.Token.{Token};
ghost use Rattle.read_modules.specs.Read.{IsRead};

use ir_tokens::scanned_tokens_are_one;

/// Every text that is read spells a module whose numbers and names are in order, and which canonical text can hold.
pub fn read_modules_are_printable()
    ensures numbered { (text : List ℕ) (tokens : List Token) (items : List ItemSyntax) →
        IsRead text tokens items → Numbered (module_of text items) }
    ensures printable { (text : List ℕ) (tokens : List Token) (items : List ItemSyntax) →
        IsRead text tokens items → IsPrintable (module_of text items) }
{
    scanned_tokens_are_one();
}
