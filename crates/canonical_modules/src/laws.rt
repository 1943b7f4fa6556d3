//! What the canonical text of a module is read as.
ghost use Rattle.std.specs.Prelude.{List};
ghost use Rattle.grammar.specs.Language.{Derives};
ghost use Rattle.ir_grammar.specs.Module.{module_text};
ghost use Rattle.ir_grammar.specs.declared.tree.ItemSyntax.{ItemSyntax};
ghost use Rattle.ir_module.specs.Printable.{IsPrintable};
ghost use Rattle.ir_module.specs.declared.tree.Module.{Module};
ghost use Rattle.ir_names.specs.Module.{Names};
ghost use Rattle.ir_printer.specs.Canonical.{canonical};
ghost use Rattle.ir_tokens.specs.Whole.{IsWhole};
ghost use Rattle.ir_tokens.specs.declared.token.Token.{Token};

use canonical_text::canonical_text_has_its_tokens;

/// The tokens of the canonical text of a printable module are a sentence of the grammar, no name of its tree has a
/// fault, and the module that the tree spells is this one.
pub fn canonical_text_is_of_its_module()
    ensures { (m : Module) → IsPrintable m → (ts : List Token) × (items : List ItemSyntax) ×
        IsWhole (canonical m) ts × Derives module_text ts items × Names (canonical m) items m }
{
    canonical_text_has_its_tokens();
}
