//! What the canonical text of a printable module is read as.
ghost use Rattle.std.specs.Prelude.{◌≡◌, map};
ghost use Rattle.ir_module.specs.Printable.{IsPrintable};
ghost use Rattle.ir_module.specs.declared.tree.Module.{Module};
ghost use Rattle.ir_text.specs.Tokens.{Tokens};
ghost use Rattle.ir_tokens.specs.Spelled.{spelling_at};
ghost use Rattle.ir_tokens.specs.Whole.{IsWhole};
ghost use Rattle.ir_parts.specs.Parts.{spans_of, tokens_of, spellings_of};
ghost use Rattle.ir_printer.specs.Canonical.{canonical, module_parts};

use ir_parts::parts_are_tokens;

/// The canonical text of a printable module has exactly the tokens that are meant: those of its parts.
pub fn canonical_text_has_its_tokens()
    // The tokens with their slices, each the longest at its place and none with a fault.
    ensures slices { (m : Module) → IsPrintable m → Tokens (canonical m) (spans_of (module_parts m)) }
    // The tokens with their kinds and numbers, as the grammar takes them.
    ensures tokens { (m : Module) → IsPrintable m → IsWhole (canonical m) (tokens_of (module_parts m)) }
    // Each spelling is found again by its token's place.
    ensures spellings { (m : Module) → IsPrintable m →
        map (λ token. spelling_at (canonical m) token.place) (tokens_of (module_parts m)) ≡ spellings_of (module_parts m) }
{
    parts_are_tokens();
}
