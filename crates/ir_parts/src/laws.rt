//! What the tokens of a text are that is written as parts.
ghost use Rattle.std.specs.Prelude.{◌≡◌, List, map, IsTrue, false};
ghost use Rattle.ir_text.specs.Tokens.{Tokens};
ghost use Rattle.ir_tokens.specs.Spelled.{spelling_at};
ghost use Rattle.ir_tokens.specs.Whole.{IsWhole};
ghost use Rattle.ir_parts.specs.Parts.{Part, text_of, spans_of, tokens_of, spellings_of};
ghost use Rattle.ir_parts.specs.Spaced.{spaced};

use ir_tokens::scanned_tokens_are_one;

/// A text that is written as parts that stand apart has exactly their tokens: each the longest at its place, and none with
/// a fault (LLVM Language Reference, 'Identifiers').
pub fn parts_are_tokens()
    // The tokens with their slices.
    ensures slices { (parts : List Part) → IsTrue (spaced false parts) → Tokens (text_of parts) (spans_of parts) }
    // The tokens with their kinds and numbers, as the grammar takes them.
    ensures tokens { (parts : List Part) → IsTrue (spaced false parts) → IsWhole (text_of parts) (tokens_of parts) }
    // Each spelling is found again by its token's place.
    ensures spellings { (parts : List Part) → IsTrue (spaced false parts) →
        map (λ token. spelling_at (text_of parts) token.place) (tokens_of parts) ≡ spellings_of parts }
{
    scanned_tokens_are_one();
}
