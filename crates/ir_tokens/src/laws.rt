//! What the tokens of a text are.
ghost use Rattle.std.specs.Prelude.{◌≡◌, ℕ, ◌↔◌, List, map, Some, None};
ghost use Rattle.ir_text.specs.code.Next.{answers};
ghost use Rattle.ir_text.specs.Tokens.{Tokens};
ghost use Rattle.ir_tokens.specs.Spelled.{spelling_at};
ghost use Rattle.ir_tokens.specs.Texts.{slice, tokens_of, fault_of};
ghost use Rattle.ir_tokens.specs.Whole.{IsWhole, IsBroken};
ghost use Rattle.ir_tokens.specs.declared.token.Token.{Token};
ghost use Rattle.ir_text.specs.declared.tok.LexError.{LexError};
ghost use Rattle.ir_text.specs.declared.tok.Span.{Span};
ghost use Rattle.ir_text.specs.declared.tok.Tok.{Tok};

use ir_text::tokens_are_one;

/// Each text has one list of tokens, up to its end or its first fault, and this is what `scan` answers.
pub fn scanned_tokens_are_one()
    ensures whole { (bytes : List ℕ) (tokens : List Token) → IsWhole bytes tokens
        ↔ ((tokens_of bytes (answers 0 bytes) ≡ tokens) × (fault_of (answers 0 bytes) ≡ None)) }
    ensures broken { (bytes : List ℕ) (tokens : List Token) (error : LexError) → IsBroken bytes tokens error
        ↔ ((tokens_of bytes (answers 0 bytes) ≡ tokens) × (fault_of (answers 0 bytes) ≡ Some error)) }
    // A token's spelling is found again by its place.
    ensures spelled { (bytes : List ℕ) (found : List (Tok × Span)) → Tokens bytes found →
        map (λ token. spelling_at bytes token.1.from) found ≡ map (λ token. slice bytes token.1) found }
{
    tokens_are_one();
}
