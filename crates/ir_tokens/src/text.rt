//! All tokens of a text.
ghost use Rattle.std.specs.Prelude.{ℕ, ◌≡◌, ◌≤◌, ◌<◌, ◌^◌, length, IfOk};
ghost use Rattle.ir_text.specs.code.Next.{answers};
ghost use Rattle.ir_tokens.specs.Texts as spec;
ghost use Rattle.ir_tokens.specs.code.Ends.{is_end};

use crate::classify::{kind_of, number_of};
use crate::kind::Kind;
use crate::number::Number;
use crate::token::Token;
use ir_text::{LexError, Span, Tok, next_token_in_pass, tokens_are_one};
use ir_values::Memory;
use std::alloc::Global;

/// The tokens of a text.
#[derive(Drop)]
pub struct Scanned {
    /// The tokens in order. The last one is of kind `End`, or, where the text goes on with no token, of kind
    /// `Bad` at the place of the fault.
    pub tokens: Vec<Token>,
    /// What is wrong there.
    pub fault: Option<LexError>,
}

/// The bytes of a slice.
pub(crate) fn slice(bytes: &[u8], span: Span) -> &[u8]
    requires ordered { span.from ≤ span.to }
    requires within { span.to ≤ length bytes.now }
    ensures { result.now ≡ spec.slice bytes.now span }
{
    bytes.split_at(span.from).1.split_at(span.to - span.from).0
}

/// What a token of the text is for the grammar.
fn token_of(bytes: &[u8], kind: Tok, span: Span) -> Token
    requires ordered { span.from ≤ span.to }
    requires within { span.to ≤ length bytes.now }
    requires short { length bytes.now < 2 ^ 32 }
    ensures { result ≡ spec.token_of bytes.now (kind, span) }
{
    let spelling = slice(bytes, span);
    Token {
        kind: kind_of(kind, spelling),
        place: span.from as u32,
        number: Number::of(number_of(kind, spelling)),
    }
}

/// Whether it is the end of the text.
fn is_end(kind: Tok) -> bool
    ensures { result ≡ is_end kind }
{
    matches!(kind, Tok::End)
}

/// What stands where no token does.
fn bad_token(error: LexError) -> Token
    requires { error.at < 2 ^ 32 }
    ensures { result ≡ spec.bad_token error }
{
    Token {
        kind: Kind::Bad,
        place: error.at as u32,
        number: Number::of(0),
    }
}

/// The tokens of a text with their kinds, places and numbers, up to its end or its first fault. The text
/// has fewer than 2^32 bytes. [`Memory`] is the one error.
///
/// # Cost
///
/// It is linear in the length of the text, whatever that is. A token has 24 bytes.
pub fn scan(alloc: Global, bytes: &[u8]) -> Result<Scanned, Memory>
    requires { length bytes.now < 2 ^ 32 }
    ensures tokens { IfOk result (λ s. s.tokens.items ≡ spec.tokens_of bytes.now (answers 0 bytes.now)) }
    ensures fault { IfOk result (λ s. s.fault ≡ spec.fault_of (answers 0 bytes.now)) }
{
    tokens_are_one();
    let mut tokens = Vec::new(alloc);
    let mut at = 0;
    let mut label_free_to = 0;
    loop {
        let (answer, label_free) = next_token_in_pass(bytes, at, label_free_to);
        match answer {
            Ok((kind, span)) => {
                tokens.push(token_of(bytes, kind, span))?;
                if is_end(kind) {
                    return Ok(Scanned {
                        tokens,
                        fault: None,
                    });
                }
                at = span.to;
                label_free_to = label_free;
            }
            Err(error) => {
                tokens.push(bad_token(error))?;
                return Ok(Scanned {
                    tokens,
                    fault: Some(error),
                });
            }
        }
    }
}
