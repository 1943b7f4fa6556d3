//! The next token of a text.
ghost use Rattle.std.specs.Prelude.{ℕ, ◌-◌, ◌≡◌, ◌≢◌, ◌≤◌, ◌<◌, ◌↔◌, ◌⊎◌, true, false};
ghost use Rattle.std.specs.Prelude.{List, [], ◌∷◌, ◌++◌, length, drop, map, Ok, Err, IfOk, IfErr};
ghost use Rattle.ir_text.specs.code.Next as spec;
ghost use Rattle.ir_text.specs.code.Next.{answers, then_more};
ghost use Rattle.ir_text.specs.code.LabelFree.{IsLabelFree, ends_label};
ghost use Rattle.ir_text.specs.Breaks.{Breaks};
ghost use Rattle.ir_text.specs.Tokens.{is_blank, IsNext, IsFault, Tokens};

use crate::fault::fault_in;
use crate::shape::{behind_label_free, shape};
use crate::tok::{LexError, Span, Tok};

/// The next token of a text from byte number `at` on, behind blanks and comments, with its slice;
/// at the end of the text `Tok::End`, whose slice is empty and stands behind the last byte. Blanks
/// are space, tab, LF and CR. A comment runs from `;` up to the next LF or the end of the text (LLVM
/// Language Reference, 'Identifiers'). The longest token is taken. It takes no memory.
///
/// `at` is at most the length of the text. To go on, call it with the end of the slice.
///
/// # Errors
///
/// - `OpenString`, at the first byte of the token, where no quote ends its string.
/// - `BadEscape`, at the first `\` of the token that belongs to no escape before it, and that neither a
///   `\` nor two hexadecimal digits follow.
/// - `NumberTooWide`, at the first byte of an integer whose magnitude is 2^128 or more.
/// - `BadByte`, at a byte with which no token begins here.
///
/// # Cost
///
/// A call reads the blanks and comments before the token, and the token. Where that begins with a
/// letter, a digit or one of `-`, `$`, `.` and `_`, it also reads up to the next byte that is none of
/// these, since a `:` there makes all of them a label.
pub fn next_token(bytes: &[u8], at: usize) -> Result<(Tok, Span), LexError>
    requires { at ≤ length bytes.now }
    // Exactly the next token or the end, or exactly the fault that the next token has.
    ensures token { (found : Tok × Span) →
        (result ≡ Ok found) ↔ IsNext at (drop at bytes.now) found }
    ensures fault { (error : LexError) →
        (result ≡ Err error) ↔ IsFault at (drop at bytes.now) error }

    // The same as a function of the rest of the text.
    ensures next { result ≡ spec.next at (drop at bytes.now) }

    // Where a token and where a fault lie.
    ensures slice { IfOk result (λ found. (at ≤ found.1.from)
        × (found.1.from ≤ found.1.to) × (found.1.to ≤ length bytes.now)) }
    ensures progress { IfOk result (λ found. found.0 ≢ Tok.End → found.1.from < found.1.to) }
    ensures place { IfErr result (λ error. (at ≤ error.at) × (error.at < length bytes.now)) }
{
    next_at(bytes, at, after_gap(bytes.split_at(at).1), false)
}

/// The next token of a text from byte number `at` on, as `next_token` answers it, for a pass over a
/// whole text. The second answer says up to which byte no label begins from the end of the token on:
/// give it to the next call as `label_free_to`. A run of bytes of names is then looked through for
/// its `:` once, and not again at each token in it, so that a pass is linear on every text.
///
/// `at` is at most the length of the text, and no label begins from byte `at` up to byte
/// `label_free_to`. Begin with 0 for both.
///
/// # Errors
///
/// Those of `next_token`.
pub fn next_token_in_pass(
    bytes: &[u8],
    at: usize,
    label_free_to: usize,
) -> (Result<(Tok, Span), LexError>, usize)
    requires within { at ≤ length bytes.now }
    requires label_free { IsLabelFree bytes.now at label_free_to }
    ensures next { result.0 ≡ spec.next at (drop at bytes.now) }
    ensures label_free { IfOk result.0 (λ found. IsLabelFree bytes.now found.1.to result.1) }
    ensures slice { IfOk result.0 (λ found. (at ≤ found.1.from)
        × (found.1.from ≤ found.1.to) × (found.1.to ≤ length bytes.now)) }
    ensures progress { IfOk result.0 (λ found. found.0 ≢ Tok.End → found.1.from < found.1.to) }
    ensures place { IfErr result.0 (λ error. (at ≤ error.at) × (error.at < length bytes.now)) }
{
    let rest = after_gap(bytes.split_at(at).1);
    let label_free_to = label_free_from(bytes, rest, at, label_free_to);
    let label_free = bytes.len() - rest.len() < label_free_to;
    (next_at(bytes, at, rest, label_free), label_free_to)
}

/// Up to which byte no label begins, from the next token on, which stands at the front of `rest`.
fn label_free_from(bytes: &[u8], rest: &[u8], at: usize, label_free_to: usize) -> usize
    requires within { at ≤ length bytes.now }
    requires rest { rest.now ≡ spec.after_gap false (drop at bytes.now) }
    requires label_free { IsLabelFree bytes.now at label_free_to }
    ensures { IsLabelFree bytes.now (length bytes.now - length rest.now) result }
{
    if bytes.len() - rest.len() < label_free_to {
        label_free_to
    } else {
        bytes.len() - behind_label_free(rest).len()
    }
}

/// The next token, where the bytes behind blanks and comments are `rest`. Where `label_free` is true,
/// no label is among them at the front.
fn next_at(bytes: &[u8], at: usize, rest: &[u8], label_free: bool) -> Result<(Tok, Span), LexError>
    requires within { at ≤ length bytes.now }
    requires rest { rest.now ≡ spec.after_gap false (drop at bytes.now) }
    requires label_free { label_free ≡ true → ends_label rest.now ≡ false }
    ensures token { (found : Tok × Span) →
        (result ≡ Ok found) ↔ IsNext at (drop at bytes.now) found }
    ensures fault { (error : LexError) →
        (result ≡ Err error) ↔ IsFault at (drop at bytes.now) error }
    ensures next { result ≡ spec.next at (drop at bytes.now) }
    ensures slice { IfOk result (λ found. (at ≤ found.1.from)
        × (found.1.from ≤ found.1.to) × (found.1.to ≤ length bytes.now)) }
    ensures behind { IfOk result (λ found. length bytes.now - length rest.now ≤ found.1.to) }
    ensures progress { IfOk result (λ found. found.0 ≢ Tok.End → found.1.from < found.1.to) }
    ensures place { IfErr result (λ error. (at ≤ error.at) × (error.at < length bytes.now)) }
{
    let from = bytes.len() - rest.len();
    match token(rest, label_free) {
        Ok((kind, len)) => Ok((
            kind,
            Span {
                from,
                to: from + len,
            },
        )),
        Err(fault) => Err(LexError {
            code: fault.code,
            at: from + fault.at,
        }),
    }
}

/// A text has at most one list of tokens, and `next_token` gives it: called again and again, each
/// time with the end of the slice before, it answers these tokens up to the end exactly where there
/// is such a list. Otherwise it answers the tokens before the first fault, and then that.
pub fn tokens_are_one()
    ensures one { (bytes : List ℕ) (some others : List (Tok × Span)) →
        Tokens bytes some → Tokens bytes others → some ≡ others }
    ensures called { (bytes : List ℕ) (tokens : List (Tok × Span)) →
        Tokens bytes tokens ↔ (answers 0 bytes ≡ map Ok tokens) }

    // Where there is none, the text breaks off at its first fault: the tokens before it and the fault
    // are the answers.
    ensures either { (bytes : List ℕ) → ((tokens : List (Tok × Span)) × Tokens bytes tokens)
        ⊎ ((tokens : List (Tok × Span)) × (error : LexError) × Breaks bytes tokens error) }
    ensures broken { (bytes : List ℕ) (tokens : List (Tok × Span)) (error : LexError) →
        Breaks bytes tokens error ↔ (answers 0 bytes ≡ map Ok tokens ++ Err error ∷ []) }

    // The next token is answered from every place from which it is the next.
    ensures next { (at : ℕ) (rest : List ℕ) (found : Tok × Span) →
        IsNext at rest found → spec.next at rest ≡ Ok found }

    // The answers from a place on are the next one and those behind it.
    ensures step { (at : ℕ) (rest : List ℕ) →
        answers at rest ≡ then_more answers at rest (spec.next at rest) }
{}

/// The kind and the length of the token that the bytes begin with, or its fault at a byte counted
/// from the first.
fn token(bytes: &[u8], label_free: bool) -> Result<(Tok, usize), LexError>
    requires { label_free ≡ true → ends_label bytes.now ≡ false }
    ensures { result ≡ spec.token bytes.now }
{
    match shape(bytes, label_free) {
        Ok((kind, more)) => {
            let len = bytes.len() - more.len();
            match fault_in(kind, &bytes[..len]) {
                Some(fault) => Err(fault),
                None => Ok((kind, len)),
            }
        }
        Err(code) => Err(LexError { code, at: 0 }),
    }
}

/// The bytes behind blanks and comments.
fn after_gap(mut bytes: &[u8]) -> &[u8]
    ensures { result.now ≡ spec.after_gap false bytes.entry.now }
{
    let mut in_comment = false;
    while let [c, rest @ ..] = bytes {
        if in_comment {
            in_comment = *c != b'\n';
        } else if *c == b';' {
            in_comment = true;
        } else if !is_blank(*c) {
            return bytes;
        }
        bytes = rest;
    }
    bytes
}

fn is_blank(byte: u8) -> bool
    ensures { result ≡ is_blank byte }
{
    matches!(byte, b' ' | b'\t' | b'\n' | b'\r')
}
