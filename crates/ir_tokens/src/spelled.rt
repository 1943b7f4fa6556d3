//! What a token spells, by its place in the text.
ghost use Rattle.std.specs.Prelude.{◌≡◌, IfOk};
ghost use Rattle.ir_tokens.specs.Spelled as spec;

use crate::digits::{is_digits, number_in};
use crate::escapes::{decode, name_bytes};
use crate::kind::Kind;
use crate::parts::{behind_first, between, but_last};
use crate::text::slice;
use crate::token::Token;
use ir_text::next_token;
use ir_values::{Bytes, Memory, Name};
use std::alloc::Global;

/// The bytes that spell the next token from a place of the text on, counted in bytes from 0: that of a token
/// gives its own spelling. None where a fault or the end comes. It takes no memory.
#[tactic(auto, unfolding(crate::specs::Spelled::spelling_at))]
pub fn spelling(bytes: &[u8], place: u32) -> &[u8]
    ensures { result.now ≡ spec.spelling_at bytes.now place }
{
    let place = place as usize;
    if bytes.len() < place {
        return bytes.split_at(0).0;
    }
    match next_token(bytes, place) {
        Ok((_, span)) => slice(bytes, span),
        Err(_) => bytes.split_at(0).0,
    }
}

/// The name that a token of the text spells, a label, a local, a global, a group or a node: a number
/// where it is written in digits, at most 4,294,967,295, else the text that its bytes stand for. So
/// `%a` and `%"a"` spell one name, and `%1` and `%"1"` two (LLVM Language Reference, 'Identifiers').
/// [`Memory`] is the one error.
#[tactic(auto, unfolding(crate::specs::Spelled::name_at))]
pub fn name_at(alloc: Global, bytes: &[u8], token: Token) -> Result<Name, Memory>
    ensures { IfOk result (λ name. name ≡ spec.name_at bytes.now token) }
{
    name_of(alloc, name_part(token.kind, spelling(bytes, token.place)))
}

/// The bytes that a token of the text stands for, a string or a byte string: an escape is one byte
/// (LLVM Language Reference, 'Identifiers'). [`Memory`] is the one error.
#[tactic(auto, unfolding(crate::specs::Spelled::string_at))]
pub fn string_at(alloc: Global, bytes: &[u8], token: Token) -> Result<Bytes, Memory>
    ensures { IfOk result (λ string. string ≡ spec.string_at bytes.now token) }
{
    decode(
        alloc,
        between(string_part(token.kind, spelling(bytes, token.place))),
    )
}

/// The name in the spelling of a token.
fn name_part(kind: Kind, spelling: &[u8]) -> &[u8]
    ensures { result.now ≡ spec.name_part kind spelling.now }
{
    match kind {
        Kind::Label => but_last(spelling),
        _ => behind_first(spelling),
    }
}

/// The string in the spelling of a token.
fn string_part(kind: Kind, spelling: &[u8]) -> &[u8]
    ensures { result.now ≡ spec.string_part kind spelling.now }
{
    match kind {
        Kind::ByteStr => behind_first(spelling),
        _ => spelling,
    }
}

/// The name that the bytes write.
fn name_of(alloc: Global, name: &[u8]) -> Result<Name, Memory>
    ensures { IfOk result (λ n. n ≡ spec.name_of name.now) }
{
    if is_digits(name) {
        return Ok(Name::Number(number_in(name).min(0xffff_ffff) as u32));
    }
    Ok(Name::Text(name_bytes(alloc, name)?))
}
