//! The kind and the number of a token, by its spelling.
ghost use Rattle.std.specs.Prelude.{◌≡◌};
ghost use Rattle.ir_text.specs.declared.tok.Tok.TheVariants as tok;
ghost use Rattle.ir_tokens.specs.Classified as spec;
ghost use Rattle.ir_tokens.specs.Decoded.{name_bytes};

use crate::digits::{is_width, number_in};
use crate::escapes::{decoded_length, is_named};
use crate::kind::Kind;
use crate::parts::{after_minus, behind_first, between, but_last};
use crate::words::word_kind;
use ir_text::Tok;

/// The kind of `i` and a number with which no integer of the code is wide.
fn other_width(number: u128) -> Kind
    ensures { result ≡ spec.other_width number }
{
    if 0 < number && number < 129 {
        Kind::OddWidth
    } else {
        Kind::LeftOutWord
    }
}

/// The kind of `i` and a number without zeros before it.
fn exact_width(number: u128) -> Kind
    ensures { result ≡ spec.exact_width number }
{
    match number {
        1 => Kind::I1,
        8 => Kind::I8,
        16 => Kind::I16,
        32 => Kind::I32,
        64 => Kind::I64,
        _ => other_width(number),
    }
}

/// The kind of `i` and a number with zeros before it.
fn padded_width(number: u128) -> Kind
    ensures { result ≡ spec.padded_width number }
{
    match number {
        1 | 8 | 16 | 32 | 64 => Kind::SameWidth,
        _ => other_width(number),
    }
}

/// The kind of `i` and these digits.
fn width_kind(digits: &[u8]) -> Kind
    ensures { result ≡ spec.width_kind digits.now }
{
    match digits {
        [b'0', ..] => padded_width(number_in(digits)),
        _ => exact_width(number_in(digits)),
    }
}

/// The kind of a word.
fn kind_of_word(word: &[u8]) -> Kind
    ensures { result ≡ spec.kind_of_word word.now }
{
    if is_width(word) {
        width_kind(behind_first(word))
    } else {
        word_kind(word)
    }
}

/// The kind of a local, by its name.
fn local_kind(name: &[u8]) -> Kind
    ensures { result ≡ spec.local_kind (name_bytes name.now) }
{
    if is_named(name, b"Qubit") {
        Kind::QubitName
    } else if is_named(name, b"Result") {
        Kind::ResultName
    } else {
        Kind::Local
    }
}

/// The kind of an integer.
fn integer_kind(spelling: &[u8]) -> Kind
    ensures { result ≡ spec.integer_kind spelling.now }
{
    match spelling {
        [b'-', ..] => Kind::Minus,
        _ => Kind::Nat,
    }
}

/// The kind of what stands behind a `!`.
fn metadata_kind(name: &[u8]) -> Kind
    ensures { result ≡ spec.metadata_kind name.now }
{
    match name {
        [] => Kind::Bang,
        [b'0'..=b'9', ..] => Kind::Node,
        _ => Kind::MetaName,
    }
}

/// The kind of a sign.
fn sign_kind(sign: &[u8]) -> Kind
    ensures { result ≡ spec.sign_kind sign.now }
{
    match sign {
        [] => Kind::Bad,
        [b'=', ..] => Kind::Equals,
        [b',', ..] => Kind::Comma,
        [b'(', ..] => Kind::Open,
        [b')', ..] => Kind::Close,
        [b'[', ..] => Kind::OpenSquare,
        [b']', ..] => Kind::CloseSquare,
        [b'{', ..] => Kind::OpenBrace,
        [b'}', ..] => Kind::CloseBrace,
        [b'*', ..] => Kind::Star,
        [b'<', ..] => Kind::Less,
        [b'>', ..] => Kind::Greater,
        _ => Kind::Dots,
    }
}

/// The kind of a token, by its spelling.
pub(crate) fn kind_of(kind: Tok, spelling: &[u8]) -> Kind
    ensures { result ≡ spec.kind_of kind spelling.now }
{
    match kind {
        Tok::Word => kind_of_word(spelling),
        Tok::Label => Kind::Label,
        Tok::Local => local_kind(behind_first(spelling)),
        Tok::Global => Kind::Global,
        Tok::Integer => integer_kind(spelling),
        Tok::Double => Kind::DoubleLiteral,
        Tok::Str => Kind::Str,
        Tok::ByteStr => Kind::ByteStr,
        Tok::Group => Kind::Group,
        Tok::Metadata => metadata_kind(behind_first(spelling)),
        Tok::Sign => sign_kind(spelling),
        Tok::End => Kind::End,
    }
}

/// The number of a token, by its spelling.
pub(crate) fn number_of(kind: Tok, spelling: &[u8]) -> u128
    ensures { result ≡ spec.number_of kind spelling.now }
{
    match kind {
        Tok::Word => word_number(spelling),
        Tok::Label => number_in(but_last(spelling)),
        Tok::Local | Tok::Global | Tok::Group | Tok::Metadata => number_in(behind_first(spelling)),
        Tok::Integer => number_in(after_minus(spelling)),
        Tok::Str => decoded_length(between(spelling)) as u128,
        Tok::ByteStr => decoded_length(between(behind_first(spelling))) as u128,
        Tok::Double | Tok::Sign | Tok::End => 0,
    }
}

/// The width that a word names, and 0 where it names none.
fn word_number(word: &[u8]) -> u128
    ensures { result ≡ spec.number_of tok.Word word.now }
{
    if is_width(word) {
        number_in(behind_first(word))
    } else {
        0
    }
}
