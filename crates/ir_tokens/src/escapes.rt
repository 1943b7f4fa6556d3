//! The bytes that strings stand for.
ghost use Rattle.std.specs.Prelude.{◌≡◌, ◌<◌, ◌++◌, true, length, IfOk};
ghost use Rattle.std.specs.Char.{is_ascii_hexdigit, digit_value};
ghost use Rattle.ir_tokens.specs.Decoded as spec;
ghost use Rattle.ir_tokens.specs.Words.{same_text};
ghost use Rattle.ir_tokens.specs.code.Behind.{behind_one};

use crate::parts::between;
use ir_values::{Bytes, Memory};
use std::alloc::Global;

/// The bytes behind those that stand for one byte, where the first of these is `first`.
fn behind_one(first: u8, rest: &[u8]) -> &[u8]
    ensures { result.now ≡ behind_one first rest.now }
{
    if first != b'\\' {
        return rest;
    }
    match rest {
        [b'\\', more @ ..] => more,
        [high, low, more @ ..] if high.is_ascii_hexdigit() && low.is_ascii_hexdigit() => more,
        _ => rest,
    }
}

/// The value of a hexadecimal digit.
fn hexadecimal_value(digit: u8) -> u8
    requires { is_ascii_hexdigit digit ≡ true }
    ensures value { result ≡ digit_value digit }
    ensures small { result < 16 }
{
    match digit {
        b'0'..=b'9' => digit - b'0',
        b'A'..=b'F' => digit - b'A' + 10,
        _ => digit - b'a' + 10,
    }
}

/// The byte that an escape stands for, by what stands behind its `\`.
fn escaped(rest: &[u8]) -> u8
    ensures { result ≡ spec.escaped rest.now }
{
    match rest {
        [high, low, ..] if high.is_ascii_hexdigit() && low.is_ascii_hexdigit() => {
            hexadecimal_value(*high) * 16 + hexadecimal_value(*low)
        }
        _ => b'\\',
    }
}

/// The byte that these begin with, where the first of them is `first`.
fn decoded_byte(first: u8, rest: &[u8]) -> u8
    ensures { result ≡ spec.decoded_byte first rest.now }
{
    if first == b'\\' { escaped(rest) } else { first }
}

/// How many bytes these stand for.
#[tactic(auto, using(crate::proofs::Decoded::decoded_step, crate::proofs::Decoded::behind_length))]
pub(crate) fn decoded_length(mut bytes: &[u8]) -> usize
    ensures { result ≡ length (spec.decoded 0 bytes.entry.now) }
{
    let mut count = 0;
    while let [c, rest @ ..] = bytes {
        bytes = behind_one(*c, rest);
        count += 1;
    }
    count
}

/// The bytes that these stand for. [`Memory`] is the one error.
#[tactic(auto, using(crate::proofs::Decoded::decoded_step, crate::proofs::Decoded::behind_length))]
pub(crate) fn decode(alloc: Global, mut bytes: &[u8]) -> Result<Bytes, Memory>
    ensures { IfOk result (λ s. s ≡ spec.decoded 0 bytes.entry.now) }
{
    let mut decoded = Bytes::new(alloc);
    while let [c, rest @ ..] = bytes {
        decoded.push(decoded_byte(*c, rest))?;
        bytes = behind_one(*c, rest);
    }
    Ok(decoded)
}

/// Whether the bytes stand for the text.
#[tactic(auto, using(crate::proofs::Decoded::decoded_step, crate::proofs::Decoded::behind_length))]
fn stands_for(mut bytes: &[u8], mut text: &[u8]) -> bool
    ensures { result ≡ same_text (spec.decoded 0 bytes.entry.now) text.entry.now }
{
    while let [c, rest @ ..] = bytes {
        match text {
            [wanted, others @ ..] => {
                if decoded_byte(*c, rest) != *wanted {
                    return false;
                }
                text = others;
            }
            [] => return false,
        }
        bytes = behind_one(*c, rest);
    }
    text.is_empty()
}

/// Whether a name, written plainly or as a string, has the bytes of the text.
pub(crate) fn is_named(name: &[u8], text: &[u8]) -> bool
    ensures { result ≡ same_text (spec.name_bytes name.now) text.now }
{
    match name {
        [b'"', ..] => stands_for(between(name), text),
        _ => name == text,
    }
}

/// The bytes of a name, which is written plainly or as a string. [`Memory`] is the one error.
pub(crate) fn name_bytes(alloc: Global, name: &[u8]) -> Result<Bytes, Memory>
    ensures { IfOk result (λ s. s ≡ spec.name_bytes name.now) }
{
    match name {
        [b'"', ..] => decode(alloc, between(name)),
        _ => Bytes::from_slice(alloc, name),
    }
}
