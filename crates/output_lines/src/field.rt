//! What stands in the fields of lines.
ghost use Rattle.std.specs.Prelude.{◌≡◌, ◌++◌, OnOk};
ghost use Rattle.output_lines.specs.Fields as spec;

use ir_values::{Bytes, Memory};
use std::alloc::Global;

/// The byte 0x7f.
const DELETE: u8 = 0x7f;

/// Whether a byte stands for itself in a field: it is no control character and no backslash.
fn stands(byte: u8) -> bool
    ensures { result ≡ spec.stands byte }
{
    !(byte < b' ') && byte != DELETE && byte != b'\\'
}

/// Adds a byte as it stands in a field.
fn push_escape(alloc: Global, text: &mut Bytes, byte: u8) -> Result<(), Memory>
    ensures { OnOk result (text.new ≡ text.old ++ spec.escape byte) }
{
    if stands(byte) {
        text.push(byte)
    } else {
        let digits = hex::encode_upper(alloc, &[byte])?;
        text.push(b'\\')?;
        text.extend_from_slice(digits.as_bytes())
    }
}

/// Adds bytes as they stand in a field.
pub(crate) fn push_escaped(alloc: Global, text: &mut Bytes, mut bytes: &[u8]) -> Result<(), Memory>
    ensures { OnOk result (text.new ≡ text.old ++ spec.escaped bytes.entry.now) }
{
    while let [byte, rest @ ..] = bytes {
        push_escape(alloc, text, *byte)?;
        bytes = rest;
    }
    Ok(())
}

/// Adds the bytes of a label, up to the first zero byte.
pub(crate) fn push_label(alloc: Global, text: &mut Bytes, mut bytes: &[u8]) -> Result<(), Memory>
    ensures { OnOk result (text.new ≡ text.old ++ spec.escaped (spec.before_zero bytes.entry.now)) }
{
    while let [byte, rest @ ..] = bytes {
        if *byte == 0 {
            return Ok(());
        }
        push_escape(alloc, text, *byte)?;
        bytes = rest;
    }
    Ok(())
}

/// The digit of a bit.
pub(crate) fn digit(bit: bool) -> &'static [u8]
    ensures { result.now ≡ spec.digit bit }
{
    if bit { b"1" } else { b"0" }
}

/// The word of a truth value.
pub(crate) fn word(truth: bool) -> &'static [u8]
    ensures { result.now ≡ spec.word truth }
{
    if truth { b"true" } else { b"false" }
}
