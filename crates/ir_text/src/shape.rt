//! Where the token ends that a text begins with.
ghost use Rattle.std.specs.Prelude.{◌≡◌, true, false};
ghost use Rattle.ir_text.specs.Forms.{is_sign};
ghost use Rattle.ir_text.specs.code.LabelFree.{behind_label_free, ends_label};
ghost use Rattle.ir_text.specs.code.Scan as scan;
ghost use Rattle.ir_text.specs.code.Scan.{Gives};

use crate::class::Class;
use crate::number::number;
use crate::tok::{LexCode, Tok};

/// The kind of the token that the bytes begin with, and the bytes behind it, whatever its escapes
/// and its magnitude are. Where `label_free` is true, the bytes of names that come first end in no label.
pub(crate) fn shape(bytes: &[u8], label_free: bool) -> Result<(Tok, &[u8]), LexCode>
    requires { label_free ≡ true → ends_label bytes.now ≡ false }
    ensures { Gives (λ found. (found.0, found.1.now)) result (scan.shape bytes.now) }
{
    match bytes {
        [] => Ok((Tok::End, bytes)),
        [b'"', inside @ ..] => string_or_label(inside),
        [b'%', name @ ..] => Ok((Tok::Local, behind_identifier(name)?)),
        [b'@', name @ ..] => Ok((Tok::Global, behind_identifier(name)?)),
        [b'#', digits @ ..] => Ok((Tok::Group, behind_digits(digits)?)),
        [b'!', name @ ..] => Ok((Tok::Metadata, behind_metadata(name))),
        [c, more @ ..] if is_sign(*c) => Ok((Tok::Sign, more)),
        [..] => bytes_or_plain(bytes, label_free),
    }
}

/// The bytes behind those of names that come first; all of them where these are a label.
pub(crate) fn behind_label_free(bytes: &[u8]) -> &[u8]
    ensures { result.now ≡ behind_label_free bytes.now }
{
    match Class::Name.after(bytes) {
        [b':', ..] => bytes,
        behind => behind,
    }
}

/// Whether the byte alone is a sign.
fn is_sign(byte: u8) -> bool
    ensures { result ≡ is_sign byte }
{
    matches!(
        byte,
        b'=' | b',' | b'(' | b')' | b'[' | b']' | b'{' | b'}' | b'*' | b'<' | b'>'
    )
}

/// The bytes behind a string, of which the opening quote stands before these bytes.
fn behind_string(inside: &[u8]) -> Result<&[u8], LexCode>
    ensures { Gives (λ more. more.now) result (scan.behind_string inside.now) }
{
    match Class::Text.after(inside) {
        [_, more @ ..] => Ok(more),
        [] => Err(LexCode::OpenString),
    }
}

/// A label where a `:` follows the string, else a string.
fn string_or_label(inside: &[u8]) -> Result<(Tok, &[u8]), LexCode>
    ensures { Gives (λ found. (found.0, found.1.now)) result
        (scan.string_or_label (scan.behind_string inside.now)) }
{
    match behind_string(inside)? {
        [b':', more @ ..] => Ok((Tok::Label, more)),
        more => Ok((Tok::Str, more)),
    }
}

/// The bytes behind digits.
pub(crate) fn behind_digits(bytes: &[u8]) -> Result<&[u8], LexCode>
    ensures { Gives (λ more. more.now) result (scan.behind_digits bytes.now) }
{
    match bytes {
        [b'0'..=b'9', ..] => Ok(Class::Digit.after(bytes)),
        _ => Err(LexCode::BadByte),
    }
}

/// The bytes behind what names a local or a global.
fn behind_identifier(bytes: &[u8]) -> Result<&[u8], LexCode>
    ensures { Gives (λ more. more.now) result (scan.behind_identifier bytes.now) }
{
    match bytes {
        [b'"', inside @ ..] => behind_string(inside),
        [c, ..] if Class::Digit.has(*c) => Ok(Class::Digit.after(bytes)),
        [c, ..] if Class::Name.has(*c) => Ok(Class::Name.after(bytes)),
        _ => Err(LexCode::BadByte),
    }
}

/// The bytes behind the digits or the name of metadata, of which there may be none.
fn behind_metadata(bytes: &[u8]) -> &[u8]
    ensures { result.now ≡ scan.behind_metadata bytes.now }
{
    match bytes {
        [c, ..] if Class::Digit.has(*c) => Class::Digit.after(bytes),
        _ => Class::Name.after(bytes),
    }
}

/// A byte string, or the token where no quote, sigil or sign comes first.
fn bytes_or_plain(bytes: &[u8], label_free: bool) -> Result<(Tok, &[u8]), LexCode>
    requires { label_free ≡ true → ends_label bytes.now ≡ false }
    ensures { Gives (λ found. (found.0, found.1.now)) result (scan.bytes_or_plain bytes.now) }
{
    match bytes {
        [b'c', b'"', inside @ ..] => Ok((Tok::ByteStr, behind_string(inside)?)),
        _ => plain(bytes, label_free),
    }
}

/// The token where no quote, sigil or sign comes first, and no byte string.
#[tactic(auto, using(crate::proofs::LabelFree::label_free))]
fn plain(bytes: &[u8], label_free: bool) -> Result<(Tok, &[u8]), LexCode>
    requires { label_free ≡ true → ends_label bytes.now ≡ false }
    ensures { Gives (λ found. (found.0, found.1.now)) result (scan.plain bytes.now) }
{
    match bytes {
        [c, ..] if label_free && Class::Name.has(*c) => unlabelled(bytes),
        [c, ..] if Class::Name.has(*c) => match Class::Name.after(bytes) {
            [b':', behind @ ..] => Ok((Tok::Label, behind)),
            _ => unlabelled(bytes),
        },
        [b'+', ..] => number(bytes),
        _ => Err(LexCode::BadByte),
    }
}

/// The token where a byte of a name comes first, and no label.
fn unlabelled(bytes: &[u8]) -> Result<(Tok, &[u8]), LexCode>
    ensures { Gives (λ found. (found.0, found.1.now)) result (scan.unlabelled bytes.now) }
{
    match bytes {
        [b'.', b'.', b'.', more @ ..] => Ok((Tok::Sign, more)),
        [b'a'..=b'z' | b'A'..=b'Z' | b'_', ..] => Ok((Tok::Word, Class::Word.after(bytes))),
        _ => number(bytes),
    }
}
