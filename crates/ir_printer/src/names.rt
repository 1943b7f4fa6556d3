//! Names and strings.
ghost use Rattle.std.specs.Prelude.{◌≡◌, ◌<◌, ◌++◌, true, OnOk};
ghost use Rattle.std.specs.Char.{is_ascii_digit};
ghost use Rattle.std.specs.Fmt.{digit_glyph};
ghost use Rattle.std.specs.List.{list_all};
ghost use Rattle.ir_text.specs.Forms as form;
ghost use Rattle.ir_printer.specs.Spellings as spec;

use crate::writer::Writer;
use ir_values::{Memory, Name};

impl Writer {
    /// Adds a name as it stands behind its `%` or `@`: plain where it may be, else between quotes.
    pub(crate) fn name(&mut self, name: &Name) -> Result<(), Memory>
        ensures { OnOk result (self.new ≡ self.old ++ spec.name_spelling name.now) }
    {
        match name {
            Name::Text(bytes) => {
                if is_name(bytes.as_slice()) {
                    self.write(bytes.as_slice())
                } else {
                    self.quoted(bytes.as_slice())
                }
            }
            Name::Number(n) => self.number(u128::from(*n)),
        }
    }

    /// Adds a label with its `:`.
    pub(crate) fn label(&mut self, name: &Name) -> Result<(), Memory>
        ensures { OnOk result (self.new ≡ self.old ++ spec.label_spelling name.now) }
    {
        match name {
            Name::Text(bytes) => {
                if is_bare_label(bytes.as_slice()) {
                    self.write(bytes.as_slice())?;
                } else {
                    self.quoted(bytes.as_slice())?;
                }
            }
            Name::Number(n) => self.number(u128::from(*n))?,
        }
        self.byte(b':')
    }

    /// Adds bytes between quotes.
    pub(crate) fn quoted(&mut self, bytes: &[u8]) -> Result<(), Memory>
        ensures { OnOk result (self.new ≡ self.old ++ spec.quoted bytes.now) }
    {
        self.byte(b'"')?;
        self.escaped(bytes)?;
        self.byte(b'"')
    }

    fn escaped(&mut self, mut bytes: &[u8]) -> Result<(), Memory>
        ensures { OnOk result (self.new ≡ self.old ++ spec.escaped bytes.entry.now) }
    {
        while let [byte, rest @ ..] = bytes {
            self.escape(*byte)?;
            bytes = rest;
        }
        Ok(())
    }

    /// Adds a byte as it stands between quotes.
    fn escape(&mut self, byte: u8) -> Result<(), Memory>
        ensures { OnOk result (self.new ≡ self.old ++ spec.escape byte) }
    {
        if stands(byte) {
            self.byte(byte)
        } else {
            self.byte(b'\\')?;
            self.byte(hex_digit(byte / 16))?;
            self.byte(hex_digit(byte % 16))
        }
    }
}

/// Whether a byte stands for itself between quotes.
fn stands(byte: u8) -> bool
    ensures { result ≡ spec.stands byte }
{
    (b' '..=b'~').contains(&byte) && byte != b'"' && byte != b'\\'
}

/// An upper-case hexadecimal digit.
fn hex_digit(digit: u8) -> u8
    requires { digit < 16 }
    ensures { result ≡ digit_glyph true digit }
{
    if digit < 10 {
        b'0' + digit
    } else {
        b'A' + (digit - 10)
    }
}

/// Whether the bytes are a plain name.
fn is_name(bytes: &[u8]) -> bool
    ensures { result ≡ form.is_name bytes.now }
{
    match bytes {
        [first, rest @ ..] => in_name(*first) && !first.is_ascii_digit() && all_in_name(rest),
        [] => false,
    }
}

/// Whether the bytes are a plain label that is no number.
fn is_bare_label(bytes: &[u8]) -> bool
    ensures { result ≡ spec.is_bare_label bytes.now }
{
    !bytes.is_empty() && all_in_name(bytes) && !all_digits(bytes)
}

fn all_in_name(bytes: &[u8]) -> bool
    ensures { result ≡ list_all form.in_name bytes.now }
{
    bytes.iter().all(|byte| in_name(*byte))
}

fn all_digits(bytes: &[u8]) -> bool
    ensures { result ≡ list_all is_ascii_digit bytes.now }
{
    bytes.iter().all(|byte| byte.is_ascii_digit())
}

/// Whether a byte may stand in a plain name.
fn in_name(byte: u8) -> bool
    ensures { result ≡ form.in_name byte }
{
    byte.is_ascii_alphanumeric() || matches!(byte, b'-' | b'$' | b'.' | b'_')
}
