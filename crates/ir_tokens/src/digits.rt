//! Numbers that texts write in digits.
ghost use Rattle.std.specs.Prelude.{◌≡◌, true};
ghost use Rattle.std.specs.Char.{is_ascii_digit};
ghost use Rattle.std.specs.List.{list_all};
ghost use Rattle.std.specs.Str.Parse.{digits_value};
ghost use Rattle.ir_text.specs.Forms as form;
ghost use Rattle.ir_tokens.specs.Classified as spec;
ghost use Rattle.ir_tokens.specs.Numbers.{capped, number_in};

/// Whether there are digits and nothing else.
pub(crate) fn is_digits(bytes: &[u8]) -> bool
    ensures { result ≡ form.is_digits bytes.now }
{
    match bytes {
        [c, rest @ ..] => c.is_ascii_digit() && are_digits(rest),
        [] => false,
    }
}

/// Whether there is nothing but digits.
fn are_digits(mut bytes: &[u8]) -> bool
    ensures { result ≡ list_all is_ascii_digit bytes.entry.now }
{
    while let [c, rest @ ..] = bytes {
        if !c.is_ascii_digit() {
            return false;
        }
        bytes = rest;
    }
    true
}

/// The number that the bytes write in digits, at most 2^128 - 1; 0 where there are none, or other bytes
/// among them.
pub(crate) fn number_in(bytes: &[u8]) -> u128
    ensures { result ≡ number_in bytes.now }
{
    if is_digits(bytes) {
        digits_value(bytes)
    } else {
        0
    }
}

/// The number that the digits write, at most 2^128 - 1.
#[tactic(auto, using(crate::proofs::Values::capped_more, crate::proofs::Values::capped_below))]
fn digits_value(mut digits: &[u8]) -> u128
    requires { list_all is_ascii_digit digits.now ≡ true }
    ensures { result ≡ capped (digits_value 10 digits.entry.now) }
{
    let mut value = 0u128;
    while let [c, rest @ ..] = digits {
        let digit = u128::from(*c - b'0');
        match value
            .checked_mul(10)
            .and_then(|tens| tens.checked_add(digit))
        {
            Some(more) => value = more,
            None => return u128::MAX,
        }
        digits = rest;
    }
    value
}

/// Whether a word is an `i` and digits.
pub(crate) fn is_width(word: &[u8]) -> bool
    ensures { result ≡ spec.is_width word.now }
{
    match word {
        [b'i', digits @ ..] => is_digits(digits),
        _ => false,
    }
}
