//! Where the spelling of a double ends (LLVM Language Reference, 'Simple Constants').
ghost use Rattle.std.specs.Prelude.{◌≡◌};
ghost use Rattle.std.specs.Char.{is_ascii_hexdigit};
ghost use Rattle.std.specs.List.{list_all};
ghost use Rattle.ir_values.specs.Double as spec;
ghost use Rattle.ir_values.specs.code.Double as front;
ghost use Rattle.ir_values.specs.code.Double.{GivesSome};

/// Whether the bytes spell a double: an optional sign, digits, a point, digits or none, and an
/// optional exponent; or `0x` and sixteen hexadecimal digits. It takes no memory.
pub fn is_double(bytes: &[u8]) -> bool
    ensures { result ≡ spec.is_double bytes.now }
{
    match behind_double(bytes) {
        Some(more) => more.is_empty(),
        None => false,
    }
}

/// The bytes behind the longest double that the bytes begin with. None exactly where they begin
/// with none. It takes no memory.
pub fn behind_double(bytes: &[u8]) -> Option<&[u8]>
    ensures { GivesSome (λ more. more.now) result (front.behind_double bytes.now) }
{
    match bytes {
        [b'0', b'x', digits @ ..] => behind_sixteen(digits),
        _ => behind_decimal(bytes),
    }
}

/// The bytes behind sixteen hexadecimal digits.
fn behind_sixteen(digits: &[u8]) -> Option<&[u8]>
    ensures { GivesSome (λ more. more.now) result (front.behind_sixteen digits.now) }
{
    if digits.len() < 16 {
        return None;
    }
    let (sixteen, more) = digits.split_at(16);
    if all_hex(sixteen) { Some(more) } else { None }
}

fn all_hex(mut digits: &[u8]) -> bool
    ensures { result ≡ list_all is_ascii_hexdigit digits.entry.now }
{
    while let [c, rest @ ..] = digits {
        if !c.is_ascii_hexdigit() {
            return false;
        }
        digits = rest;
    }
    true
}

/// The bytes behind a sign or none, digits, a `.`, digits or none, and an exponent or none.
fn behind_decimal(bytes: &[u8]) -> Option<&[u8]>
    ensures { GivesSome (λ more. more.now) result (front.behind_decimal bytes.now) }
{
    let whole = after_sign(bytes);
    if !begins_with_digit(whole) {
        return None;
    }
    match after_digits(whole) {
        [b'.', fraction @ ..] => Some(behind_exponent(after_digits(fraction))),
        _ => None,
    }
}

/// The bytes behind an exponent, or all of them where there's none.
fn behind_exponent(bytes: &[u8]) -> &[u8]
    ensures { result.now ≡ front.behind_exponent bytes.now }
{
    match bytes {
        [b'e' | b'E', power @ ..] if begins_with_digit(after_sign(power)) => {
            after_digits(after_sign(power))
        }
        _ => bytes,
    }
}

/// Whether the first byte is a decimal digit.
fn begins_with_digit(bytes: &[u8]) -> bool
    ensures { result ≡ spec.begins_with_digit bytes.now }
{
    match bytes {
        [c, ..] => c.is_ascii_digit(),
        [] => false,
    }
}

/// The bytes behind a `+` or a `-`, and all where there is none.
fn after_sign(bytes: &[u8]) -> &[u8]
    ensures { result.now ≡ spec.after_sign bytes.now }
{
    match bytes {
        [b'+' | b'-', rest @ ..] => rest,
        _ => bytes,
    }
}

/// The bytes behind the leading decimal digits.
fn after_digits(mut bytes: &[u8]) -> &[u8]
    ensures { result.now ≡ spec.after_digits bytes.entry.now }
{
    while let [c, rest @ ..] = bytes {
        if !c.is_ascii_digit() {
            return bytes;
        }
        bytes = rest;
    }
    bytes
}
