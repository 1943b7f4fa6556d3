//! Numbers in decimal digits.
ghost use Rattle.std.specs.Prelude.{◌≡◌, ◌<◌, ◌^◌, ◌++◌, ℕ, decimal, IfSome, OnErr, OnOk};
ghost use Rattle.std.specs.Fmt.{signed_decimal};
ghost use Rattle.ir_values.specs.Decimals.{decimal_value};

use crate::Bytes;
use crate::memory::Memory;
use itoa::Buffer;

/// The number below 2^64 whose decimal digits the text is, without a sign and without a leading zero
/// before another digit. None exactly where there is no such number. It takes no memory.
pub fn parse_decimal(text: &[u8]) -> Option<u64>
    ensures value { result ≡ decimal_value text.now }
    ensures sound { IfSome result (λ n. text.now ≡ decimal n) }
    ensures complete { (n : ℕ) → n < 2 ^ 64 → text.now ≡ decimal n → result ≡ Some n }
{
    let Ok(digits) = str::from_utf8(text) else {
        return None;
    };
    let Ok(n) = digits.parse::<u64>() else {
        return None;
    };
    if Buffer::new().format(n).as_bytes() != text {
        return None;
    }
    Some(n)
}

/// Adds the decimal digits of `n` last. [`Memory`] leaves the text as it was.
pub fn push_decimal(text: &mut Bytes, n: u128) -> Result<(), Memory>
    ensures ok { OnOk result (text.new ≡ text.old ++ decimal n) }
    ensures err { OnErr result (text.new ≡ text.old) }
{
    let mut buffer = Buffer::new();
    text.extend_from_slice(buffer.format(n).as_bytes())
}

/// Adds the decimal digits of `n` last, behind a `-` where it is below zero. [`Memory`] leaves the text
/// as it was.
pub fn push_signed(text: &mut Bytes, n: i128) -> Result<(), Memory>
    ensures ok { OnOk result (text.new ≡ text.old ++ signed_decimal n) }
    ensures err { OnErr result (text.new ≡ text.old) }
{
    let mut buffer = Buffer::new();
    text.extend_from_slice(buffer.format(n).as_bytes())
}
