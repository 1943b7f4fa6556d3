//! Numbers of 128 bits in two halves.
ghost use Rattle.std.specs.Prelude.{◌≡◌};
ghost use Rattle.ir_tokens.specs.Numbers.{halves, value_of};

/// A number below 2^128. Its halves are apart so that it needs no more than the alignment of a `u64`,
/// and a token has 24 bytes.
#[derive(Clone, Copy)]
pub struct Number {
    /// How often it has 2^64.
    pub high: u64,
    /// What is left.
    pub low: u64,
}

/// What one in the high half counts.
const BASE: u128 = 1 << 64;

impl Number {
    /// The halves of a number.
    pub fn of(value: u128) -> Number
        ensures halves { result ≡ halves value }
        ensures value { value_of result ≡ value }
    {
        Number {
            high: (value / BASE) as u64,
            low: (value % BASE) as u64,
        }
    }

    /// The number, from 0 to 2^128 - 1.
    pub fn value(self) -> u128
        ensures { result ≡ value_of self }
    {
        u128::from(self.high) * BASE + u128::from(self.low)
    }
}
