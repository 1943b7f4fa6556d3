//! The side rules of tokens.
ghost use Rattle.std.specs.Prelude.{◌≡◌, ◌≤◌, ◌^◌, IfSome, None};
ghost use Rattle.ir_grammar.specs.SideRules as spec;

use grammar::{SideRule, Terminal};
use ir_tokens::{Kind, Rule, Token};

/// The rule, unless the test holds.
fn unless(holds: bool, rule: Rule) -> Option<Rule>
    ensures { result ≡ spec.unless holds rule }
{
    if holds { None } else { Some(rule) }
}

/// The number of a name, group or node is at most 4,294,967,295.
pub struct Numbered;

impl SideRule<Token> for Numbered {
    ghost broken = { λ _. spec.numbered };

    fn broken_by(&self, token: &Token) -> Option<Rule> {
        unless(token.number.value() < 0x1_0000_0000, Rule::LiteralRange)
    }
}

/// A number is this one.
#[derive(Drop)]
pub struct SameNumber {
    /// The number that is wanted.
    pub number: u128,
}

impl SideRule<Token> for SameNumber {
    ghost broken = { λ s. spec.same_number s.number };

    fn broken_by(&self, token: &Token) -> Option<Rule> {
        unless(self.number == token.number.value(), Rule::Syntax)
    }
}

/// A string has so many bytes.
#[derive(Drop)]
pub struct SoLong {
    /// How many bytes are wanted.
    pub bytes: u128,
}

impl SideRule<Token> for SoLong {
    ghost broken = { λ s. spec.so_long s.bytes };

    fn broken_by(&self, token: &Token) -> Option<Rule> {
        unless(self.bytes == token.number.value(), Rule::StringLength)
    }
}

/// An integer lies from -2^(width - 1) to 2^width - 1.
#[derive(Drop)]
pub struct InRange {
    /// The width in bits.
    pub width: u128,
}

impl SideRule<Token> for InRange {
    ghost broken = { λ i. spec.in_range i.width };

    fn broken_by(&self, token: &Token) -> Option<Rule> {
        let negative = is_negative(token.kind);
        unless(
            fits(self.width, negative, token.number.value()),
            Rule::LiteralRange,
        )
    }
}

/// Whether an integer of the kind has a `-`.
pub fn is_negative(kind: Kind) -> bool
    ensures { result ≡ spec.is_negative kind }
{
    match kind {
        Kind::Minus => true,
        _ => false,
    }
}

/// 2 to the power of `bits`, or None where that is 2^128 or more.
#[tactic(auto, using(crate::proofs::Powers::large))]
fn power(bits: u128) -> Option<u128>
    ensures exact { IfSome result (λ n. n ≡ 2 ^ bits) }
    ensures large { result ≡ None → 2 ^ 128 ≤ 2 ^ bits }
{
    if bits < 128 {
        2u128.checked_pow(bits as u32)
    } else {
        None
    }
}

/// Whether an integer of the sign and the magnitude lies in the range of the width.
fn fits(width: u128, negative: bool, magnitude: u128) -> bool
    ensures { result ≡ spec.fits width negative magnitude }
{
    if negative {
        match power(width.saturating_sub(1)) {
            Some(limit) => magnitude <= limit,
            None => true,
        }
    } else {
        match power(width) {
            Some(limit) => magnitude < limit,
            None => true,
        }
    }
}
