//! Tokens.
ghost use Rattle.ir_tokens.specs.code.Kinds.{code, told_apart};

use crate::kind::Kind;
use crate::number::Number;
use crate::rule::Rule;
use grammar::Terminal;

/// A token of a text. It has 24 bytes: the bytes that spell it are found again by its place.
#[derive(Clone, Copy)]
pub struct Token {
    pub kind: Kind,
    /// Its first byte in the text, counted from 0.
    pub place: u32,
    /// The magnitude of an integer, exactly. The number of a local, global, label, group or node that is
    /// named by digits alone, and the width of an `i` with digits; one of 2^128 or more counts as
    /// 2^128 - 1. How many bytes a string or byte string stands for. Otherwise 0.
    pub number: Number,
}

impl Terminal for Token {
    type Kind = Kind;

    type Rule = Rule;

    ghost kind = { λ t. t.kind };

    ghost code = { code };

    fn is(&self, wanted: Kind) -> bool {
        wanted.number() == self.kind.number()
    }

    ghost told_apart = { told_apart };
}
