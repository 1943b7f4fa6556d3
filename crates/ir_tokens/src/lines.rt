//! Lines and columns of places.
ghost use Rattle.std.specs.Prelude.{◌≡◌, ◌<◌, ◌≤◌, ◌+◌, ◌^◌, ◌-◌, length};
ghost use Rattle.ir_tokens.specs.Positions as spec;
ghost use Rattle.ir_tokens.specs.code.Moves.{moved};

use std::marker::Model;

/// A line of a text, counted from 1, and a column in it, counted from 1 in bytes. A line ends at an LF.
#[derive(Clone, Copy, Debug, PartialEq, Eq)]
pub struct Position {
    pub line: u32,
    pub column: u32,
}

/// The positions of places in a text, which contracts see as the bytes of the text. It goes on from the
/// place that was asked for last, so that places in ascending order cost one pass over the text in all.
#[derive(Drop)]
pub struct Lines<'a> {
    bytes: &'a [u8],
    /// A place, and its position.
    place: usize,
    position: Position,
}

impl<'a> Model for Lines<'a> {
    ghost use Rattle.std.specs.Prelude.{◌≡◌, ℕ, ◌≤◌, ◌<◌, ◌^◌, ◌-◌, List, length};
    ghost use Rattle.ir_tokens.specs.Positions.{position_of};

    ghost Value = { List ℕ };

    ghost view = { λ lines. lines.bytes.now };

    ghost invariant = { λ lines. (length lines.bytes.now < 2 ^ 32 - 1)
        × (lines.place ≤ length lines.bytes.now)
        × (lines.position ≡ position_of lines.bytes.now lines.place) };
}

impl<'a> Lines<'a> {
    /// The positions of places in a text of fewer than 2^32 - 1 bytes.
    #[tactic(auto, unfolding(crate::specs::Positions::position_of))]
    pub fn new(bytes: &'a [u8]) -> Lines<'a>
        requires { length bytes.now < 2 ^ 32 - 1 }
        ensures { result ≡ bytes.now }
    {
        Lines {
            bytes,
            place: 0,
            position: Position { line: 1, column: 1 },
        }
    }

    /// The position of a place, counted in bytes from 0. A place behind the end counts as the end.
    ///
    /// # Cost
    ///
    /// It goes over the bytes from the place that was asked for last; from the first byte on where
    /// that place is behind this one.
    #[tactic(auto, using(crate::proofs::Positions::position_on, crate::proofs::Positions::line_at_most, crate::proofs::Positions::column_at_most, crate::proofs::Positions::position_end))]
    pub fn position(&mut self, place: u32) -> Position
        ensures position { result ≡ spec.position_of self.old place }
        ensures text { self.new ≡ self.old }
    {
        let place = (place as usize).min(self.bytes.len());
        let (from, position) = self.start(place);
        let passed = self.bytes.split_at(place).0.split_at(from).1;
        self.position = moved(position, passed);
        self.place = place;
        self.position
    }

    /// A place no later than this one, and its position.
    #[tactic(auto, unfolding(crate::specs::Positions::position_of))]
    fn start(&self, place: usize) -> (usize, Position)
        ensures place { result.0 ≤ place }
        ensures position { result.1 ≡ spec.position_of self.now result.0 }
    {
        if self.place <= place {
            (self.place, self.position)
        } else {
            (0, Position { line: 1, column: 1 })
        }
    }
}

/// The position behind further bytes.
fn moved(from: Position, mut passed: &[u8]) -> Position
    requires line { from.line + length passed.now < 2 ^ 32 }
    requires column { from.column + length passed.now < 2 ^ 32 }
    ensures { result ≡ moved from passed.entry.now }
{
    let mut position = from;
    while let [c, rest @ ..] = passed {
        if *c == b'\n' {
            position.line += 1;
            position.column = 1;
        } else {
            position.column += 1;
        }
        passed = rest;
    }
    position
}
