//! Reading all of the tokens.
ghost use Rattle.std.specs.Prelude.{◌≡◌, ◌≤◌, ◌-◌, Err, false, length};
ghost use Rattle.grammar.specs.Answers.{Answers};
ghost use Rattle.grammar.specs.code.Gives.{Fails};
ghost use Rattle.grammar.specs.code.Reading.{read};
ghost use Rattle.grammar.specs.declared.whole.Refusal.TheVariants.{Refused};

use crate::cursor::{Cursor, Halt};
use crate::fault::Fault;
use crate::part::Part;
use std::alloc::Global;

/// What a list of tokens is refused for.
#[derive(Debug, Drop)]
pub enum Refusal<R> {
    /// There is no memory left.
    NoMemory,
    /// The first fault, and how many tokens stand before it.
    Refused(Fault<R>, usize),
}

/// Reads all of the tokens: what they stand for, or their first fault.
pub fn read_all<P: Part>(
    alloc: Global,
    part: &P,
    tokens: &[P::Token],
) -> Result<P::Item, Refusal<P::Rule>>
    ensures { Answers (P.grammar part.now) tokens.now result }
{
    let mut cursor = Cursor {
        rest: tokens,
        marked: false,
    };
    match part.read(alloc, &mut cursor) {
        Err(halt) => Err(refused_for(part, halt, tokens)),
        Ok(item) => {
            if cursor.rest.is_empty() {
                return Ok(item);
            }
            Err(refused(Fault::Unexpected(cursor.marked), cursor.rest, tokens))
        }
    }
}

/// What the tokens are refused for where reading gave up.
fn refused_for<P: Part>(
    part: &P,
    halt: Halt<'_, P::Token, P::Rule>,
    tokens: &[P::Token],
) -> Refusal<P::Rule>
    requires { Fails halt (read (P.grammar part.now) false tokens.now) }
    ensures { Answers (P.grammar part.now) tokens.now (Err result) }
{
    let _ = part;
    match halt {
        Halt::Memory => Refusal::NoMemory,
        Halt::At(fault, rest) => refused(fault, rest, tokens),
    }
}

/// The fault at the front of the rest.
fn refused<T, R>(fault: Fault<R>, rest: &[T], tokens: &[T]) -> Refusal<R>
    requires { length rest.now ≤ length tokens.now }
    ensures { result ≡ Refused fault (length tokens.now - length rest.now) }
{
    Refusal::Refused(fault, tokens.len() - rest.len())
}
