//! The lines of a trace.
ghost use Rattle.std.specs.Prelude.{◌≡◌, ◌++◌, ◌∷◌, OnOk, decimal};
ghost use Rattle.output_lines.specs.TraceLines as spec;

use crate::field::{digit, word};
use crate::line::Line;
use backend_api::{Answer, Arg, Event, QubitRef, ResultRef};
use ir_values::{Bytes, Int, Memory, Width, push_decimal, push_signed};
use std::alloc::Global;

/// Events are told alike in every trace.
#[derive(Clone, Copy)]
pub(crate) struct Trace;

impl Line<Trace> for Event {
    ghost line_of = { λ context event. spec.event_line event };

    fn line(&self, alloc: Global, _context: &Trace) -> Result<Bytes, Memory> {
        let mut text = Bytes::new(alloc);
        push_answer(&mut text, self.answer)?;
        text.extend_from_slice(self.op.name.as_slice())?;
        push_arguments(&mut text, self.op.args.as_slice())?;
        text.push(b'\n')?;
        Ok(text)
    }
}

/// Adds what was answered, up to the operation's name.
fn push_answer(text: &mut Bytes, answer: Answer) -> Result<(), Memory>
    ensures { OnOk result (text.new ≡ text.old ++ spec.answer_text answer) }
{
    match answer {
        Answer::Done => text.extend_from_slice(b"GATE\t"),
        Answer::Bit(bit) => {
            text.extend_from_slice(b"BIT\t")?;
            text.extend_from_slice(digit(bit))?;
            text.push(b'\t')
        }
    }
}

/// Adds a field for each argument.
fn push_arguments(text: &mut Bytes, mut args: &[Arg]) -> Result<(), Memory>
    ensures { OnOk result (text.new ≡ text.old ++ spec.argument_fields args.entry.now) }
{
    while let [argument, rest @ ..] = args {
        text.push(b'\t')?;
        push_argument(text, argument)?;
        args = rest;
    }
    Ok(())
}

fn push_argument(text: &mut Bytes, argument: &Arg) -> Result<(), Memory>
    ensures { OnOk result (text.new ≡ text.old ++ spec.argument_text argument.now) }
{
    match argument {
        Arg::Qubit(QubitRef::Id(number)) => push_handle(text, b'q', *number),
        Arg::Qubit(QubitRef::Alloc(number)) => push_handle(text, b'a', *number),
        Arg::Res(ResultRef::Id(number)) => push_handle(text, b'r', *number),
        Arg::Res(ResultRef::Measured(number)) => push_handle(text, b'm', *number),
        Arg::Double(token) => text.extend_from_slice(token.as_slice()),
        Arg::Int(int) => push_int(text, int),
    }
}

/// Adds a handle: the letter of its kind, and its number.
fn push_handle(text: &mut Bytes, letter: u8, number: u64) -> Result<(), Memory>
    ensures { OnOk result (text.new ≡ text.old ++ letter ∷ decimal number) }
{
    text.push(letter)?;
    push_decimal(text, u128::from(number))
}

/// Adds an integer with its type.
fn push_int(text: &mut Bytes, int: &Int) -> Result<(), Memory>
    ensures { OnOk result (text.new ≡ text.old ++ spec.int_text int.now) }
{
    text.push(b'i')?;
    push_decimal(text, u128::from(int.width().bits()))?;
    text.push(b':')?;
    match int.width() {
        Width::W1 => text.extend_from_slice(word(int.bits() == 1)),
        _ => push_signed(text, i128::from(int.signed())),
    }
}
