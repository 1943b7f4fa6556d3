//! The whole program, over any source and sink.
ghost use Rattle.std.specs.Prelude.{◌≡◌, ◌+◌, ◌↔◌, None, Some};
ghost use Rattle.ir_values.specs.Counts.{Rose};
ghost use Rattle.qir_ports.specs.Known.{GivesUpTo};
ghost use Rattle.qir_cli.specs.code.Stops.{Serves};
ghost use Rattle.qir_cli.specs.Commands.{IsLimited, command_of, texts_of};
ghost use Rattle.qir_cli.specs.Headline.{WritesKept};
ghost use Rattle.qir_cli.specs.Outcomes.{Answered, LeavesInput, PartlyAnswered, WritesLines, IsAnswered, IsUnwritten};
ghost use Rattle.qir_cli.specs.Replies.{limit};

use crate::answering::answer;
use crate::command::{Command, command_of};
use crate::looking::text_for;
use crate::refusal::{Fault, Stop};
use crate::sending::send;
use crate::status::Status;
use qir_ports::{ReadError, Sink, Source};
use std::alloc::Global;

/// Does what the words say, which is all that the program does: reads the source to its end, and
/// writes the reply to the sink. `gen` reads nothing.
///
/// - `BadWords` comes exactly where the words are no command, and then nothing is read or written.
/// - `ReadFault` comes only where a read failed, and then nothing is written.
/// - `WriteFault` comes only where a write failed, and then a beginning of the reply was written, and
///   not all of it.
/// - `Memory` may come wherever memory is asked for. Then nothing is written by the commands that make
///   their whole text first, and by `run` and `trace` the first lines of the reply, each whole, or none.
/// - Every other status comes with the whole of the reply that the command has to all the bytes that
///   the source had left, where it tells them.
/// - With `Done`, `lower` has written a text that keeps what the module of those bytes does, and `gen` says rightly that
///   the two runs are the same.
pub fn qir<S: Source, K: Sink>(
    alloc: Global,
    words: &Vec<String>,
    input: &mut S,
    out: &mut K,
) -> Status
    ensures bad_words { (result ≡ Status.BadWords) ↔ (command_of (texts_of words.now.items) ≡ None) }
    ensures unread { LeavesInput (command_of (texts_of words.now.items)) → input.new ≡ input.old }
    ensures unwritten { IsUnwritten (texts_of words.now.items) result → out.new ≡ out.old }
    ensures read { GivesUpTo (limit + 1) (S.left input.old) (S.left input.new) }
    ensures read_fault { result ≡ Status.ReadFault → Rose (S.faults input.old) (S.faults input.new) }
    ensures write_fault { result ≡ Status.WriteFault → Rose (K.faults out.old) (K.faults out.new) }
    ensures answered { IsAnswered result → Answered (texts_of words.now.items) (S.left input.old)
        (K.taken out.old) (K.taken out.new) result }
    ensures partly_answered { result ≡ Status.WriteFault → PartlyAnswered (texts_of words.now.items)
        (S.left input.old) (K.taken out.old) (K.taken out.new) }
    ensures whole_lines { result ≡ Status.Memory → WritesLines (texts_of words.now.items)
        (S.left input.old) (K.taken out.old) (K.taken out.new) }
    ensures kept { result ≡ Status.Done → WritesKept (texts_of words.now.items) (S.left input.old)
        (K.taken out.old) (K.taken out.new) }
{
    let Ok(known) = command_of(alloc, words.as_slice()) else {
        return Status::Memory;
    };
    let Some(command) = known else {
        return Status::BadWords;
    };
    serve(alloc, &command, input, out)
}

/// Writes the reply of a command to the text that it looks at.
fn serve<S: Source, K: Sink>(alloc: Global, command: &Command, input: &mut S, out: &mut K) -> Status
    requires { IsLimited command.now }
    ensures served { Serves command.now (S.left input.old)
        (Rose (S.faults input.old) (S.faults input.new)) K.taken K.faults out.old out.new result }
    ensures read { GivesUpTo (limit + 1) (S.left input.old) (S.left input.new) }
    ensures unread { LeavesInput (Some command.now) → input.new ≡ input.old }
{
    match text_for(alloc, command, input) {
        Ok(text) => answer(alloc, command, text.as_slice(), out),
        Err(ReadError::TooLong) => {
            send(alloc, out, Err(Stop::Refused(Fault::TooLong.at_start())))
        }
        Err(ReadError::Failed) => Status::ReadFault,
        Err(ReadError::Memory) => Status::Memory,
    }
}
