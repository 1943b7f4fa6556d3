//! The text that a command looks at.
ghost use Rattle.std.specs.Prelude.{◌≡◌, ◌<◌, ◌≤◌, ◌+◌, ℕ, List, length, Some, IfOk};
ghost use Rattle.ir_values.specs.Counts.{Rose};
ghost use Rattle.qir_cli.specs.code.Stops.{LooksAt};
ghost use Rattle.qir_cli.specs.Outcomes.{LeavesInput};
ghost use Rattle.qir_cli.specs.Replies.{limit};
ghost use Rattle.qir_ports.specs.Known.{GivesUpTo};

use crate::command::Command;
use generated_text::generated_text;
use ir_values::Bytes;
use qir_ports::{ReadError, Source, read_all};
use std::alloc::Global;

/// The most bytes that an input has.
const LIMIT: usize = 4_194_304;

/// The text that a command looks at: the input, which is read to its end, or that of a generated program, for which nothing
/// is read. The errors are those of [`read_all`].
pub(crate) fn text_for<S: Source>(
    alloc: Global,
    command: &Command,
    input: &mut S,
) -> Result<Bytes, ReadError>
    ensures looks { IfOk result (LooksAt command.now (S.left input.old)) }
    ensures within { IfOk result (λ text. length text ≤ limit) }
    ensures too_long { result ≡ Err ReadError.TooLong
        → (text : List ℕ) × LooksAt command.now (S.left input.old) text × (limit < length text) }
    ensures failed { result ≡ Err ReadError.Failed → Rose (S.faults input.old) (S.faults input.new) }
    ensures read { GivesUpTo (limit + 1) (S.left input.old) (S.left input.new) }
    ensures unread { LeavesInput (Some command.now) → input.new ≡ input.old }
{
    match command.turns() {
        Some(turns) => Ok(generated_text(alloc, turns)?),
        None => read_all(alloc, input, LIMIT),
    }
}
