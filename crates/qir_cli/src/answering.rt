//! What a command does with a text.
ghost use Rattle.std.specs.Prelude.{◌≡◌, ◌≤◌, length};
ghost use Rattle.finding_lines.specs.Lines.{ArePlaces};
ghost use Rattle.ir_module.specs.Printable.{IsPrintable};
ghost use Rattle.qir_cli.specs.code.AdmittedCode.{parsed_of};
ghost use Rattle.qir_cli.specs.code.Stops.{Becomes, ByLines, DoesWell, RepliesWell};
ghost use Rattle.qir_cli.specs.Commands.{IsLimited};
ghost use Rattle.qir_cli.specs.Replies.{limit};

use crate::admitted::{Admitted, admit_text};
use crate::command::Command;
use crate::generating::summarize_module;
use crate::lowering::lower_module;
use crate::reply::{check_module, print_module};
use crate::sending::{send, status_of};
use crate::status::Status;
use qir_ports::Sink;
use run_commands::{run, trace};
use std::alloc::Global;

/// Writes the reply of a command to a text of at most 4,194,304 bytes.
pub(crate) fn answer<K: Sink>(alloc: Global, command: &Command, text: &[u8], out: &mut K) -> Status
    requires short { length text.now ≤ limit }
    requires limited { IsLimited command.now }
    ensures { Becomes (ByLines command.now) (RepliesWell command.now text.now) K.taken K.faults
        out.old out.new result }
{
    match admit_text(alloc, text) {
        Ok(a) => answer_for(alloc, command, &a, out),
        Err(why) => send(alloc, out, Err(why)),
    }
}

/// Writes the reply of a command to a module that was admitted.
fn answer_for<K: Sink>(alloc: Global, command: &Command, a: &Admitted, out: &mut K) -> Status
    requires limited { IsLimited command.now }
    requires places { ArePlaces a.now.checked.tree a.now.places }
    requires printable { IsPrintable a.now.checked.tree }
    ensures { Becomes (ByLines command.now) (DoesWell command.now (parsed_of a.now)) K.taken K.faults
        out.old out.new result }
{
    match command {
        Command::Print => send(alloc, out, print_module(alloc, a.checked.module())),
        Command::Check { profile } => send(alloc, out, check_module(alloc, a, *profile)),
        Command::Lower { target, budget } => {
            send(alloc, out, lower_module(alloc, a, *target, *budget))
        }
        Command::Run {
            schema,
            steps,
            backends,
        } => status_of(run(alloc, &a.checked, out, *schema, *steps, backends.as_slice())),
        Command::Trace { steps, backend } => {
            status_of(trace(alloc, &a.checked, out, *steps, backend))
        }
        Command::Gen { turns } => send(alloc, out, summarize_module(alloc, a, *turns)),
    }
}
