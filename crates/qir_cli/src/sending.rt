//! Writing replies.
ghost use Rattle.std.specs.Prelude.{◌≡◌};
ghost use Rattle.qir_cli.specs.code.Stops.{Becomes, IsReplyOf, told_status};

use crate::refusal::Stop;
use crate::reply::{Reply, reply_of};
use crate::status::Status;
use ir_values::Memory;
use output_lines::ShotStop;
use qir_ports::{Sink, write_all};
use std::alloc::Global;

/// Writes the reply of what a command came to, if there is memory for it.
pub(crate) fn send<K: Sink>(alloc: Global, out: &mut K, end: Result<Reply, Stop>) -> Status
    ensures { Becomes ⊥ (IsReplyOf end) K.taken K.faults out.old out.new result }
{
    match reply_of(alloc, end) {
        Ok(reply) => match write_all(out, reply.text.as_slice()) {
            Ok(()) => reply.status,
            Err(_) => Status::WriteFault,
        },
        Err(Memory) => Status::Memory,
    }
}

/// The status of a command that told its shots.
pub(crate) fn status_of(told: Result<bool, ShotStop>) -> Status
    ensures { result ≡ told_status told }
{
    match told {
        Ok(true) => Status::Done,
        Ok(false) => Status::Stopped,
        Err(ShotStop::Write) => Status::WriteFault,
        Err(ShotStop::Memory) => Status::Memory,
    }
}
