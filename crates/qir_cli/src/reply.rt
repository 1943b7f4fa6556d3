//! The replies of commands, and those that make their whole text first.
ghost use Rattle.std.specs.Prelude.{◌≡◌, IfOk, Ok as Gives};
ghost use Rattle.finding_lines.specs.Lines.{ArePlaces};
ghost use Rattle.qir_cli.specs.Checking.{Checks, reported};
ghost use Rattle.qir_cli.specs.code.AdmittedCode.{parsed_of};
ghost use Rattle.qir_cli.specs.code.Stops.{IsReplyOf, Meets};
ghost use Rattle.qir_cli.specs.Replies as spec;
ghost use Rattle.qir_cli.specs.Stages.{Is};

use crate::admitted::Admitted;
use crate::refusal::{Refusal, Stop};
use crate::status::Status;
use check_command::{Profile, check};
use ir_module::Module;
use ir_values::{Bytes, Memory};
use profile_checks::Report;
use std::alloc::Global;

/// The status and the text of a reply.
#[derive(Drop)]
pub(crate) struct Reply {
    pub(crate) status: Status,
    pub(crate) text: Bytes,
}

impl Reply {
    /// The reply that says why an input is refused.
    fn refused(alloc: Global, why: &Refusal) -> Result<Reply, Memory>
        ensures { IfOk result (λ reply. reply ≡ spec.refused why.now) }
    {
        Ok(Reply {
            status: Status::Refused,
            text: why.line(alloc)?,
        })
    }

    /// The reply that tells what was reported of a module.
    fn reported(report: Report) -> Reply
        ensures { result ≡ reported report }
    {
        Reply {
            status: if report.clean {
                Status::Done
            } else {
                Status::Refused
            },
            text: report.text,
        }
    }
}

/// The reply of what a command came to, where there was memory for it.
pub(crate) fn reply_of(alloc: Global, end: Result<Reply, Stop>) -> Result<Reply, Memory>
    ensures { IfOk result (IsReplyOf end) }
{
    match end {
        Ok(reply) => Ok(reply),
        Err(Stop::Refused(why)) => Reply::refused(alloc, &why),
        Err(Stop::Memory) => Err(Memory),
    }
}

/// The canonical text of a module.
pub(crate) fn print_module(alloc: Global, m: &Module) -> Result<Reply, Stop>
    ensures { Meets (Is (Gives (spec.printed m.now))) result }
{
    Ok(Reply {
        status: Status::Done,
        text: ir_printer::print(alloc, m)?,
    })
}

/// What a profile says of a module.
pub(crate) fn check_module(alloc: Global, a: &Admitted, profile: Profile) -> Result<Reply, Stop>
    requires { ArePlaces a.now.checked.tree a.now.places }
    ensures { Meets (Checks profile (parsed_of a.now)) result }
{
    let report = check(alloc, &a.checked, &a.places, profile)?;
    Ok(Reply::reported(report))
}
