//! Laws of replies.
ghost use Rattle.qir_cli.specs.Laws.{RepliesAreOne, RepliesExist};

use check_command::{reports_are_one, reports_exist};
use generated_summary::laws::{summaries_are_one, summaries_exist};
use ir_reader::one_answer;
use lowering_verdicts::laws::{lowering_has_an_answer, lowering_has_one_answer};
use read_modules::read_modules_are_printable;
use run_commands::{runs_are_one, runs_exist, traces_are_one, traces_exist};
use type_check::{modules_are_typed_or_faulty, modules_have_one_first_fault};

/// A command that has one text for an input has at most one reply to it.
pub fn replies_are_one()
    ensures { RepliesAreOne }
{
    one_answer();
    modules_have_one_first_fault();
    reports_are_one();
    lowering_has_one_answer();
    read_modules_are_printable();
    runs_are_one();
    traces_are_one();
    summaries_are_one();
}

/// Every command has a reply to every list of bytes.
pub fn replies_exist()
    ensures { RepliesExist }
{
    one_answer();
    modules_are_typed_or_faulty();
    reports_exist();
    lowering_has_an_answer();
    read_modules_are_printable();
    runs_exist();
    traces_exist();
    summaries_exist();
}
