//! The program: the words after its name, standard input and standard output, and the status.
#![tactic(auto)]

ghost use Rattle.std.specs.Prelude.{◌≡◌, ◌≢◌, None, drop, IfOk, IfErr, OnErr};
ghost use Rattle.std.specs.IoError.{error_kind};
ghost use Rattle.std.specs.Process.{exit_status};
ghost use Rattle.std.specs.Vec.Iter.{into_iter_items};
ghost use Rattle.ir_values.specs.Counts.{Rose};
ghost use Rattle.qir_cli.specs.Commands.{command_of, texts_of};
ghost use Rattle.qir_cli.specs.Headline.{WritesKept};
ghost use Rattle.qir_cli.specs.Outcomes.{Answered, PartlyAnswered, IsAnswered, WritesLines};
ghost use Rattle.qir_cli.specs.Statuses.{number_of};

use qir_cli::{Status, qir};
use qir_ports::{Sink, Source, StdSink, StdSource};
use std::alloc::Global;
use std::env::Args;
use std::io::ErrorKind;
use std::process::ExitCode;
use std::{env, io};

fn main(rt: HostRuntime) -> ExitCode {
    let mut input = StdSource::new(rt.reader());
    let mut out = StdSink::new(rt.stdout());
    exit_code(run(rt.alloc(), env::args(&rt), &mut input, &mut out))
}

/// Does what the words after the program's name say, over any source and any sink. The name is the
/// first of `args`. Where the system doesn't give the words as text nothing is read or written.
fn run<S: Source, K: Sink>(
    alloc: Global,
    args: io::Result<Args>,
    input: &mut S,
    out: &mut K,
) -> Status
    ensures bad_words { IfOk args (λ args. result ≡ Status.BadWords
        → command_of (texts_of (drop 1 (into_iter_items args))) ≡ None) }
    ensures answered { IfOk args (λ args. IsAnswered result
        → Answered (texts_of (drop 1 (into_iter_items args))) (S.left input.old)
        (K.taken out.old) (K.taken out.new) result) }
    ensures partly_answered { IfOk args (λ args. result ≡ Status.WriteFault
        → PartlyAnswered (texts_of (drop 1 (into_iter_items args))) (S.left input.old)
        (K.taken out.old) (K.taken out.new)) }
    ensures whole_lines { IfOk args (λ args. result ≡ Status.Memory
        → WritesLines (texts_of (drop 1 (into_iter_items args))) (S.left input.old)
        (K.taken out.old) (K.taken out.new)) }
    ensures kept { IfOk args (λ args. result ≡ Status.Done
        → WritesKept (texts_of (drop 1 (into_iter_items args))) (S.left input.old)
        (K.taken out.old) (K.taken out.new)) }
    ensures read_fault { result ≡ Status.ReadFault → Rose (S.faults input.old) (S.faults input.new) }
    ensures write_fault { result ≡ Status.WriteFault → Rose (K.faults out.old) (K.faults out.new) }
    ensures no_text { IfErr args (λ e.
        error_kind e ≢ ErrorKind.OutOfMemory → result ≡ Status.BadWords) }
    ensures unread { OnErr args (input.new ≡ input.old) }
    ensures unwritten { OnErr args (out.new ≡ out.old) }
{
    match words_after_name(alloc, args) {
        Ok(words) => qir(alloc, &words, input, out),
        Err(status) => status,
    }
}

/// The words after the program's name, which is the first of `args`.
///
/// - `Memory` says that there was none for them.
/// - `BadWords` says that the system doesn't give them as text.
fn words_after_name(alloc: Global, args: io::Result<Args>) -> Result<Vec<String>, Status>
    ensures words { IfOk args (λ args.
        IfOk result (λ words. words.items ≡ drop 1 (into_iter_items args))) }
    ensures memory { IfOk args (λ _. IfErr result (λ status. status ≡ Status.Memory)) }
    ensures none { IfErr args (λ e.
        error_kind e ≡ ErrorKind.OutOfMemory → result ≡ Err Status.Memory) }
    ensures no_text { IfErr args (λ e.
        error_kind e ≢ ErrorKind.OutOfMemory → result ≡ Err Status.BadWords) }
{
    let mut args = match args {
        Ok(args) => args,
        Err(e) if e.kind() == ErrorKind::OutOfMemory => return Err(Status::Memory),
        Err(_) => return Err(Status::BadWords),
    };
    let mut words = Vec::new(alloc);
    let _name = args.next();
    while let Some(word) = args.next() {
        if words.push(word).is_err() {
            return Err(Status::Memory);
        }
    }
    Ok(words)
}

/// The exit code that tells the status.
fn exit_code(status: Status) -> ExitCode
    ensures { exit_status result ≡ number_of status }
{
    ExitCode::from(status.number())
}
