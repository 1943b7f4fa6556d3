//! Runs over a backend that fails once.
use crate::given::{check_lines, sink};
use crate::texts::module_of;
use admission::Checked;
use backend_api::{Answer, Event};
use failing_backend::Flaky;
use ir_values::{Memory, Seq};
use output_lines::{Last, StopName, write_trace};
use qir_machine::{Ended, run_on};
use qir_meaning::{Ask, End};
use scripted_backend::Script;
use std::alloc::Global;
use std::process::Abort;
use std::test::Fail;

/// Runs a module with at most 100 steps.
fn ended(alloc: Global, checked: &Checked, backend: &mut Flaky) -> Result<Ended, Memory> {
    run_on(alloc, checked.module(), backend, 100)
}

/// Runs the pair.
fn run_pair(alloc: Global, backend: &mut Flaky) -> Result<Ended, Fail> {
    let pair = module_of(alloc, "pair").ok_or("a module")?;
    Ok(ended(alloc, &pair, backend)?)
}

/// Expects that a trace tells these events in the lines of the words, with a failure behind them.
fn check_events(rt: &impl Abort, alloc: Global, events: &[Event], words: &str) -> Result<(), Fail> {
    let mut out = sink(alloc, 4096, 0)?;
    write_trace(alloc, &mut out, events, &Last::Stop(StopName::Failed))?;
    check_lines(rt, alloc, &out, words, usize::MAX)
}

/// The operation that a run asked for in vain, as if it were an event with this answer, and why.
fn asked(alloc: Global, end: End, answer: Answer) -> Result<(Seq<Event>, Ask), Fail> {
    let End::Asks(op, why) = end else {
        return Err(Fail::from("another end"));
    };
    let mut events = Seq::new(alloc);
    events.push(Event { op, answer })?;
    Ok((events, why))
}

/// The number of the call that fails, the lines of what was answered before it, and that of what it was asked for, with its
/// answer.
type Row = (u64, &'static str, &'static str, Answer);

fn check(rt: &impl Abort, alloc: Global, row: Row) -> Result<(), Fail> {
    let (fails_at, before, asked_for, answer) = row;
    let mut backend = Flaky::new(Script::new(alloc, &[true, true])?, fails_at);
    let run = run_pair(alloc, &mut backend)?;
    assert!(rt; run.records.is_empty(), "{fails_at}");
    check_events(rt, alloc, backend.events(), before)?;
    let (event, why) = asked(alloc, run.end, answer)?;
    assert_eq!(rt; why, Ask::Failed, "{fails_at}");
    check_events(rt, alloc, event.as_slice(), asked_for)
}

#[test]
fn a_failing_call_ends_the_run(rt: HostRuntime) -> Result<(), Fail> {
    let rows: [Row; 4] = [
        (1, "failed", "h0 failed", Answer::Done),
        (2, "h0 failed", "cnot01 failed", Answer::Done),
        (3, "h0 cnot01 failed", "mz0=1 failed", Answer::Bit(true)),
        (
            4,
            "h0 cnot01 mz0=1 failed",
            "mz1=1 failed",
            Answer::Bit(true),
        ),
    ];
    for row in rows {
        check(&rt, rt.alloc(), row)?;
    }
    Ok(())
}

/// The pair has four operations, so no fifth call fails, and with 0 none does.
#[test]
fn a_run_without_that_call_returns(rt: HostRuntime) -> Result<(), Fail> {
    let alloc = rt.alloc();
    for fails_at in [0, 5] {
        let mut backend = Flaky::new(Script::new(alloc, &[true, true])?, fails_at);
        let run = run_pair(alloc, &mut backend)?;
        assert_eq!(rt; run.end, End::Returned(0), "{fails_at}");
        assert_eq!(rt; run.records.len(), 3, "{fails_at}");
        assert_eq!(rt; run.used, 12, "{fails_at}");
        check_events(&rt, alloc, backend.events(), "h0 cnot01 mz0=1 mz1=1 failed")?;
    }
    Ok(())
}

/// A measurement without a bit is no call that fails.
#[test]
fn no_bit_left_comes_before_a_failure(rt: HostRuntime) -> Result<(), Fail> {
    let alloc = rt.alloc();
    let mut backend = Flaky::new(Script::new(alloc, &[true])?, 4);
    let run = run_pair(alloc, &mut backend)?;
    let (_event, why) = asked(alloc, run.end, Answer::Done)?;
    assert_eq!(rt; why, Ask::Empty);
    assert_eq!(rt; backend.events().len(), 3);
    Ok(())
}
