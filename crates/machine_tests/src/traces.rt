//! The lines of `trace`, with given bits and with classical ones.
use crate::given::{check_lines, sink, trace_into};
use std::alloc::Global;
use std::process::Abort;
use std::test::Fail;

/// A module, the steps and the backend of a trace of it, its lines, and whether the entry returned.
type Row = (&'static str, u64, &'static str, &'static str, bool);

fn check(rt: &impl Abort, alloc: Global, row: Row) -> Result<(), Fail> {
    let (name, steps, backend, lines, returned) = row;
    let mut out = sink(alloc, 4096, 0)?;
    let answer = trace_into(alloc, &mut out, name, steps, backend)?;
    assert_eq!(rt; answer, returned, "{name} {lines}");
    check_lines(rt, alloc, &out, lines, usize::MAX)
}

#[test]
fn bits_decide_branches(rt: HostRuntime) -> Result<(), Fail> {
    let rows: [Row; 8] = [
        (
            "moved",
            100,
            "00",
            "h1 cnot12 cnot01 h0 mz0=0 mz1=0 end",
            true,
        ),
        (
            "moved",
            100,
            "01",
            "h1 cnot12 cnot01 h0 mz0=0 mz1=1 x2 end",
            true,
        ),
        (
            "moved",
            100,
            "10",
            "h1 cnot12 cnot01 h0 mz0=1 mz1=0 z2 end",
            true,
        ),
        (
            "moved",
            100,
            "11",
            "h1 cnot12 cnot01 h0 mz0=1 mz1=1 x2 z2 end",
            true,
        ),
        ("equal", 10, "00", "mz0=0 mz1=0 x2 end", true),
        ("equal", 10, "10", "mz0=1 mz1=0 end", true),
        ("one way", 20, "1", "mz0=1 phase:2 end", true),
        ("one way", 20, "0", "mz0=0 unbound", false),
    ];
    for row in rows {
        check(&rt, rt.alloc(), row)?;
    }
    Ok(())
}

#[test]
fn runs_that_stop(rt: HostRuntime) -> Result<(), Fail> {
    let rows: [Row; 8] = [
        ("sum", 10, "1", "mz0=1 poison", false),
        ("sum", 10, "0", "mz0=0 end", true),
        ("flag", 10, "-", "poison", false),
        ("unbound", 10, "-", "unbound", false),
        ("released", 10, "-", "released", false),
        ("calls itself", 1000, "-", "cut", false),
        ("turns", 20, "-", "phase:0 phase:1 phase:2 end", true),
        ("turns", 19, "-", "phase:0 phase:1 phase:2 cut", false),
    ];
    for row in rows {
        check(&rt, rt.alloc(), row)?;
    }
    Ok(())
}

#[test]
fn classical_bits(rt: HostRuntime) -> Result<(), Fail> {
    let rows: [Row; 2] = [
        ("flip", 10, "bits", "x0 mz0=1 end", true),
        ("half", 10, "bits", "unsupported", false),
    ];
    for row in rows {
        check(&rt, rt.alloc(), row)?;
    }
    Ok(())
}
