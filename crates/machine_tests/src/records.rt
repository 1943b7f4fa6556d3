//! The lines of `run`: records by both schemas, shots that stop, and sinks that fail.
use crate::given::{check_lines, run_into, sink};
use crate::lines::lines_of;
use output_lines::{Schema, ShotStop};
use run_commands::schema_of;
use std::alloc::Global;
use std::process::Abort;
use std::test::Fail;

#[test]
fn the_schemas_have_words(rt: HostRuntime) {
    let rows = [
        ("labeled", Some(Schema::Labeled)),
        ("ordered", Some(Schema::Ordered)),
        ("Labeled", None),
    ];
    for (word, schema) in rows {
        assert_eq!(rt; schema_of(word.as_bytes()), schema, "{word}");
    }
}

/// The lines of a run of the pair whose bits are 1 and 1.
const PAIR_LINES: &str =
    "labeled version start entry base labels qubits:2 results:2 tuple:2 1:r0 1:r1 end";

/// A module, the words of a run of it, its lines, and whether all shots returned.
type Row = (
    &'static str,
    &'static str,
    u64,
    &'static str,
    &'static str,
    bool,
);

fn check(rt: &impl Abort, alloc: Global, row: Row) -> Result<(), Fail> {
    let (name, schema, steps, outcomes, lines, all) = row;
    let mut out = sink(alloc, 4096, 0)?;
    let answer = run_into(alloc, &mut out, name, schema, steps, outcomes)?;
    assert_eq!(rt; answer, Ok(all), "{lines}");
    check_lines(rt, alloc, &out, lines, usize::MAX)
}

/// A pair of bits, with all its steps and with one less, two shots, and too few bits in the first of two.
#[test]
fn shots_of_a_pair(rt: HostRuntime) -> Result<(), Fail> {
    let rows: [Row; 4] = [
        ("pair", "labeled", 12, "11", PAIR_LINES, true),
        (
            "pair",
            "labeled",
            11,
            "11",
            "labeled version start entry base labels qubits:2 results:2 tuple:2 1:r0 1:r1 cut",
            false,
        ),
        (
            "pair",
            "ordered",
            12,
            "11,00",
            "ordered version start entry base labels qubits:2 results:2 tuple:2 1 1 end start entry base labels qubits:2 results:2 tuple:2 0 0 end",
            true,
        ),
        (
            "pair",
            "labeled",
            100,
            "1,11",
            "labeled version start entry base labels qubits:2 results:2 empty start entry base labels qubits:2 results:2 tuple:2 1:r0 1:r1 end",
            false,
        ),
    ];
    for row in rows {
        check(&rt, rt.alloc(), row)?;
    }
    Ok(())
}

#[test]
fn shots_that_trap(rt: HostRuntime) -> Result<(), Fail> {
    let rows: [Row; 2] = [
        (
            "overflow",
            "ordered",
            10,
            "-",
            "ordered version start entry qubits:3 results:2 overflow",
            false,
        ),
        (
            "unset",
            "ordered",
            40,
            "-",
            "ordered version start entry qubits:3 results:2 unset",
            false,
        ),
    ];
    for row in rows {
        check(&rt, rt.alloc(), row)?;
    }
    Ok(())
}

/// The pair has eight instructions up to its three records: so many steps, and so many lines before the last.
#[test]
fn a_shot_is_cut_after_its_steps(rt: HostRuntime) -> Result<(), Fail> {
    let alloc = rt.alloc();
    let rows = [(0, 8), (1, 8), (7, 8), (8, 8), (9, 9), (10, 10), (11, 11)];
    for (steps, count) in rows {
        let mut out = sink(alloc, 4096, 0)?;
        let answer = run_into(alloc, &mut out, "pair", "labeled", steps, "11")?;
        assert_eq!(rt; answer, Ok(false), "{steps}");
        let mut wanted = lines_of(alloc, PAIR_LINES, count)?;
        wanted.extend_from_slice(b"STOP\tCut\n")?;
        assert_eq!(rt; out.taken(), wanted.as_slice(), "{steps}");
    }
    Ok(())
}

/// Each line is offered whole, so the call of a line's number writes it.
#[test]
fn a_failed_write_leaves_the_lines_before(rt: HostRuntime) -> Result<(), Fail> {
    let alloc = rt.alloc();
    for before in 0..12 {
        let mut out = sink(alloc, 4096, before as u64 + 1)?;
        let answer = run_into(alloc, &mut out, "pair", "labeled", 12, "11")?;
        assert_eq!(rt; answer, Err(ShotStop::Write), "{before}");
        check_lines(&rt, alloc, &out, PAIR_LINES, before)?;
    }
    Ok(())
}

#[test]
fn a_failed_write_may_leave_part_of_a_line(rt: HostRuntime) -> Result<(), Fail> {
    let alloc = rt.alloc();
    let mut out = sink(alloc, 16, 2)?;
    let answer = run_into(alloc, &mut out, "pair", "labeled", 100, "1")?;
    assert_eq!(rt; answer, Err(ShotStop::Write));
    assert_eq!(rt; out.taken(), b"HEADER\tschema_id".as_slice());
    Ok(())
}
