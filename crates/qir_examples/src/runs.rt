//! `run` and `trace`.
use crate::forms::Program;
use crate::given::{Ports, answer, bytes, run};
use crate::texts::{
    BELL, DEFINED_ON_ONE_WAY, EQUAL_RESULTS, ONE_GATE, READ_BEFORE, SUM_OF_A_RESULT, TELEPORTATION,
    UNSET_RECORD, USE_AFTER_RELEASE,
};
use qir_cli::Status;
use std::test::Fail;

/// A quotient that is too great.
const GREAT_QUOTIENT: Program<'static> = Program {
    qubits: 0,
    results: 0,
    body: b"  %x = sdiv i64 -9223372036854775808, -1
  ret i64 0
",
};

/// A qubit that is flipped and measured.
const FLIPPED: Program<'static> = Program {
    qubits: 1,
    results: 1,
    body: b"  call void @__quantum__qis__x__body(%Qubit* null)
  call void @__quantum__qis__mz__body(%Qubit* null, %Result* null)
  ret i64 0
",
};

/// A measurement with its record.
const RECORDED: Program<'static> = Program {
    qubits: 1,
    results: 1,
    body: b"  call void @__quantum__qis__mz__body(%Qubit* null, %Result* null)
  call void @__quantum__rt__result_record_output(%Result* null, i8* null)
  ret i64 0
",
};

const BELL_HEAD: &[u8] = b"HEADER\tschema_id\tlabeled
HEADER\tschema_version\t1.0
START
METADATA\tentry_point
METADATA\tqir_profiles\tbase_profile
METADATA\toutput_labeling_schema\tlabeled
METADATA\trequired_num_qubits\t2
METADATA\trequired_num_results\t2
";

const BELL_RECORDS: &[u8] = b"OUTPUT\tTUPLE\t2
OUTPUT\tRESULT\t1\tr0
OUTPUT\tRESULT\t1\tr1
";

/// The records of a Bell pair: twelve steps are enough, eleven and one bit aren't.
#[test]
fn a_bell_pair_has_its_records(rt: HostRuntime) -> Result<(), Fail> {
    let rows: [(&str, Status, &[u8], &[u8]); 3] = [
        (
            "run script labeled 12 11",
            Status::Done,
            BELL_RECORDS,
            b"END\t0\n",
        ),
        (
            "run script labeled 11 11",
            Status::Stopped,
            BELL_RECORDS,
            b"STOP\tCut\n",
        ),
        (
            "run script labeled 100 1",
            Status::Stopped,
            b"",
            b"STOP\tEmpty\n",
        ),
    ];
    for (line, status, records, last) in rows {
        let told = answer(rt.alloc(), line, BELL)?;
        assert_eq!(rt; told.status, status);
        let mut expected = bytes(rt.alloc(), BELL_HEAD)?;
        expected.extend_from_slice(records)?;
        expected.extend_from_slice(last)?;
        assert_eq!(rt; told.written.as_slice(), expected.as_slice());
    }
    Ok(())
}

/// A shot that is cut has the records that its steps came to.
#[test]
fn a_shot_is_cut_at_its_bound(rt: HostRuntime) -> Result<(), Fail> {
    let rows: [(&str, &[u8]); 11] = [
        ("run script labeled 1 11", b""),
        ("run script labeled 2 11", b""),
        ("run script labeled 3 11", b""),
        ("run script labeled 4 11", b""),
        ("run script labeled 5 11", b""),
        ("run script labeled 6 11", b""),
        ("run script labeled 7 11", b""),
        ("run script labeled 8 11", b""),
        ("run script labeled 9 11", b"OUTPUT\tTUPLE\t2\n"),
        (
            "run script labeled 10 11",
            b"OUTPUT\tTUPLE\t2\nOUTPUT\tRESULT\t1\tr0\n",
        ),
        ("run script labeled 11 11", BELL_RECORDS),
    ];
    for (line, records) in rows {
        let told = answer(rt.alloc(), line, BELL)?;
        assert_eq!(rt; told.status, Status::Stopped);
        let mut expected = bytes(rt.alloc(), BELL_HEAD)?;
        expected.extend_from_slice(records)?;
        expected.extend_from_slice(b"STOP\tCut\n")?;
        assert_eq!(rt; told.written.as_slice(), expected.as_slice());
    }
    Ok(())
}

/// The programs, the words, the status, and what is written.
#[test]
fn shots_are_told_as_they_end(rt: HostRuntime) -> Result<(), Fail> {
    let alloc = rt.alloc();
    let rows: [(Program<'_>, &str, Status, &[u8]); 15] = [
        (
            GREAT_QUOTIENT,
            "run script ordered 10 -",
            Status::Stopped,
            b"HEADER\tschema_id\tordered
HEADER\tschema_version\t1.0
START
METADATA\tentry_point
METADATA\trequired_num_qubits\t0
METADATA\trequired_num_results\t0
STOP\tOverflow
",
        ),
        (
            UNSET_RECORD,
            "run script ordered 40 -",
            Status::Stopped,
            b"HEADER\tschema_id\tordered
HEADER\tschema_version\t1.0
START
METADATA\tentry_point
METADATA\trequired_num_qubits\t0
METADATA\trequired_num_results\t1
STOP\tReadUnset
",
        ),
        (
            RECORDED,
            "run script ordered 3 1,-,0",
            Status::Stopped,
            b"HEADER\tschema_id\tordered
HEADER\tschema_version\t1.0
START
METADATA\tentry_point
METADATA\trequired_num_qubits\t1
METADATA\trequired_num_results\t1
OUTPUT\tRESULT\t1
END\t0
START
METADATA\tentry_point
METADATA\trequired_num_qubits\t1
METADATA\trequired_num_results\t1
STOP\tEmpty
START
METADATA\tentry_point
METADATA\trequired_num_qubits\t1
METADATA\trequired_num_results\t1
OUTPUT\tRESULT\t0
END\t0
",
        ),
        (
            RECORDED,
            "run bits labeled 3",
            Status::Done,
            b"HEADER\tschema_id\tlabeled
HEADER\tschema_version\t1.0
START
METADATA\tentry_point
METADATA\trequired_num_qubits\t1
METADATA\trequired_num_results\t1
OUTPUT\tRESULT\t0
END\t0
",
        ),
        (
            TELEPORTATION,
            "trace script 100 01",
            Status::Done,
            b"GATE\t__quantum__qis__h__body\tq1
GATE\t__quantum__qis__cnot__body\tq1\tq2
GATE\t__quantum__qis__cnot__body\tq0\tq1
GATE\t__quantum__qis__h__body\tq0
BIT\t0\t__quantum__qis__mz__body\tq0\tr0
BIT\t1\t__quantum__qis__mz__body\tq1\tr1
GATE\t__quantum__qis__x__body\tq2
END\t0
",
        ),
        (
            EQUAL_RESULTS,
            "trace script 10 00",
            Status::Done,
            b"BIT\t0\t__quantum__qis__mz__body\tq0\tr0
BIT\t0\t__quantum__qis__mz__body\tq1\tr1
GATE\t__quantum__qis__x__body\tq2
END\t0
",
        ),
        (
            EQUAL_RESULTS,
            "trace script 10 10",
            Status::Done,
            b"BIT\t1\t__quantum__qis__mz__body\tq0\tr0
BIT\t0\t__quantum__qis__mz__body\tq1\tr1
END\t0
",
        ),
        (
            SUM_OF_A_RESULT,
            "trace script 10 1",
            Status::Stopped,
            b"BIT\t1\t__quantum__qis__mz__body\tq0\tr0\nSTOP\tPoison\n",
        ),
        (
            SUM_OF_A_RESULT,
            "trace script 10 0",
            Status::Done,
            b"BIT\t0\t__quantum__qis__mz__body\tq0\tr0\nEND\t0\n",
        ),
        (
            USE_AFTER_RELEASE,
            "trace script 10 -",
            Status::Stopped,
            b"STOP\tReleased\n",
        ),
        (
            READ_BEFORE,
            "trace script 10 -",
            Status::Stopped,
            b"STOP\tUnbound\n",
        ),
        (
            DEFINED_ON_ONE_WAY,
            "trace script 20 1",
            Status::Done,
            b"BIT\t1\t__quantum__qis__mz__body\tq0\tr0
GATE\t__quantum__qis__phase__body\ti64:2\tq0
END\t0
",
        ),
        (
            DEFINED_ON_ONE_WAY,
            "trace script 20 0",
            Status::Stopped,
            b"BIT\t0\t__quantum__qis__mz__body\tq0\tr0\nSTOP\tUnbound\n",
        ),
        (
            FLIPPED,
            "trace bits 10",
            Status::Done,
            b"GATE\t__quantum__qis__x__body\tq0
BIT\t1\t__quantum__qis__mz__body\tq0\tr0
END\t0
",
        ),
        (
            ONE_GATE,
            "trace bits 10",
            Status::Stopped,
            b"STOP\tUnsupported\n",
        ),
    ];
    for (program, line, status, expected) in rows {
        let text = program.text(alloc)?;
        let told = answer(alloc, line, text.as_slice())?;
        assert_eq!(rt; told.status, status);
        assert_eq!(rt; told.written.as_slice(), expected);
    }
    Ok(())
}

/// The programs, the words that lower them, and the words that trace both.
#[test]
fn a_lowered_text_has_the_trace_of_its_source(rt: HostRuntime) -> Result<(), Fail> {
    let alloc = rt.alloc();
    let rows: [(Program<'_>, &str, &str); 9] = [
        (TELEPORTATION, "lower adaptive 15 -", "trace script 100 00"),
        (TELEPORTATION, "lower adaptive 15 -", "trace script 100 01"),
        (TELEPORTATION, "lower adaptive 15 -", "trace script 100 10"),
        (TELEPORTATION, "lower adaptive 15 -", "trace script 100 11"),
        (EQUAL_RESULTS, "lower adaptive 7 -", "trace script 100 00"),
        (EQUAL_RESULTS, "lower adaptive 7 -", "trace script 100 10"),
        (
            SUM_OF_A_RESULT,
            "lower adaptive 5 ints",
            "trace script 40 1",
        ),
        (
            SUM_OF_A_RESULT,
            "lower adaptive 5 ints",
            "trace script 40 0",
        ),
        (UNSET_RECORD, "lower base 2", "trace script 40 -"),
    ];
    for (program, lower, line) in rows {
        let text = program.text(alloc)?;
        let lowered = answer(alloc, lower, text.as_slice())?;
        assert_eq!(rt; lowered.status, Status::Done);
        let of_source = answer(alloc, line, text.as_slice())?;
        let of_lowered = answer(alloc, line, lowered.written.as_slice())?;
        assert_eq!(rt; of_lowered.status, of_source.status);
        assert_eq!(rt; of_lowered.written.as_slice(), of_source.written.as_slice());
    }
    Ok(())
}

/// The sink fails at its second call.
#[test]
fn a_failed_write_leaves_the_beginning(rt: HostRuntime) -> Result<(), Fail> {
    let words: [&str; 5] = ["run", "script", "labeled", "100", "1"];
    let failing = Ports {
        write_piece: 16,
        failing_writes: &[2],
        ..Ports::honest()
    };
    let told = run(rt.alloc(), words.as_slice(), BELL, failing)?;
    assert_eq!(rt; told.status, Status::WriteFault);
    assert_eq!(rt; told.written.as_slice(), b"HEADER\tschema_id".as_slice());
    Ok(())
}

#[test]
fn words_of_runs_are_exact(rt: HostRuntime) -> Result<(), Fail> {
    let lines: [&str; 12] = [
        "run",
        "run bits labeled",
        "run bits Labeled 5",
        "run bits labeled 0",
        "run bits labeled 5 -",
        "run script labeled 5",
        "run script labeled 5 12",
        "run script labeled 5 0,,1",
        "trace bits",
        "trace bits 1000001",
        "trace script 5 0,1",
        "trace script 5 -1",
    ];
    for line in lines {
        let bad = answer(rt.alloc(), line, BELL)?;
        assert_eq!(rt; bad.status, Status::BadWords);
        assert!(rt; bad.written.is_empty());
        assert_eq!(rt; bad.left.as_slice(), BELL);
    }
    Ok(())
}
