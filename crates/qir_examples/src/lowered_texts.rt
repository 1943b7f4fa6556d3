//! What `lower` writes.
use crate::expected::{
    BEHIND_THE_REQUIRED_QUBITS, CORRECTIONS, GATE_ON_EACH_WAY, KEPT_CODE, KEPT_EMPTY_LOOP,
    KEPT_LOOP, KEPT_SUM, KEPT_SWITCH, MEASURED_FIRST, RECORDED, RETURNS_THREE, SIDE_BY_SIDE,
    THREE_TURNS, TWO_NUMBERS, TWO_READS,
};
use crate::forms::{Lowered, Program, copies};
use crate::given::{Ports, answer, run};
use crate::texts::{
    CODE_THREE, CONDITIONAL, COUNTED_TURNS, ENDLESS_LOOP, EQUAL_RESULTS, FIXED_AND_ALLOCATED,
    LATE_GATE, ONE_ALLOCATION, QUBIT_OF_THE_WAY, SUM_OF_A_RESULT, SWITCH_ON_A_RESULT,
    TELEPORTATION, TWO_ALLOCATIONS, UNSET_RECORD, UNTIL_ZERO,
};
use ir_values::{Bytes, Memory};
use qir_cli::Status;
use std::alloc::Global;
use std::test::Fail;

/// The programs with words whose budget is just enough, and what is written.
#[test]
fn programs_are_lowered(rt: HostRuntime) -> Result<(), Fail> {
    let alloc = rt.alloc();
    let one_more_qubit = Program {
        qubits: 2,
        results: 0,
        body: ONE_ALLOCATION,
    };
    let rows: [(Program<'_>, &str, Lowered<'_>); 14] = [
        (TWO_ALLOCATIONS, "lower base 7", TWO_NUMBERS),
        (one_more_qubit, "lower base 4", BEHIND_THE_REQUIRED_QUBITS),
        (FIXED_AND_ALLOCATED, "lower base 5", SIDE_BY_SIDE),
        (UNSET_RECORD, "lower base 2", RECORDED),
        (CODE_THREE, "lower base 2", RETURNS_THREE),
        (CODE_THREE, "lower adaptive 2 returns", KEPT_CODE),
        (LATE_GATE, "lower adaptive 3 -", MEASURED_FIRST),
        (TELEPORTATION, "lower adaptive 15 -", CORRECTIONS),
        (QUBIT_OF_THE_WAY, "lower adaptive 8 -", GATE_ON_EACH_WAY),
        (EQUAL_RESULTS, "lower adaptive 7 -", TWO_READS),
        (SUM_OF_A_RESULT, "lower adaptive 5 ints", KEPT_SUM),
        (
            SWITCH_ON_A_RESULT,
            "lower adaptive 6 switch,ints",
            KEPT_SWITCH,
        ),
        (UNTIL_ZERO, "lower adaptive 6 loops", KEPT_LOOP),
        (ENDLESS_LOOP, "lower adaptive 2 loops", KEPT_EMPTY_LOOP),
    ];
    for (program, line, lowered) in rows {
        let text = program.text(alloc)?;
        let expected = lowered.text(alloc)?;
        let done = answer(alloc, line, text.as_slice())?;
        assert_eq!(rt; done.status, Status::Done);
        assert_eq!(rt; done.written.as_slice(), expected.as_slice());
    }
    Ok(())
}

/// A counting loop and the function that it calls are gone.
#[test]
fn calls_and_counting_loops_are_folded(rt: HostRuntime) -> Result<(), Fail> {
    let alloc = rt.alloc();
    let expected = THREE_TURNS.text(alloc)?;
    let done = answer(alloc, "lower base 20", COUNTED_TURNS)?;
    assert_eq!(rt; done.status, Status::Done);
    assert_eq!(rt; done.written.as_slice(), expected.as_slice());
    Ok(())
}

/// What is written passes its profile, is canonical, and for Base is lowered to itself.
#[test]
fn lowered_texts_pass_and_are_canonical(rt: HostRuntime) -> Result<(), Fail> {
    let alloc = rt.alloc();
    let rows: [Lowered<'_>; 15] = [
        TWO_NUMBERS,
        BEHIND_THE_REQUIRED_QUBITS,
        SIDE_BY_SIDE,
        THREE_TURNS,
        RECORDED,
        RETURNS_THREE,
        KEPT_CODE,
        MEASURED_FIRST,
        CORRECTIONS,
        GATE_ON_EACH_WAY,
        TWO_READS,
        KEPT_SUM,
        KEPT_SWITCH,
        KEPT_LOOP,
        KEPT_EMPTY_LOOP,
    ];
    for lowered in rows {
        let text = lowered.text(alloc)?;
        let words = if lowered.profile == "base" {
            "check base strict"
        } else {
            "check adaptive"
        };
        let checked = answer(alloc, words, text.as_slice())?;
        assert_eq!(rt; checked.written.as_slice(), b"OK\n".as_slice());
        let printed = answer(alloc, "print", text.as_slice())?;
        assert_eq!(rt; printed.written.as_slice(), text.as_slice());
    }
    Ok(())
}

#[test]
fn a_lowered_text_is_lowered_to_itself(rt: HostRuntime) -> Result<(), Fail> {
    let alloc = rt.alloc();
    let text = TWO_NUMBERS.text(alloc)?;
    let done = answer(alloc, "lower base 7", text.as_slice())?;
    assert_eq!(rt; done.status, Status::Done);
    assert_eq!(rt; done.written.as_slice(), text.as_slice());
    let over = answer(alloc, "lower base 6", text.as_slice())?;
    assert_eq!(rt; over.status, Status::Refused);
    assert_eq!(rt;
        over.written.as_slice(),
        b"REFUSED\tlower\tU4\t18\t3\tBudget\n".as_slice()
    );
    Ok(())
}

/// Whatever the source gives at once, and the sink takes.
#[test]
fn pieces_make_no_difference(rt: HostRuntime) -> Result<(), Fail> {
    let alloc = rt.alloc();
    let text = TWO_ALLOCATIONS.text(alloc)?;
    let expected = TWO_NUMBERS.text(alloc)?;
    let words: [&str; 3] = ["lower", "base", "7"];
    for piece in [1, 100, 100_000] {
        let ports = Ports {
            read_piece: piece,
            write_piece: piece,
            ..Ports::honest()
        };
        let done = run(alloc, words.as_slice(), text.as_slice(), ports)?;
        assert_eq!(rt; done.status, Status::Done);
        assert_eq!(rt; done.written.as_slice(), expected.as_slice());
        assert!(rt; done.left.is_empty());
    }
    Ok(())
}

/// A program of so many like pieces.
fn repeated(alloc: Global, count: u32, pattern: &[u8]) -> Result<Bytes, Memory> {
    let mut body = copies(alloc, count, pattern)?;
    body.extend_from_slice(b"  ret i64 0\n")?;
    Program {
        qubits: 1,
        results: 1,
        body: body.as_slice(),
    }
    .text(alloc)
}

/// How many instructions a canonical text has, phis aside.
fn instructions(text: &[u8]) -> usize {
    text.split(|byte| *byte == b'\n')
        .filter(|line| line.starts_with(b"  ")
            && !line.windows(5).any(|word| word == b" phi ".as_slice()))
        .count()
}

/// Twenty conditionals have two ways each, and not a million.
#[test]
fn ways_that_meet_again_stay_together(rt: HostRuntime) -> Result<(), Fail> {
    let alloc = rt.alloc();
    let text = repeated(alloc, 20, CONDITIONAL)?;
    let done = answer(alloc, "lower adaptive 141 -", text.as_slice())?;
    assert_eq!(rt; done.status, Status::Done);
    assert!(rt; instructions(done.written.as_slice()) <= 580);
    let over = answer(alloc, "lower adaptive 140 -", text.as_slice())?;
    assert_eq!(rt; over.status, Status::Refused);
    assert_eq!(rt;
        over.written.as_slice(),
        b"REFUSED\tlower\tU4\t12\t3\tBudget\n".as_slice()
    );
    Ok(())
}

/// Each gate is one instruction of the source and of the lowered text, which has three branches, an initialization and
/// a return besides.
#[test]
fn many_gates_are_lowered(rt: HostRuntime) -> Result<(), Fail> {
    let alloc = rt.alloc();
    let text = repeated(
        alloc,
        9_999,
        b"  call void @__quantum__qis__h__body(%Qubit* null)\n",
    )?;
    let done = answer(alloc, "lower base 10000", text.as_slice())?;
    assert_eq!(rt; done.status, Status::Done);
    assert_eq!(rt; instructions(done.written.as_slice()), 10_004);
    let over = answer(alloc, "lower base 9999", text.as_slice())?;
    assert_eq!(rt; over.status, Status::Refused);
    assert_eq!(rt;
        over.written.as_slice(),
        b"REFUSED\tlower\tU4\t10002\t3\tBudget\n".as_slice()
    );
    Ok(())
}
