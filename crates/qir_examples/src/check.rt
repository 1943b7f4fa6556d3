//! `check`.
use crate::given::{Ports, run};
use crate::texts::{BELL, CHOSEN_QUBIT, LATE_GATE, ONE_BLOCK, UNTIL_ZERO};
use qir_cli::Status;
use std::test::Fail;

const STRICT: [&str; 3] = ["check", "base", "strict"];

const CHAIN: [&str; 3] = ["check", "base", "chain"];

const ADAPTIVE: [&str; 2] = ["check", "adaptive"];

const OK: &[u8] = b"OK\n";

/// The rules that a program breaks, in the order of the places where it does.
#[test]
fn the_rules_that_a_module_breaks_are_told(rt: HostRuntime) -> Result<(), Fail> {
    let alloc = rt.alloc();
    let late_gate = LATE_GATE.text(alloc)?;
    let until_zero = UNTIL_ZERO.text(alloc)?;
    let chosen_qubit = CHOSEN_QUBIT.text(alloc)?;
    let rows: [(&[&str], &[u8], &[u8]); 9] = [
        (&STRICT, BELL, OK),
        (&CHAIN, BELL, OK),
        (&CHAIN, ONE_BLOCK, OK),
        (
            &STRICT,
            ONE_BLOCK,
            b"FINDING\t7\t13\tB7\nFINDING\t7\t13\tB8\nFINDING\t9\t3\tB12\nFINDING\t10\t3\tB12\n",
        ),
        (
            &STRICT,
            late_gate.as_slice(),
            b"FINDING\t1\t1\tB4\nFINDING\t1\t12\tB1\nFINDING\t1\t12\tB2\nFINDING\t1\t12\tB7\nFINDING\t3\t3\tB12\nFINDING\t4\t3\tB12\n",
        ),
        (
            &CHAIN,
            late_gate.as_slice(),
            b"FINDING\t1\t1\tB4\nFINDING\t1\t12\tB1\nFINDING\t1\t12\tB2\n",
        ),
        (
            &CHAIN,
            until_zero.as_slice(),
            b"FINDING\t1\t1\tB4\nFINDING\t1\t12\tB1\nFINDING\t1\t12\tB2\nFINDING\t1\t12\tB7\nFINDING\t7\t3\tB10\nFINDING\t8\t3\tB6\n",
        ),
        (
            &ADAPTIVE,
            until_zero.as_slice(),
            b"FINDING\t1\t1\tA4\nFINDING\t1\t12\tA1\nFINDING\t1\t12\tA2\nFINDING\t8\t3\tA6\n",
        ),
        (
            &ADAPTIVE,
            chosen_qubit.as_slice(),
            b"FINDING\t1\t1\tA4\nFINDING\t1\t12\tA1\nFINDING\t1\t12\tA2\nFINDING\t5\t3\tA10\nFINDING\t6\t3\tA13\n",
        ),
    ];
    for (words, text, lines) in rows {
        let told = run(alloc, words, text, Ports::honest())?;
        let expected = if lines == OK {
            Status::Done
        } else {
            Status::Refused
        };
        assert_eq!(rt; told.status, expected);
        assert_eq!(rt; told.written.as_slice(), lines);
    }
    Ok(())
}

#[test]
fn other_words_are_no_check(rt: HostRuntime) -> Result<(), Fail> {
    let rows: [&[&str]; 5] = [
        &["check"],
        &["check", "base"],
        &["check", "base", "loose"],
        &["check", "adaptive", "strict"],
        &["check", "base", "strict", "chain"],
    ];
    for words in rows {
        let bad = run(rt.alloc(), words, BELL, Ports::honest())?;
        assert_eq!(rt; bad.status, Status::BadWords);
        assert!(rt; bad.written.is_empty());
        assert_eq!(rt; bad.left.as_slice(), BELL);
    }
    Ok(())
}
