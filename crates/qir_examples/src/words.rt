//! Words that are no command, and reads and writes that fail.
use crate::given::{Ports, run};
use crate::texts::TWO_ALLOCATIONS;
use qir_cli::Status;
use std::test::Fail;

#[test]
fn words_that_are_no_command_read_and_write_nothing(rt: HostRuntime) -> Result<(), Fail> {
    let alloc = rt.alloc();
    let text = TWO_ALLOCATIONS.text(alloc)?;
    let cases: [&[&str]; 22] = [
        &[],
        &["lower"],
        &["lower", "base"],
        &["lower", "base", "07"],
        &["lower", "base", "0"],
        &["lower", "base", "+7"],
        &["lower", "base", "1000001"],
        &["lower", "base", "7", "-"],
        &["Lower", "base", "7"],
        &["lower", "adaptive", "7"],
        &["lower", "adaptive", "-", "7"],
        &["lower", "adaptive", "7", ""],
        &["lower", "adaptive", "7", "Ints"],
        &["lower", "adaptive", "7", "ints,"],
        &["lower", "adaptive", "7", "ints,ints"],
        &["lower", "adaptive", "7", "-,ints"],
        &["print", "x"],
        &["gen"],
        &["gen", "10001"],
        &["gen", "007"],
        &["gen", "x"],
        &["gen", "7", "8"],
    ];
    for words in cases {
        let bad = run(alloc, words, text.as_slice(), Ports::honest())?;
        assert_eq!(rt; bad.status, Status::BadWords);
        assert!(rt; bad.written.is_empty());
        assert_eq!(rt; bad.left.as_slice(), text.as_slice());
    }
    Ok(())
}

#[test]
fn faults_have_their_statuses(rt: HostRuntime) -> Result<(), Fail> {
    let alloc = rt.alloc();
    let text = TWO_ALLOCATIONS.text(alloc)?;
    let words: [&str; 3] = ["lower", "base", "7"];
    let failing = Ports {
        read_piece: 100,
        failing_reads: &[2],
        ..Ports::honest()
    };
    let unread = run(alloc, words.as_slice(), text.as_slice(), failing)?;
    assert_eq!(rt; unread.status, Status::ReadFault);
    assert!(rt; unread.written.is_empty());
    let failing = Ports {
        write_piece: 16,
        failing_writes: &[2],
        ..Ports::honest()
    };
    let unwritten = run(alloc, words.as_slice(), text.as_slice(), failing)?;
    assert_eq!(rt; unwritten.status, Status::WriteFault);
    assert_eq!(rt;
        unwritten.written.as_slice(),
        b"%Qubit = type op".as_slice()
    );
    Ok(())
}
