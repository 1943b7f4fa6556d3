//! Each read and each write of a run that fails in turn, in pieces of 100 bytes.
use crate::given::{Ports, run};
use crate::texts::BELL;
use qir_cli::Status;
use std::test::Fail;

/// The reads of the text, the one that finds its end included.
const READS: u64 = 19;

/// The writes of its canonical text, which it is itself.
const WRITES: usize = 18;

#[test]
fn nothing_is_written_after_a_failed_read(rt: HostRuntime) -> Result<(), Fail> {
    let words: [&str; 1] = ["print"];
    for call in 1..=READS {
        let failing_reads: [u64; 1] = [call];
        let ports = Ports {
            read_piece: 100,
            failing_reads: failing_reads.as_slice(),
            ..Ports::honest()
        };
        let told = run(rt.alloc(), words.as_slice(), BELL, ports)?;
        assert_eq!(rt; told.status, Status::ReadFault);
        assert!(rt; told.written.is_empty());
    }
    Ok(())
}

#[test]
fn what_was_written_before_a_failed_write_stands(rt: HostRuntime) -> Result<(), Fail> {
    let words: [&str; 1] = ["print"];
    for call in 0..WRITES {
        let failing_writes: [u64; 1] = [call as u64 + 1];
        let ports = Ports {
            write_piece: 100,
            failing_writes: failing_writes.as_slice(),
            ..Ports::honest()
        };
        let told = run(rt.alloc(), words.as_slice(), BELL, ports)?;
        assert_eq!(rt; told.status, Status::WriteFault);
        let Some(beginning) = BELL.get(..100 * call) else {
            return Err(Fail::from("there are as many writes as pieces"));
        };
        assert_eq!(rt; told.written.as_slice(), beginning);
    }
    Ok(())
}
