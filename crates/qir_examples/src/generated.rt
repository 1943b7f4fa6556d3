//! `gen`.
use crate::given::answer;
use generated_text::generated_text;
use ir_values::{Bytes, push_decimal};
use qir_cli::Status;
use std::test::Fail;

/// What stands before the number of bytes, by the number of turns.
const ROWS: [(u32, &str, &[u8]); 4] = [
    (
        0,
        "gen 0",
        b"GEN\t0\nCONFIGURATIONS\t5\nSTEPS\t5\nEVENTS\t0\nRECORDS\t0\nBYTES\t",
    ),
    (
        7,
        "gen 7",
        b"GEN\t7\nCONFIGURATIONS\t116\nSTEPS\t108\nEVENTS\t13\nRECORDS\t7\nBYTES\t",
    ),
    (
        100,
        "gen 100",
        b"GEN\t100\nCONFIGURATIONS\t1605\nSTEPS\t1505\nEVENTS\t200\nRECORDS\t100\nBYTES\t",
    ),
    (
        500,
        "gen 500",
        b"GEN\t500\nCONFIGURATIONS\t8005\nSTEPS\t7505\nEVENTS\t1000\nRECORDS\t500\nBYTES\t",
    ),
];

/// The number of bytes is that of the text which `lower` writes for the generated text.
#[test]
fn summaries_tell_the_numbers_of_generated_programs(rt: HostRuntime) -> Result<(), Fail> {
    let alloc = rt.alloc();
    for (turns, words, numbers) in &ROWS {
        let text = generated_text(alloc, *turns)?;
        let lowered = answer(alloc, "lower adaptive 10000 -", text.as_slice())?;
        let mut expected = Bytes::new(alloc);
        expected.extend_from_slice(numbers)?;
        push_decimal(&mut expected, lowered.written.len() as u128)?;
        expected.extend_from_slice(b"\nSAME\ttrue\n")?;
        let summary = answer(alloc, words, b"")?;
        assert_eq!(rt; summary.status, Status::Done);
        assert_eq!(rt; summary.written.as_slice(), expected.as_slice());
    }
    Ok(())
}

#[test]
fn summaries_read_nothing(rt: HostRuntime) -> Result<(), Fail> {
    let summary = answer(rt.alloc(), "gen 0", b"any")?;
    assert_eq!(rt; summary.status, Status::Done);
    assert_eq!(rt; summary.left.as_slice(), b"any".as_slice());
    Ok(())
}
