//! Words of bits.
use crate::texts::Text;
use qir_cli::Status;
use qir_examples::given::answer;
use std::alloc::Global;
use std::test::Fail;

/// The words, with so many zeros behind them.
fn with_zeros(alloc: Global, words: &str, count: usize) -> Result<String, Fail> {
    let mut line = String::from_str(alloc, words)?;
    for _ in 0..count {
        line.push('0')?;
    }
    Ok(line)
}

/// What comes before the zeros, how many there are, and the status.
#[test]
fn words_of_bits_have_at_most_65_536_characters(rt: HostRuntime) -> Result<(), Fail> {
    let text = Text::Body("").bytes(rt.alloc())?;
    let rows = [
        ("run script ordered 1 ", 65_536, Status::Done),
        ("run script ordered 1 ", 65_537, Status::BadWords),
        ("run script ordered 1 -,", 65_534, Status::Done),
        ("run script ordered 1 -,", 65_535, Status::BadWords),
        ("trace script 1 ", 65_536, Status::Done),
        ("trace script 1 ", 65_537, Status::BadWords),
    ];
    for (words, count, status) in rows {
        let line = with_zeros(rt.alloc(), words, count)?;
        let told = answer(rt.alloc(), line.as_str(), text.as_slice())?;
        assert_eq!(rt; told.status, status, "{words}");
    }
    Ok(())
}
