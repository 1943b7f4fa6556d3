//! What the examples are given: words, texts, sources and sinks.
use ir_values::{Bytes, Memory};
use qir_cli::{Status, qir};
use qir_ports::{Calls, MemSink, MemSource};
use std::alloc::{AllocError, Global};
use std::test::Fail;

/// The bytes that a source and a sink move at once, where an example says nothing else.
pub const PIECE: usize = 4096;

/// The room of a sink.
const ROOM: usize = 1_048_576;

/// What a call of the program answered, and what it wrote.
#[derive(Drop)]
pub struct Outcome {
    pub status: Status,
    pub written: Bytes,
    /// What the source had left.
    pub left: Bytes,
}

/// How the source and the sink behave.
#[derive(Clone, Copy)]
pub struct Ports<'a> {
    pub read_piece: usize,
    pub failing_reads: &'a [u64],
    pub write_piece: usize,
    pub failing_writes: &'a [u64],
}

impl Ports<'_> {
    pub fn honest() -> Ports<'static> {
        Ports {
            read_piece: PIECE,
            failing_reads: &[],
            write_piece: PIECE,
            failing_writes: &[],
        }
    }
}

/// Runs the program.
pub fn run(alloc: Global, words: &[&str], text: &[u8], ports: Ports<'_>) -> Result<Outcome, Fail> {
    let mut all = Vec::new(alloc);
    for word in words {
        all.push(String::from_str(alloc, word)?)?;
    }
    if ports.read_piece == 0 || ports.write_piece == 0 {
        return Err(Fail::from("a piece has at least one byte"));
    }
    let reads = calls(alloc, ports.failing_reads)?;
    let writes = calls(alloc, ports.failing_writes)?;
    let mut source = MemSource::new(bytes(alloc, text)?, ports.read_piece, reads);
    let mut sink = MemSink::new(alloc, ports.write_piece, ROOM, writes)?;
    let status = qir(alloc, &all, &mut source, &mut sink);
    let left = qir_ports::read_all(alloc, &mut source, 4_294_967_295)?;
    Ok(Outcome {
        status,
        written: bytes(alloc, sink.taken())?,
        left,
    })
}

/// What the command that this line writes, with one blank between two words, does with a text.
pub fn answer(alloc: Global, line: &str, text: &[u8]) -> Result<Outcome, Fail> {
    let mut words = Vec::new(alloc);
    for word in line.split(' ') {
        words.push(word)?;
    }
    run(alloc, words.as_slice(), text, Ports::honest())
}

pub fn bytes(alloc: Global, text: &[u8]) -> Result<Bytes, Memory> {
    let mut bytes = Bytes::new(alloc);
    bytes.extend_from_slice(text)?;
    Ok(bytes)
}

/// A text of so many blanks.
pub fn blanks(alloc: Global, count: usize) -> Result<Bytes, Memory> {
    let mut text = Bytes::new(alloc);
    for _ in 0..count {
        text.push(b' ')?;
    }
    Ok(text)
}

fn calls(alloc: Global, numbers: &[u64]) -> Result<Calls, Memory> {
    let mut calls = Calls::new(alloc);
    calls.extend_from_slice(numbers)?;
    Ok(calls)
}
