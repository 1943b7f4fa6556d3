//! Whole texts read and written, and faults of streams.
ghost use Rattle.std.specs.Prelude.{◌≤◌, false, refl, IfOk};

use ir_values::{Bytes, Memory};
use qir_ports::{
    Calls, Failed, MemSink, MemSource, ReadError, Sink, Source, StdSink, StdSource, SteadyRead,
    SteadyWrite, read_all, write_all,
};
use std::alloc::Global;
use std::io;
use std::io::{ErrorKind, Read, Write};
use std::test::Fail;

fn text_of(alloc: Global, len: usize) -> Result<Bytes, Memory> {
    let mut text = Bytes::new(alloc);
    for i in 0..len {
        text.push((i % 251) as u8)?;
    }
    Ok(text)
}

fn calls_of(alloc: Global, numbers: &[u64]) -> Result<Calls, Memory> {
    let mut calls = Calls::new(alloc);
    calls.extend_from_slice(numbers)?;
    Ok(calls)
}

#[test]
fn a_text_is_read_to_its_end_or_refused(rt: HostRuntime) -> Result<(), Fail> {
    let alloc = rt.alloc();

    // The text's length, the piece, the failing calls, the limit, and the refusal.
    let cases: [(usize, usize, &[u64], usize, Option<ReadError>); 16] = [
        (0, 1, &[], 0, None),
        (1, 1, &[], 0, Some(ReadError::TooLong)),
        (10, 1, &[], 10, None),
        (10, 1, &[], 9, Some(ReadError::TooLong)),
        (10, 16, &[], 10, None),
        (10, 16, &[], 9, Some(ReadError::TooLong)),
        (10, 4096, &[], 11, None),
        (10, 4096, &[1], 10, Some(ReadError::Failed)),
        (10, 4096, &[2], 10, Some(ReadError::Failed)),
        (10, 4096, &[3], 10, None),
        (10, 1, &[11], 10, Some(ReadError::Failed)),
        (10, 1, &[12], 10, None),
        (10, 1, &[10], 8, Some(ReadError::TooLong)),
        (200_000, 4096, &[], 200_000, None),
        (200_000, 4096, &[], 199_999, Some(ReadError::TooLong)),
        (200_000, 200_000, &[5], 200_000, Some(ReadError::Failed)),
    ];
    for (i, (len, piece, failing, limit, refusal)) in cases.into_iter().enumerate() {
        assert!(rt; piece >= 1 && limit < 1 << 32);
        let text = text_of(alloc, len)?;
        let mut source = MemSource::new(text, piece, calls_of(alloc, failing)?);
        match read_all(alloc, &mut source, limit) {
            Ok(read) => {
                assert_eq!(rt; refusal, None, "case {i}");
                assert_eq!(rt;
                    read.as_slice(),
                    text_of(alloc, len)?.as_slice(),
                    "case {i}"
                );
            }
            Err(error) => assert_eq!(rt; Some(error), refusal, "case {i}"),
        }
    }
    Ok(())
}

#[test]
fn a_text_is_written_to_its_end_or_to_a_failure(rt: HostRuntime) -> Result<(), Fail> {
    let alloc = rt.alloc();

    // The text's length, the piece, the room, the failing calls, and how many bytes are written.
    let cases: [(usize, usize, usize, &[u64], usize); 12] = [
        (0, 1, 0, &[1], 0),
        (10, 1, 10, &[], 10),
        (10, 1, 9, &[], 9),
        (10, 16, 10, &[], 10),
        (10, 16, 9, &[], 9),
        (10, 4096, 0, &[], 0),
        (17, 16, 1_048_576, &[2], 16),
        (10, 4, 100, &[1], 0),
        (10, 4, 100, &[3], 8),
        (10, 4, 100, &[4], 10),
        (200_000, 4096, 1_048_576, &[], 200_000),
        (200_000, 4096, 1_048_576, &[3, 5], 8192),
    ];
    for (i, (len, piece, room, failing, written)) in cases.into_iter().enumerate() {
        assert!(rt; piece >= 1 && written <= len);
        let text = text_of(alloc, len)?;
        let mut sink = MemSink::new(alloc, piece, room, calls_of(alloc, failing)?)?;
        let answer = match write_all(&mut sink, text.as_slice()) {
            Ok(()) => len,
            Err(stop) => stop.written,
        };
        assert_eq!(rt; answer, written, "case {i}");
        assert_eq!(rt;
            sink.taken(),
            text_of(alloc, written)?.as_slice(),
            "case {i}"
        );
    }
    Ok(())
}

/// Reads and writes as many bytes as it is good for, and fails then.
#[derive(Drop)]
struct Broken {
    good: usize,
}

impl Broken {
    fn spend(&mut self, most: usize) -> io::Result<usize>
        ensures { IfOk result (λ n. n ≤ most) }
    {
        let n = self.good.min(most);
        if n == 0 {
            return Err(io::Error::from(ErrorKind::BrokenPipe));
        }
        self.good -= n;
        Ok(n)
    }
}

impl Read for Broken {
    fn read(&mut self, buf: &mut [u8]) -> io::Result<usize> {
        self.spend(buf.len())
    }
}

impl SteadyRead for Broken {
    ghost tells = { false };

    ghost steady = { λ _. refl };
}

impl Write for Broken {
    fn write(&mut self, buf: &[u8]) -> io::Result<usize> {
        self.spend(buf.len())
    }

    fn flush(&mut self) -> io::Result<()> {
        Ok(())
    }
}

impl SteadyWrite for Broken {
    ghost tells = { false };

    ghost steady = { λ _. refl };
}

#[test]
fn a_fault_of_a_stream_is_a_failure(rt: HostRuntime) -> Result<(), Fail> {
    let mut source = StdSource::new(Broken { good: 3 });
    let mut buffer = [0u8; 2];
    assert_eq!(rt; source.read(&mut buffer), Ok(2));
    assert_eq!(rt; source.read(&mut buffer), Ok(1));
    assert_eq!(rt; source.read(&mut buffer), Err(Failed));
    let mut sink = StdSink::new(Broken { good: 3 });
    assert_eq!(rt; sink.write(b"four"), Ok(3));
    assert_eq!(rt; sink.write(b"four"), Err(Failed));
    assert_eq!(rt; sink.write(b""), Ok(0));
    Ok(())
}

#[test]
fn a_reader_and_a_writer_are_a_source_and_a_sink(rt: HostRuntime) -> Result<(), Fail> {
    let alloc = rt.alloc();
    let mut source = StdSource::new(b"a text".as_slice());
    let text = read_all(alloc, &mut source, 6)?;
    assert_eq!(rt; text.as_slice(), b"a text".as_slice());
    let mut sink = StdSink::new(Vec::new(alloc));
    assert_eq!(rt; write_all(&mut sink, text.as_slice()), Ok(()));
    Ok(())
}

#[test]
fn the_standard_streams_are_a_source_and_a_sink(rt: HostRuntime) -> Result<(), Fail> {
    let _source = StdSource::new(rt.reader());
    let mut sink = StdSink::new(rt.stdout());
    assert_eq!(rt; write_all(&mut sink, b""), Ok(()));
    Ok(())
}
