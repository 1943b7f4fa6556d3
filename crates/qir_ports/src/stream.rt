//! Readers and writers as sources and sinks, and so standard input and output.
//!
//! What a reader has left and what a writer holds is told as far as the reader and the writer tell it.
//! Those of the standard streams tell nothing, since what a terminal, a file or a pipe gives or takes
//! stands outside every contract.
ghost use Rattle.std.specs.Prelude.{◌≡◌, ◌<◌, ◌≤◌, [], Bool, true, false, refl, length, take, drop, is_some, IsOk, IfOk, OnOk, OnErr};
ghost use Rattle.ir_values.specs.Counts.{one_more};
ghost use Rattle.qir_ports.specs.Known.{Gives, Takes, IsAtEnd};

use crate::port::{Failed, Sink, Source};
use std::alloc::Allocator;
use std::io::{Read, StdinLock, Stdout, Write};
use std::marker::Model;

/// A reader that tells at every moment which bytes it has left, or at none.
pub trait SteadyRead: Read {
    /// Whether it tells them.
    ghost tells: { Bool };

    /// It tells them at every moment or at none.
    ghost steady: { (reader : Self) → is_some (Self.remaining reader) ≡ tells };
}

impl SteadyRead for StdinLock<'static> {
    ghost tells = { false };

    ghost steady = { λ _. refl };
}

impl SteadyRead for &[u8] {
    ghost tells = { true };

    ghost steady = { λ _. refl };
}

/// A writer that tells at every moment which bytes it holds, or at none.
pub trait SteadyWrite: Write {
    /// Whether it tells them.
    ghost tells: { Bool };

    /// It tells them at every moment or at none.
    ghost steady: { (writer : Self) → is_some (Self.contents writer) ≡ tells };
}

impl SteadyWrite for Stdout {
    ghost tells = { false };

    ghost steady = { λ _. refl };
}

impl<A: Allocator> SteadyWrite for Vec<u8, A> {
    ghost tells = { true };

    ghost steady = { λ _. refl };
}

/// A reader as a source: standard input, or another.
///
/// Contracts see the bytes that the reader has left, where it tells them, and the count of faults.
#[derive(Drop)]
pub struct StdSource<R: SteadyRead> {
    reader: R,
    faults: u64,
}

impl<R: SteadyRead> Model for StdSource<R> {
    ghost use Rattle.qir_ports.specs.Streams.{StreamState};

    ghost Value = { StreamState };

    ghost view = { λ s. record { known = R.remaining s.reader; faults = s.faults } };
}

impl<R: SteadyRead> StdSource<R> {
    /// The input that `reader` reads, as a runtime's `reader()`, with no fault so far.
    pub fn new(reader: R) -> StdSource<R>
        ensures { result ≡ record { known = R.remaining reader; faults = 0 } }
    {
        StdSource { reader, faults: 0 }
    }
}

impl<R: SteadyRead> Source for StdSource<R> {
    ghost left = { λ s. s.known };

    ghost faults = { λ s. s.faults };

    /// Reads once. Every error of the reader is a fault, and nothing else is.
    fn read(&mut self, buf: &mut [u8]) -> Result<usize, Failed>
        ensures within { IfOk result (λ n. n ≤ length buf.old) }
        ensures gives { IfOk result (λ n. Gives self.old.known (take n buf.new) self.new.known) }
        ensures none_at_end { IfOk result (λ n.
            n ≡ 0 → 0 < length buf.old → IsAtEnd self.old.known) }
        ensures ok { OnOk result (self.new.faults ≡ self.old.faults) }
        ensures err { OnErr result (self.new
            ≡ record self.old { faults = one_more self.old.faults }) }
        ensures later { self.old.faults ≤ self.new.faults }
    {
        match self.reader.read(buf) {
            Ok(n) => Ok(n),
            Err(_) => {
                self.faults = self.faults.saturating_add(1);
                Err(Failed)
            }
        }
    }
}

/// A writer as a sink: standard output, or another.
///
/// Contracts see the bytes that the writer holds, where it tells them, and the count of faults.
#[derive(Drop)]
pub struct StdSink<W: SteadyWrite> {
    writer: W,
    faults: u64,
}

impl<W: SteadyWrite> Model for StdSink<W> {
    ghost use Rattle.qir_ports.specs.Streams.{StreamState};

    ghost Value = { StreamState };

    ghost view = { λ k. record { known = W.contents k.writer; faults = k.faults } };
}

impl<W: SteadyWrite> StdSink<W> {
    /// The output that `writer` writes, as a runtime's `stdout()`, with no fault so far. The writer is
    /// never flushed, so it is one that keeps nothing back.
    pub fn new(writer: W) -> StdSink<W>
        ensures { result ≡ record { known = W.contents writer; faults = 0 } }
    {
        StdSink { writer, faults: 0 }
    }
}

impl<W: SteadyWrite> Sink for StdSink<W> {
    ghost taken = { λ k. k.known };

    ghost faults = { λ k. k.faults };

    /// Writes once. Every error of the writer is a fault, so is a write that takes nothing, and nothing
    /// else is. Empty `bytes` are not written at all.
    fn write(&mut self, bytes: &[u8]) -> Result<usize, Failed>
        ensures within { IfOk result (λ n. n ≤ length bytes.now) }
        ensures some { IfOk result (λ n. 0 < length bytes.now → 0 < n) }
        ensures takes { IfOk result (λ n.
            Takes self.old.known (take n bytes.now) self.new.known) }
        ensures ok { OnOk result (self.new.faults ≡ self.old.faults) }
        ensures err { OnErr result (self.new
            ≡ record self.old { faults = one_more self.old.faults }) }
        ensures empty { bytes.now ≡ [] → IsOk result }
        ensures later { self.old.faults ≤ self.new.faults }
    {
        if bytes.is_empty() {
            return Ok(0);
        }
        match self.writer.write(bytes) {
            Ok(n) if n > 0 => Ok(n),
            _ => {
                self.faults = self.faults.saturating_add(1);
                Err(Failed)
            }
        }
    }
}
