//! A source and a sink in memory, which tell their bytes and can be told to fail.
ghost use Rattle.std.specs.Prelude.{◌≡◌, ◌+◌, ◌-◌, ◌<◌, ◌≤◌, ◌++◌, [], ◌&&◌, ◌||◌, ◌==◌, not, length, take, drop, min, is_err, Some, IfOk, OnErr, OnOk};
ghost use Rattle.qir_ports.specs.InMemory.{MemWrite, next_fails};
ghost use Rattle.ir_values.specs.Counts.{one_more};

use crate::port::{Failed, Sink, Source};
use ir_values::{Bytes, Memory, Room, Seq};
use std::alloc::Global;
use std::marker::Model;

/// Numbers of calls, the first call being 1.
pub type Calls = Seq<u64>;

/// A source of given bytes.
///
/// Contracts see the bytes left, the most bytes that a call gives, the numbers of the calls that
/// fail, and how many calls there were and failed, up to `u64::MAX`.
#[derive(Debug, Drop)]
pub struct MemSource {
    text: Bytes,
    at: usize,
    piece: usize,
    failing: Calls,
    calls: u64,
    faults: u64,
}

impl Model for MemSource {
    ghost use Rattle.std.specs.Prelude.{◌≤◌, drop, length};
    ghost use Rattle.qir_ports.specs.InMemory.{SourceState};

    ghost Value = { SourceState };

    ghost view = { λ s. record {
      rest = drop s.at s.text;
      piece = s.piece;
      failing = s.failing;
      calls = s.calls;
      faults = s.faults;
    } };

    ghost invariant = { λ s. (s.at ≤ length s.text) × (1 ≤ s.piece) };
}

impl MemSource {
    /// A source of the bytes of `text`, of which a call gives at most `piece`. The calls that
    /// `failing` numbers fail, and no other. It takes no memory.
    pub fn new(text: Bytes, piece: usize, failing: Calls) -> MemSource
        requires { 1 ≤ piece }
        ensures { result ≡ record {
          rest = text;
          piece = piece;
          failing = failing;
          calls = 0;
          faults = 0;
        } }
    {
        MemSource {
            text,
            at: 0,
            piece,
            failing,
            calls: 0,
            faults: 0,
        }
    }
}

impl Source for MemSource {
    ghost left = { λ s. Some s.rest };

    ghost faults = { λ s. s.faults };

    /// Gives the least of the buffer's length, `piece` and the number of bytes left. The rest of `buf`
    /// stays as it was. It fails exactly where the call has a number that `failing` lists, and a call
    /// after number `u64::MAX` has none.
    fn read(&mut self, buf: &mut [u8]) -> Result<usize, Failed>
        ensures fails { is_err result ≡ next_fails self.old.failing self.old.calls }
        ensures count { IfOk result (λ n.
            n ≡ min (length buf.old) (min self.old.piece (length self.old.rest))) }
        ensures given { IfOk result (λ n. buf.new ≡ take n self.old.rest ++ drop n buf.old) }
        ensures ok { IfOk result (λ n. self.new
            ≡ record self.old { rest = drop n self.old.rest; calls = one_more self.old.calls }) }
        ensures err { OnErr result (self.new
            ≡ record self.old {
              calls = one_more self.old.calls;
              faults = one_more self.old.faults;
            }) }
        ensures unwritten { OnErr result (buf.new ≡ buf.old) }
        ensures none_at_end { IfOk result (λ n.
            n ≡ 0 → 0 < length buf.old → self.old.rest ≡ []) }
        ensures later { self.old.faults ≤ self.new.faults }
    {
        let fails = next_fails(self.failing.as_slice(), self.calls);
        self.calls = self.calls.saturating_add(1);
        if fails {
            self.faults = self.faults.saturating_add(1);
            return Err(Failed);
        }
        let rest = &self.text.as_slice()[self.at..];
        let n = buf.len().min(self.piece).min(rest.len());
        buf[..n].copy_from_slice(&rest[..n]);
        self.at += n;
        Ok(n)
    }
}

/// A sink that keeps what it takes, in memory that it has from the start.
///
/// Contracts see the bytes taken, the most bytes that a call takes and that all calls take, the
/// numbers of the calls that fail, and how many calls there were and failed, up to `u64::MAX`.
#[derive(Debug, Drop)]
pub struct MemSink {
    kept: Room<u8>,
    piece: usize,
    room: usize,
    failing: Calls,
    calls: u64,
    faults: u64,
}

impl Model for MemSink {
    ghost use Rattle.std.specs.Prelude.{◌+◌, ◌≤◌, length};
    ghost use Rattle.qir_ports.specs.InMemory.{SinkState};

    ghost Value = { SinkState };

    ghost view = { λ k. record {
      taken = k.kept.items;
      piece = k.piece;
      room = k.room;
      failing = k.failing;
      calls = k.calls;
      faults = k.faults;
    } };

    ghost invariant = { λ k. (1 ≤ k.piece) × (length k.kept.items ≤ k.room)
        × (k.room ≤ length k.kept.items + k.kept.spare) };
}

impl MemSink {
    /// A sink for `room` bytes, of which a call takes at most `piece`. The calls that `failing`
    /// numbers fail. [`Memory`] comes where there is none for `room` bytes.
    pub fn new(alloc: Global, piece: usize, room: usize, failing: Calls) -> Result<MemSink, Memory>
        requires { 1 ≤ piece }
        ensures { IfOk result (λ k. k ≡ record {
          taken = [];
          piece = piece;
          room = room;
          failing = failing;
          calls = 0;
          faults = 0;
        }) }
    {
        let mut kept = Room::new(alloc);
        kept.reserve(room)?;
        Ok(MemSink {
            kept,
            piece,
            room,
            failing,
            calls: 0,
            faults: 0,
        })
    }

    /// The bytes taken.
    pub fn taken(&self) -> &[u8]
        ensures { result.now ≡ self.now.taken }
    {
        self.kept.as_slice()
    }
}

impl Sink for MemSink {
    ghost taken = { λ k. Some k.taken };

    ghost faults = { λ k. k.faults };

    ghost may_write = { MemWrite };

    /// Takes the least of the number of `bytes`, `piece` and the room left, and no memory. It fails
    /// exactly where `bytes` is not empty and either the call has a number that `failing` lists or no
    /// room is left. Empty `bytes` are a call too, at which nothing is taken.
    fn write(&mut self, bytes: &[u8]) -> Result<usize, Failed>
        ensures writes { MemWrite self.old bytes.now result self.new }
        ensures some { IfOk result (λ n. 0 < length bytes.now → 0 < n) }
        ensures later { self.old.faults ≤ self.new.faults }
    {
        let fails = next_fails(self.failing.as_slice(), self.calls);
        self.calls = self.calls.saturating_add(1);
        let room = self.room - self.kept.as_slice().len();
        if !bytes.is_empty() && (fails || room == 0) {
            self.faults = self.faults.saturating_add(1);
            return Err(Failed);
        }
        let n = bytes.len().min(self.piece).min(room);
        self.kept.extend_from_slice(&bytes[..n]).unwrap();
        Ok(n)
    }
}

/// Whether `failing` numbers the call after `calls` others.
fn next_fails(failing: &[u64], calls: u64) -> bool
    ensures { result ≡ next_fails failing.now calls }
{
    calls < u64::MAX && failing.contains(&(calls + 1))
}
