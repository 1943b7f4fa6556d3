//! Writing lines one by one.
ghost use Rattle.std.specs.Prelude.{◌≡◌, ◌≤◌, List, ℕ, [], ◌∷◌, map, IfOk};
ghost use Rattle.output_lines.specs.Writing.{Writes};
ghost use Rattle.output_lines.specs.declared.line.ShotStop.TheVariants as stop;

use ir_values::{Bytes, Memory};
use qir_ports::{Sink, WriteStop, write_all};
use std::alloc::Global;
use thiserror::Error;

/// Why lines were not all written.
#[derive(Clone, Copy, Debug, PartialEq, Eq, Hash, Error)]
pub enum ShotStop {
    /// A write failed.
    #[error("writing failed")]
    Write,
    /// There was no memory for a line.
    #[error("out of memory")]
    Memory,
}

impl From<Memory> for ShotStop {
    ghost from_gives = { λ _ s. s ≡ stop.Memory };

    fn from(_e: Memory) -> ShotStop {
        ShotStop::Memory
    }
}

impl From<WriteStop> for ShotStop {
    ghost from_gives = { λ _ s. s ≡ stop.Write };

    fn from(_e: WriteStop) -> ShotStop {
        ShotStop::Write
    }
}

/// What a line of its own tells of, in some context.
pub(crate) trait Line<C> {
    /// The line, with its line feed.
    ghost line_of: { C → Self → List ℕ };

    fn line(&self, alloc: Global, context: &C) -> Result<Bytes, Memory>
        ensures { IfOk result (λ text. text ≡ line_of context.now self.now) };
}

/// Writes a line, offered whole.
pub(crate) fn write_line<K: Sink>(k: &mut K, line: &[u8]) -> Result<(), ShotStop>
    ensures writes { Writes (line.now ∷ []) (K.taken k.old) (K.taken k.new) (K.faults k.old)
        (K.faults k.new) result }
    ensures later { K.faults k.old ≤ K.faults k.new }
{
    write_all(k, line)?;
    Ok(())
}

/// Writes the line of each item.
pub(crate) fn write_lines<K: Sink, C, T: Line<C>>(
    alloc: Global,
    k: &mut K,
    context: &C,
    mut items: &[T],
) -> Result<(), ShotStop>
    ensures writes { Writes (map (T.line_of context.now) items.entry.now) (K.taken k.old)
        (K.taken k.new) (K.faults k.old) (K.faults k.new) result }
    ensures later { K.faults k.old ≤ K.faults k.new }
{
    while let Some((item, rest)) = items.split_first() {
        let text = item.line(alloc, context)?;
        write_line(k, text.as_slice())?;
        items = rest;
    }
    Ok(())
}
