//! The names that are wanted at the starts and at the ends of blocks.
ghost use Rattle.std.specs.Prelude.{◌≡◌, ◌<◌, length, map, slice_get, OnOk, IfOk};
ghost use Rattle.name_flow.specs.code.Runs.{AreEnds, name_first};
ghost use Rattle.name_flow.specs.code.Spread as spec;

use crate::pairs::Pairs;
use crate::triples::Triples;
use ir_values::Memory;
use std::alloc::Global;

/// The pairs of a block and a name that is wanted at its start, and at its end.
#[derive(Drop)]
struct Spread {
    starts: Pairs,
    ends: Pairs,
}

/// Adds the use where no definition in its block comes before it.
fn seed_use(starts: &mut Pairs, defined: &Triples, used: (u64, u64, u64)) -> Result<(), Memory>
    ensures { OnOk result (spec.Seeds defined.now used starts.old starts.new) }
{
    let (b, x, i) = used;
    let is_first = match defined.next(b, x, 0) {
        Some(d) => i <= d,
        None => true,
    };
    if is_first {
        starts.add((b, x))?;
    }
    Ok(())
}

/// Adds each use, of a name, a block and an index, that no definition in its block comes before.
fn seed(starts: &mut Pairs, mut uses: &[(u64, u64, u64)], defined: &Triples) -> Result<(), Memory>
    ensures { OnOk result (spec.IsSeeded (map name_first uses.entry.now) defined.now starts.old starts.new) }
{
    while let [used, rest @ ..] = uses {
        seed_use(starts, defined, (used.1, used.0, used.2))?;
        uses = rest;
    }
    Ok(())
}

impl Spread {
    /// The name `x` is wanted at the end of the block `b`, and at its start if the block doesn't define it.
    fn add(&mut self, defined: &Triples, b: u64, x: u64) -> Result<(), Memory>
        ensures { OnOk result (spec.AddsEnd defined.now b x self.old.starts self.old.ends self.new.starts self.new.ends) }
    {
        self.ends.add((b, x))?;
        if defined.next(b, x, 0).is_none() {
            self.starts.add((b, x))?;
        }
        Ok(())
    }

    /// Adds `x` to each block from which an edge leads to `b`.
    fn enter(&mut self, defined: &Triples, edges: &Triples, b: u64, x: u64) -> Result<(), Memory>
        requires { spec.IsNarrow edges.now }
        ensures { OnOk result (spec.Enters defined.now edges.now b x self.old.starts self.old.ends self.new.starts self.new.ends) }
    {
        let mut from = 0;
        while let Some(p) = edges.next(b, 0, from) {
            self.add(defined, p, x)?;
            from = p + 1;
        }
        Ok(())
    }
}

/// The pairs of a block and a name that is wanted at its end, by these uses of a name, a block and
/// an index.
pub(crate) fn ends(
    alloc: Global,
    uses: &[(u64, u64, u64)],
    defined: &Triples,
    edges: &Triples,
) -> Result<Pairs, Memory>
    requires { spec.IsNarrow edges.now }
    ensures { IfOk result (λ ends. AreEnds (map name_first uses.now) defined.now edges.now ends) }
{
    let mut spread = Spread {
        starts: Pairs::new(alloc),
        ends: Pairs::new(alloc),
    };
    seed(&mut spread.starts, uses, defined)?;
    let mut done = 0;
    while done < spread.starts.len() {
        let (b, x) = spread.starts.at(done);
        spread.enter(defined, edges, b, x)?;
        done += 1;
    }
    let Spread { starts: _, ends } = spread;
    Ok(ends)
}
