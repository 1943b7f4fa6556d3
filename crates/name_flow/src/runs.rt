//! The runs of consecutive blocks at whose ends a name is wanted.
//!
//! The names are taken one after another, so that what is kept grows with the runs, and not with the
//! pairs of a block and a name.
ghost use Rattle.std.specs.Prelude.{◌≡◌, ◌++◌, map, OnOk, IfOk};
ghost use Rattle.name_flow.specs.code.Runs as spec;
ghost use Rattle.name_flow.specs.code.Spread.{IsNarrow};
ghost use Rattle.name_flow.specs.code.Triples.{Sorts};

use crate::marks::Marks;
use crate::spread::ends;
use crate::triples::Triples;
use ir_values::Memory;
use std::alloc::Global;

/// The run that the block `b` goes on with, after `run` is added if it ends before.
fn open(runs: &mut Marks, run: (u64, u64, u64), b: u64) -> Result<(u64, u64, u64), Memory>
    ensures { IfOk result (λ next. (next ≡ spec.opened run b) × (runs.new ≡ runs.old ++ spec.closed run b)) }
{
    if b.saturating_sub(1) <= run.1 {
        Ok((run.0, b, run.2))
    } else {
        runs.push(run)?;
        Ok((run.0, b, b))
    }
}

/// Adds the runs of these ascending blocks, after `run` was begun.
fn push_from(
    runs: &mut Marks,
    mut run: (u64, u64, u64),
    mut blocks: &[(u64, u64, u64)],
) -> Result<(), Memory>
    ensures { OnOk result (runs.new ≡ runs.old ++ spec.runs_from run blocks.entry.now) }
{
    while let [block, rest @ ..] = blocks {
        run = open(runs, run, block.1)?;
        blocks = rest;
    }
    runs.push(run)
}

/// Adds the runs of these ascending blocks of one name.
fn push_runs(runs: &mut Marks, blocks: &[(u64, u64, u64)]) -> Result<(), Memory>
    ensures { OnOk result (runs.new ≡ runs.old ++ spec.runs_of blocks.now) }
{
    match blocks {
        [] => Ok(()),
        [first, rest @ ..] => push_from(runs, (first.0, first.1, first.1), rest),
    }
}

/// The pairs of a block and a name, the name first and in order.
fn in_order(alloc: Global, mut pairs: &[(u64, u64)]) -> Result<Triples, Memory>
    ensures { IfOk result (λ blocks. Sorts (map spec.block_of pairs.entry.now) blocks) }
{
    let mut blocks = Marks::new(alloc);
    while let [pair, rest @ ..] = pairs {
        blocks.push((pair.1, pair.0, 0))?;
        pairs = rest;
    }
    Ok(Triples::sort(blocks.into_vec()))
}

/// The uses with the name first, in order.
fn by_name(alloc: Global, mut uses: &[(u64, u64, u64)]) -> Result<Triples, Memory>
    ensures { IfOk result (λ by_name. Sorts (map spec.name_first uses.entry.now) by_name) }
{
    let mut items = Marks::new(alloc);
    while let [used, rest @ ..] = uses {
        items.push((used.1, used.0, used.2))?;
        uses = rest;
    }
    Ok(Triples::sort(items.into_vec()))
}

/// How many uses of the name `x` the list begins with.
fn lead(x: u64, mut uses: &[(u64, u64, u64)]) -> usize
    ensures { result ≡ spec.lead x uses.entry.now }
{
    let mut count = 0usize;
    while let [used, rest @ ..] = uses {
        if used.0 != x {
            return count;
        }
        count += 1;
        uses = rest;
    }
    count
}

/// The uses of the name `x` that the list begins with, and the others.
fn split(x: u64, uses: &[(u64, u64, u64)]) -> (&[(u64, u64, u64)], &[(u64, u64, u64)])
    ensures front { result.0.now ≡ spec.front x uses.now }
    ensures others { result.1.now ≡ spec.others x uses.now }
{
    uses.split_at(lead(x, uses))
}

/// Adds the runs of one name, by its uses.
fn push_name(
    runs: &mut Marks,
    alloc: Global,
    uses: &[(u64, u64, u64)],
    defined: &Triples,
    edges: &Triples,
) -> Result<(), Memory>
    requires { IsNarrow edges.now }
    ensures { OnOk result (spec.AddsName uses.now defined.now edges.now runs.old runs.new) }
{
    let ends = ends(alloc, uses, defined, edges)?;
    let blocks = in_order(alloc, ends.as_slice())?;
    push_runs(runs, blocks.as_slice())
}

/// Adds the runs of one name after another, by their uses in the order of names.
fn push_names(
    runs: &mut Marks,
    alloc: Global,
    mut uses: &[(u64, u64, u64)],
    defined: &Triples,
    edges: &Triples,
) -> Result<(), Memory>
    requires { IsNarrow edges.now }
    ensures { OnOk result (spec.AddsNames defined.now edges.now uses.entry.now runs.old runs.new) }
{
    while let [first, ..] = uses {
        let (front, others) = split(first.0, uses);
        push_name(runs, alloc, front, defined, edges)?;
        uses = others;
    }
    Ok(())
}

/// The runs of blocks at whose ends a name is wanted: name, last block and first block, in order.
pub(crate) fn runs(
    alloc: Global,
    used: &Triples,
    defined: &Triples,
    edges: &Triples,
) -> Result<Triples, Memory>
    requires { IsNarrow edges.now }
    ensures { IfOk result (λ runs. spec.AreRuns used.now defined.now edges.now runs) }
{
    let by_name = by_name(alloc, used.as_slice())?;
    let mut runs = Marks::new(alloc);
    push_names(&mut runs, alloc, by_name.as_slice(), defined, edges)?;
    Ok(Triples::of(runs.into_vec()))
}
