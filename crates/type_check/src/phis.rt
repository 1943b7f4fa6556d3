//! The rule on phis: the entries of a phi against the edges into its block.
ghost use Rattle.std.specs.Prelude.{◌≡◌, ◌++◌, ◌&&◌, ℕ, List, option_map, nat_eq, IfOk, OnOk};
ghost use Rattle.indexmap.specs.IndexMap.{get};
ghost use Rattle.ir_module.specs.declared.tree.Block.{Block};
ghost use Rattle.type_check.specs.code.Arcs.{come_from};
ghost use Rattle.type_check.specs.code.Phis as spec;
ghost use Rattle.type_check.specs.Rules as rule;

use indexmap::IndexMap;
use ir_module::Operand;
use ir_values::{BlockId, Exact, Memory, Seq};
use std::alloc::Global;

/// An entry of a phi: the operand, and the block that the edge comes from.
type Entry = (Operand, BlockId);

fn push_blocks(blocks: &mut Seq<u32>, mut entries: &[Entry]) -> Result<(), Memory>
    ensures { OnOk result (blocks.new ≡ blocks.old ++ rule.entry_blocks entries.entry.now) }
{
    while let [(_, block), rest @ ..] = entries {
        blocks.push(block.0)?;
        entries = rest;
    }
    Ok(())
}

/// The blocks that the entries are for, in order.
fn entry_blocks(alloc: Global, entries: &[Entry]) -> Result<Seq<u32>, Memory>
    ensures { IfOk result (λ sorted. spec.SortsBlocks entries.now sorted) }
{
    let mut blocks = Seq::new(alloc);
    push_blocks(&mut blocks, entries)?;
    let mut items = blocks.into_vec();
    items.sort_unstable();
    Ok(Seq::from_vec(items))
}

/// Whether the edges come from these blocks, one from each.
fn come_from(mut blocks: &[u32], mut arcs: &[(u32, u32)]) -> bool
    ensures { result ≡ come_from blocks.entry.now arcs.entry.now }
{
    while let [block, more @ ..] = blocks {
        match arcs {
            [arc, rest @ ..] => {
                if arc.1 != *block {
                    return false;
                }
                arcs = rest;
            }
            [] => return false,
        }
        blocks = more;
    }
    arcs.is_empty()
}

/// Whether there is an entry for each of these edges into a block, and no other.
fn entries_match(alloc: Global, into: &[(u32, u32)], entries: &[Entry]) -> Result<bool, Memory>
    ensures { IfOk result (λ r. (blocks : List Block) (b : ℕ) → spec.LeadInto blocks b into.now → r ≡ rule.entries_match (rule.sources b 0 blocks) entries.now) }
{
    let blocks = entry_blocks(alloc, entries)?;
    Ok(come_from(blocks.as_slice(), into))
}

/// Whether the operand of an entry is that of the first one for its block.
#[tactic(auto, using(crate::proofs::SameOperands::operand_test))]
fn agrees(firsts: &IndexMap<u32, &Operand>, entry: &Entry) -> bool
    ensures { result ≡ spec.agrees (option_map (λ o. o.now) (get nat_eq firsts.now entry.now.1.0)) entry.now.0 }
{
    match firsts.get(&entry.1.0) {
        Some(first) => first.same(&entry.0),
        None => true,
    }
}

/// Keeps the operand of the first entry for a block.
fn note<'a>(firsts: &mut IndexMap<u32, &'a Operand>, entry: &'a Entry) -> Result<(), Memory>
    ensures { OnOk result ((q : ℕ) → option_map (λ o. o.now) (get nat_eq firsts.new q) ≡ spec.noted (λ q. option_map (λ o. o.now) (get nat_eq firsts.old q)) entry.now q) }
{
    if firsts.contains_key(&entry.1.0) {
        return Ok(());
    }
    firsts.insert(entry.1.0, &entry.0)?;
    Ok(())
}

fn agree_from<'a>(
    mut firsts: IndexMap<u32, &'a Operand>,
    mut entries: &'a [Entry],
) -> Result<bool, Memory>
    ensures { IfOk result (λ r. r ≡ spec.agree_from (λ q. option_map (λ o. o.now) (get nat_eq firsts.entry q)) entries.entry.now) }
{
    while let [entry, rest @ ..] = entries {
        if !agrees(&firsts, entry) {
            return Ok(false);
        }
        note(&mut firsts, entry)?;
        entries = rest;
    }
    Ok(true)
}

/// Whether entries for one block have one operand.
fn entries_agree(alloc: Global, entries: &[Entry]) -> Result<bool, Memory>
    ensures { IfOk result (λ r. r ≡ rule.entries_agree entries.now) }
{
    agree_from(IndexMap::new(alloc), entries)
}

/// Whether there is one entry for each of these edges into a block, and no other, and entries for one
/// block don't differ. It sorts the entries, and goes over them and the edges once.
pub(crate) fn entries_fit(
    alloc: Global,
    into: &[(u32, u32)],
    entries: &[Entry],
) -> Result<bool, Memory>
    ensures { IfOk result (λ r. (blocks : List Block) (b : ℕ) → spec.LeadInto blocks b into.now → r ≡ (rule.entries_match (rule.sources b 0 blocks) entries.now && rule.entries_agree entries.now)) }
{
    let matched = entries_match(alloc, into, entries)?;
    let agreed = entries_agree(alloc, entries)?;
    Ok(matched && agreed)
}
