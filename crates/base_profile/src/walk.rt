//! The walk of the entry along its unconditional branches.
ghost use Rattle.std.specs.Prelude.{◌≡◌, ◌-◌, ◌==◌, not, length, replicate, slice_get, slice_set, IfOk};
ghost use Rattle.std.specs.List.{list_all};
ghost use Rattle.profile_rules.specs.Calls.{passes};
ghost use Rattle.profile_rules.specs.Walk as spec;
ghost use Rattle.base_profile.specs.code.Walked.{IsWalked, Advances, ArePositions};

use ir_module::{Block, Term};
use ir_values::{Memory, Seq};
use std::alloc::Global;

fn target_of_term(term: &Term) -> Option<usize>
    ensures { result ≡ spec.target_of_term term.now }
{
    match term {
        Term::Br(b) => Some(b.0 as usize),
        Term::RetVoid | Term::Ret(_, _) | Term::CondBr(_, _, _) | Term::Switch(_, _, _, _) => None,
    }
}

/// Where the unconditional branch of a block leads.
fn target(blocks: &[Block], b: usize) -> Option<usize>
    ensures { result ≡ spec.target_of (slice_get blocks.now b) }
{
    match blocks.get(b) {
        Some(block) => target_of_term(&block.term),
        None => None,
    }
}

/// Adds the block where the walk is, if it goes on, and answers where it is next.
fn advance(
    walk: &mut Seq<usize>,
    blocks: &[Block],
    at: Option<usize>,
) -> Result<Option<usize>, Memory>
    ensures { IfOk result (Advances blocks.now at walk.old walk.new) }
{
    match at {
        Some(b) => {
            walk.push(b)?;
            Ok(target(blocks, b))
        }
        None => Ok(None),
    }
}

/// The blocks that the walk meets one after another, until one that ends otherwise, and at most as many as there are
/// blocks.
#[tactic(auto, using(crate::proofs::Walks::begun, crate::proofs::Walks::walked))]
pub(crate) fn walk(alloc: Global, blocks: &[Block]) -> Result<Seq<usize>, Memory>
    ensures { IfOk result (IsWalked blocks.now) }
{
    let mut walk = Seq::new(alloc);
    let mut next = Some(0usize);
    for _n in 0..blocks.len() {
        next = advance(&mut walk, blocks, next)?;
    }
    Ok(walk)
}

fn zeros(alloc: Global, count: usize) -> Result<Seq<usize>, Memory>
    ensures { IfOk result (λ zeros. zeros ≡ replicate count 0) }
{
    Ok(Seq::from_vec(vec![in alloc; 0usize; count]?))
}

#[tactic(auto, using(crate::proofs::Lists::set_past))]
fn place(positions: &mut Seq<usize>, b: usize, position: usize)
    ensures { positions.new ≡ slice_set positions.old b position }
{
    if b < positions.len() {
        positions.set(b, position);
    }
}

/// Of each block its position on the walk, counted from 1, and 0 of one that isn't on it. The walk is gone through from
/// its back, so that the first visit of a block counts.
pub(crate) fn positions(
    alloc: Global,
    blocks: &[Block],
    walk: &[usize],
) -> Result<Seq<usize>, Memory>
    requires { IsWalked blocks.now walk.now }
    ensures { IfOk result (ArePositions blocks.now) }
{
    let mut positions = zeros(alloc, blocks.len())?;
    let mut rest = walk.len();
    while rest > 0 {
        place(&mut positions, walk[rest - 1], rest);
        rest -= 1;
    }
    Ok(positions)
}

fn are_met(mut positions: &[usize]) -> bool
    ensures { result ≡ list_all (λ p. not (p == 0)) positions.entry.now }
{
    while let [position, rest @ ..] = positions {
        if *position == 0 {
            return false;
        }
        positions = rest;
    }
    true
}

fn is_return(term: &Term) -> bool
    ensures { result ≡ spec.is_return term.now }
{
    matches!(term, Term::RetVoid | Term::Ret(_, _))
}

fn returns_at(blocks: &[Block], b: usize) -> bool
    ensures { result ≡ spec.returns_at blocks.now b }
{
    match blocks.get(b) {
        Some(block) => is_return(&block.term),
        None => false,
    }
}

/// Whether the walk meets as many blocks as there are, and the last of them ends in a return.
fn ends_in_return(blocks: &[Block], walk: &[usize]) -> bool
    requires { IsWalked blocks.now walk.now }
    ensures { result ≡ passes (spec.block_after blocks.now (length blocks.now - 1)) (spec.returns_at blocks.now) }
{
    match blocks.len() {
        0 => false,
        n => match walk.get(n - 1) {
            Some(b) => returns_at(blocks, *b),
            None => false,
        },
    }
}

/// Whether all blocks are on the walk, and its last one ends in a return.
pub(crate) fn is_chain(blocks: &[Block], walk: &[usize], positions: &[usize]) -> bool
    requires walked { IsWalked blocks.now walk.now }
    requires positions { ArePositions blocks.now positions.now }
    ensures { result ≡ spec.is_chain blocks.now }
{
    let met = are_met(positions);
    let ends = ends_in_return(blocks, walk);
    met && ends
}
