//! How many Dynamic values a lowered program gives.
ghost use Rattle.std.specs.Prelude.{◌≡◌, ◌≤◌, ◌<◌, ◌^◌, flat_map, length, IfOk, OnOk};
ghost use Rattle.residue.specs.Scopes as spec;
ghost use Rattle.lowered_program.specs.code.Counts as counts;

use ir_values::Memory;
use kept_items::Item;
use residue::{Line, Part};

/// How many values an item gives.
fn item_gives(item: &Item) -> usize
    ensures { result ≡ length (spec.item_gives item.now) }
{
    match item {
        Item::Operation(_, _) => 0,
        Item::Output(_, _) => 0,
        Item::Binary(_, _, _, _, _, _) => 1,
        Item::Icmp(_, _, _, _, _) => 1,
        Item::Convert(_, _, _, _, _) => 1,
        Item::Select(_, _, _, _, _) => 1,
        Item::Read(_, _) => 1,
        Item::Equal(_, _, _) => 1,
    }
}

/// How many values a line gives, at most one.
fn line_gives(line: &Line) -> usize
    ensures count { result ≡ counts.line_count line.now }
    ensures few { result ≤ 1 }
{
    match line {
        Line::Item(item) => item_gives(item),
        Line::Made(_) => 0,
        Line::Freed(_) => 0,
    }
}

/// How many values lines give.
fn lines_give(lines: &[Line]) -> usize
    ensures { result ≡ counts.lines_count lines.now }
{
    let mut count = 0;
    let mut rest = lines;
    while let [line, behind @ ..] = rest {
        count += line_gives(line);
        rest = behind;
    }
    count
}

/// How many values a part gives.
fn part_gives(part: &Part) -> Result<usize, Memory>
    ensures { IfOk result (λ n. n ≡ counts.part_count part.now) }
{
    part.params
        .len()
        .checked_add(lines_give(part.lines.as_slice()))
        .ok_or(Memory)
}

/// How many values parts give.
fn parts_give(parts: &[Part]) -> Result<usize, Memory>
    ensures { IfOk result (λ n. n ≡ counts.parts_count parts.now) }
{
    let mut count: usize = 0;
    let mut rest = parts;
    while let [part, behind @ ..] = rest {
        count = count.checked_add(part_gives(part)?).ok_or(Memory)?;
        rest = behind;
    }
    Ok(count)
}

/// That parts give fewer than 2^63 values: otherwise [`Memory`], which parts of so many would have met before.
#[tactic(auto, using(crate::proofs::Counted::counts_all))]
pub fn give_few(parts: &[Part]) -> Result<(), Memory>
    ensures { OnOk result (length (flat_map spec.part_gives parts.now) < 2 ^ 63) }
{
    if parts_give(parts)? < 1 << 63 {
        Ok(())
    } else {
        Err(Memory)
    }
}
