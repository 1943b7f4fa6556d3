//! How configurations are divided into parts.
ghost use Rattle.std.specs.Prelude.{◌≡◌, IfOk};
ghost use Rattle.fused_parts.specs.Nodes.{joins};
ghost use Rattle.fused_parts.specs.Parts.{next_part};
ghost use Rattle.fused_parts.specs.Ranks.{part_number};
ghost use Rattle.fused_parts.specs.code.Starts.{starts};

use crate::flags::joins;
use ir_values::{Memory, Seq};
use std::alloc::Global;
use std::marker::Model;
use unroller::Node;

/// For each configuration whether the next one goes on in its part, and the number of the part that it begins.
///
/// Contracts see whether configurations go on.
#[derive(Drop)]
pub struct Layout {
    flags: Seq<bool>,
    numbers: Seq<u32>,
}

impl Model for Layout {
    ghost use Rattle.std.specs.Prelude.{◌≡◌, Bool, List};
    ghost use Rattle.fused_parts.specs.code.Starts.{starts};

    ghost Value = { List Bool };

    ghost view = { λ l. l.flags };

    ghost invariant = { λ l. l.numbers ≡ starts l.flags };
}

/// The number of the part that a configuration behind one of this part begins.
fn next_part(on: bool, number: u32) -> Result<u32, Memory>
    ensures { IfOk result (λ n. n ≡ next_part on number) }
{
    if on {
        Ok(number)
    } else {
        number.checked_add(1).ok_or(Memory)
    }
}

/// The number of the part that each configuration begins, and of one behind the last.
fn starts(alloc: Global, flags: &[bool]) -> Result<Seq<u32>, Memory>
    ensures { IfOk result (λ table. table ≡ starts flags.now) }
{
    let mut table = Seq::new(alloc);
    let mut number: u32 = 0;
    table.push(number)?;
    let mut rest = flags;
    while let [on, behind @ ..] = rest {
        number = next_part(*on, number)?;
        table.push(number)?;
        rest = behind;
    }
    Ok(table)
}

impl Layout {
    /// The layout of the reachable configurations. [`Memory`] also comes where they make more than 2^32 parts.
    pub fn new(alloc: Global, nodes: &Seq<Node>) -> Result<Layout, Memory>
        ensures { IfOk result (λ layout. layout ≡ joins nodes.now) }
    {
        let flags = joins(alloc, nodes.as_slice())?;
        let numbers = starts(alloc, flags.as_slice())?;
        Ok(Layout { flags, numbers })
    }

    /// Whether the next configuration goes on in the part, for each. It takes no memory.
    pub fn flags(&self) -> &[bool]
        ensures { result.now ≡ self.now }
    {
        self.flags.as_slice()
    }

    /// The number of the part that configuration `i` begins; for one behind the last, the number of parts that end. It
    /// takes no memory.
    pub fn part(&self, i: usize) -> u32
        ensures { result ≡ part_number self.now i }
    {
        if i < self.numbers.len() {
            *self.numbers.at(i)
        } else {
            *self.numbers.at(self.flags.len())
        }
    }
}
