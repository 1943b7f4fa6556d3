//! Which configurations go on in the part of the one before.
ghost use Rattle.std.specs.Prelude.{◌≡◌, suc, length, IfOk};
ghost use Rattle.fused_parts.specs.Nodes.{is_once, joins, leads_only, more};
ghost use Rattle.fused_parts.specs.code.Counting.{AllNever, AreCounted, Counts};

use ir_values::{Memory, Seq};
use kept_items::Dyns;
use path_search::Link;
use std::alloc::Global;
use unroller::Node;

/// How many edges lead to a configuration, as far as it matters.
#[derive(Clone, Copy, Debug)]
pub enum Entered {
    Never,
    Once,
    Often,
}

impl Entered {
    /// With one edge more.
    pub fn more(self) -> Entered
        ensures { result ≡ more self }
    {
        match self {
            Entered::Never => Entered::Once,
            Entered::Once => Entered::Often,
            Entered::Often => Entered::Often,
        }
    }

    /// Whether it is one edge.
    pub fn is_once(self) -> bool
        ensures { result ≡ is_once self }
    {
        matches!(self, Entered::Once)
    }
}

/// As many configurations, and one more, to which no edge leads.
fn none_entered(alloc: Global, n: usize) -> Result<Seq<Entered>, Memory>
    ensures { IfOk result (AllNever (suc n)) }
{
    let mut table = Seq::new(alloc);
    table.push(Entered::Never)?;
    for _ in 0..n {
        table.push(Entered::Never)?;
    }
    Ok(table)
}

/// Counts these links to the configurations of the table.
fn count_links(table: &mut Seq<Entered>, links: &[Link<Dyns>])
    ensures { Counts links.now table.old table.new }
{
    let mut rest = links;
    while let [link, behind @ ..] = rest {
        if link.to < table.len() {
            let entered = *table.at(link.to);
            table.set(link.to, entered.more());
        }
        rest = behind;
    }
}

/// How many edges lead to each configuration, and to none behind the last.
fn count_edges(alloc: Global, nodes: &[Node]) -> Result<Seq<Entered>, Memory>
    ensures { IfOk result (AreCounted nodes.now) }
{
    let mut table = none_entered(alloc, nodes.len())?;
    let mut rest = nodes;
    while let [node, behind @ ..] = rest {
        count_links(&mut table, node.links.as_slice());
        rest = behind;
    }
    Ok(table)
}

/// Whether the only link leads to this configuration.
fn leads_only(to: usize, links: &[Link<Dyns>]) -> bool
    ensures { result ≡ leads_only to links.now }
{
    match links {
        [link] => link.to == to,
        _ => false,
    }
}

/// For each configuration whether the next one goes on in its part: its only edge leads there, and no
/// other edge does.
pub fn joins(alloc: Global, nodes: &[Node]) -> Result<Seq<bool>, Memory>
    ensures { IfOk result (λ flags. flags ≡ joins nodes.now) }
{
    let entered = count_edges(alloc, nodes)?;
    let mut flags = Seq::new(alloc);
    let mut rest = nodes;
    let mut next = 0;
    while let [node, behind @ ..] = rest {
        next += 1;
        let single = entered.at(next).is_once();
        flags.push(leads_only(next, node.links.as_slice()) && single)?;
        rest = behind;
    }
    Ok(flags)
}
