//! A grid as a graph.
ghost use Rattle.std.specs.Prelude.{◌≡◌, ◌+◌, ◌<◌, ◌≤◌, ◌++◌, [], map, IfOk};
ghost use Rattle.path_search.specs.Paths.{Turn, Next};
ghost use Rattle.path_search.specs.code.Steps.{target};
ghost use Rattle.path_bench.specs.Places.{place, to_right, below, IsOn};

use ir_values::{Memory, Seq};
use path_search::{Edge, Graph, Step};
use std::alloc::Global;

/// Sixty-four bytes.
type Padding = (((u64, u64), (u64, u64)), ((u64, u64), (u64, u64)));

/// A column and a row, counted from 0, and padding that repeats them.
pub type Place = ((u64, u64), (Padding, (u64, u64)));

/// A grid by the numbers of its last column and its last row.
#[derive(Clone, Copy)]
pub struct Grid {
    pub last_column: u64,
    pub last_row: u64,
}

/// The place of a column and a row.
fn place(x: u64, y: u64) -> Place
    ensures { result ≡ place x y }
{
    let pair = (x, y);
    let four = (pair, pair);
    (pair, ((four, four), pair))
}

/// The edge to the right, where the column is not the last.
fn right_edge(alloc: Global, last: u64, x: u64, y: u64) -> Result<Seq<Edge<Place, u64>>, Memory>
    ensures { IfOk result (λ edges. map target edges ≡ to_right last x y) }
{
    let mut edges = Seq::new(alloc);
    if x < last {
        edges.push(Edge {
            to: place(x + 1, y),
            label: x,
        })?;
    }
    Ok(edges)
}

/// Adds the edge to the place below, where the row is not the last.
fn add_below(edges: &mut Seq<Edge<Place, u64>>, last: u64, x: u64, y: u64) -> Result<(), Memory>
    ensures { IfOk result (λ _. map target edges.new ≡ map target edges.old ++ below last x y) }
{
    if y < last {
        edges.push(Edge {
            to: place(x, y + 1),
            label: y,
        })?;
    }
    Ok(())
}

impl Graph for Grid {
    type Node = Place;

    type Kind = u64;

    type Data = u64;

    type Label = u64;

    ghost start = { λ _. place 0 0 };

    ghost turn = { λ g n. Next (to_right g.last_column n.0.0 n.0.1 ++ below g.last_row n.0.0 n.0.1) };

    ghost IsValid = { λ g _ n. IsOn g.last_column g.last_row n };

    ghost Carries = { λ _ _ _ _. Unit {0} };

    fn start(&self, _alloc: Global) -> Result<Place, Memory> {
        Ok(place(0, 0))
    }

    fn step(&self, alloc: Global, node: &Place) -> Result<Step<Place, u64, u64, u64>, Memory> {
        let (x, y) = node.0;
        let mut edges = right_edge(alloc, self.last_column, x, y)?;
        add_below(&mut edges, self.last_row, x, y)?;
        Ok(Step::Next { data: x, edges })
    }
}
