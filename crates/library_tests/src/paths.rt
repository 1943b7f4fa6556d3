//! The graph of twelve nodes of `docs/PATHS.md`: a cycle, two joins, and a bad node behind a join.
ghost use Rattle.std.specs.Prelude.{◌≡◌, ◌==◌, map, if◌then◌else◌, IfOk};
ghost use Rattle.path_search.specs.Paths.{Turn, Next, Bad};
ghost use Rattle.path_search.specs.code.Steps.{target};
ghost use Rattle.library_tests.specs.Rows.{row};

use ir_values::{Memory, Seq};
use path_search::{Edge, Graph, Limits, Reason, Step, Stop, explore};
use std::alloc::Global;
use std::test::Fail;

/// For each node its successors. One node may be bad.
#[derive(Drop)]
struct Rows {
    rows: Seq<Seq<u64>>,
    bad: u64,
}

/// Edges to these nodes, each with the tenfold of its target as its label.
fn edges_to(alloc: Global, nodes: &[u64]) -> Result<Seq<Edge<u64, u64>>, Memory>
    ensures { IfOk result (λ edges. map target edges ≡ nodes.now) }
{
    let mut edges = Seq::new(alloc);
    for node in nodes {
        edges.push(Edge {
            to: *node,
            label: node.wrapping_mul(10),
        })?;
    }
    Ok(edges)
}

/// The successors of a node.
fn row(rows: &Seq<Seq<u64>>, node: u64) -> &[u64]
    ensures { result.now ≡ row rows.now node }
{
    match rows.as_slice().get(node as usize) {
        Some(nodes) => nodes.as_slice(),
        None => &[],
    }
}

impl Graph for Rows {
    type Node = u64;

    type Kind = u64;

    type Data = u64;

    type Label = u64;

    ghost start = { λ _. 0 };

    ghost turn = { λ g n. if n == g.bad then Bad n else Next (row g.rows n) };

    ghost IsValid = { λ _ _ _. Unit {0} };

    ghost Carries = { λ _ _ _ _. Unit {0} };

    fn start(&self, _alloc: Global) -> Result<u64, Memory> {
        Ok(0)
    }

    fn step(&self, alloc: Global, node: &u64) -> Result<Step<u64, u64, u64, u64>, Memory> {
        if *node == self.bad {
            return Ok(Step::Bad(*node));
        }
        let edges = edges_to(alloc, row(&self.rows, *node))?;
        Ok(Step::Next {
            data: node.wrapping_add(100),
            edges,
        })
    }
}

fn twelve(alloc: Global, bad: u64) -> Result<Rows, Memory> {
    let lists: [&[u64]; 12] = [
        &[1, 2],
        &[3],
        &[3, 4],
        &[5],
        &[6],
        &[7, 8],
        &[9],
        &[10],
        &[10],
        &[11, 4],
        &[],
        &[],
    ];
    let mut rows = Seq::new(alloc);
    for list in lists {
        let mut nodes = Seq::new(alloc);
        nodes.extend_from_slice(list)?;
        rows.push(nodes)?;
    }
    Ok(Rows { rows, bad })
}

/// No node of the graph has this number.
const NONE: u64 = 99;

/// What a search answers: the number of nodes, or the end and the reason, where there is memory.
fn answer(
    alloc: Global,
    bad: u64,
    budget: usize,
    loops: bool,
) -> Result<(u64, Reason<u64>), Memory> {
    match explore(alloc, &twelve(alloc, bad)?, Limits { budget, loops }) {
        Ok(nodes) => Ok((nodes.len() as u64, Reason::BadNode(NONE))),
        Err(Stop::Refused { at, reason }) => Ok((at, reason)),
        Err(Stop::Memory) => Err(Memory),
    }
}

#[test]
fn nodes_come_in_path_order(rt: HostRuntime) -> Result<(), Fail> {
    let alloc = rt.alloc();
    let limits = Limits {
        budget: 12,
        loops: true,
    };
    match explore(alloc, &twelve(alloc, NONE)?, limits) {
        Ok(nodes) => {
            let mut order = Vec::new(alloc);
            let mut links = Vec::new(alloc);
            for visited in nodes.as_slice() {
                order.push(visited.node)?;
                assert_eq!(rt; visited.item, visited.node.wrapping_add(100));
                for link in visited.links.as_slice() {
                    links.push((link.to, link.label))?;
                }
            }
            assert_eq!(rt;
                order.as_slice(),
                [0, 1, 3, 5, 7, 10, 8, 2, 4, 6, 9, 11].as_slice()
            );
            let numbers = [
                (1, 10),
                (7, 20),
                (2, 30),
                (3, 50),
                (4, 70),
                (6, 80),
                (5, 100),
                (5, 100),
                (2, 30),
                (8, 40),
                (9, 60),
                (10, 90),
                (11, 110),
                (8, 40),
            ];
            assert_eq!(rt; links.as_slice(), numbers.as_slice());
        }
        Err(_) => assert!(rt; false),
    }
    Ok(())
}

#[test]
fn the_first_path_that_is_not_permitted_decides(rt: HostRuntime) -> Result<(), Fail> {
    let alloc = rt.alloc();
    let rows = [
        (NONE, 12, true, 12, Reason::BadNode(NONE)),
        (NONE, 11, true, 11, Reason::OverBudget),
        (NONE, 12, false, 9, Reason::LeadsBack),
        (NONE, 10, false, 9, Reason::OverBudget),
        (10, 12, true, 10, Reason::BadNode(10)),
        (10, 5, true, 10, Reason::OverBudget),
        (2, 12, false, 2, Reason::BadNode(2)),
        (0, 0, true, 0, Reason::OverBudget),
    ];
    for (bad, budget, loops, at, reason) in rows {
        assert_eq!(rt;
            answer(alloc, bad, budget, loops)?,
            (at, reason),
            "bad {bad}, budget {budget}"
        );
    }
    Ok(())
}
