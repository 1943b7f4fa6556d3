//! Explores chains and grids of given sizes, to be timed.
//!
//! Each line of standard input has two numbers, the columns and the rows of a grid; one row is a chain.
//! From each place of the grid edges lead to the place on its right and to the one below. A node is a
//! place with padding, of 96 bytes. The line that is written has the two numbers, how many nodes were
//! found, and the sum of the numbers that links lead to.
#![tactic(auto)]

mod grid;

use grid::Grid;
use ir_values::Memory;
use path_search::{Limits, Stop, explore};
use std::alloc::Global;
use std::io;

/// How many nodes were found, and the sum of the numbers that their links lead to.
fn measure(alloc: Global, columns: u64, rows: u64) -> Result<(usize, usize), Memory> {
    let limits = Limits {
        budget: 10_000_000,
        loops: false,
    };
    let grid = Grid {
        last_column: columns.saturating_sub(1),
        last_row: rows.saturating_sub(1),
    };
    match explore(alloc, &grid, limits) {
        Ok(nodes) => {
            let mut sum = 0usize;
            for visited in nodes.as_slice() {
                for link in visited.links.as_slice() {
                    sum = sum.saturating_add(link.to);
                }
            }
            Ok((nodes.len(), sum))
        }
        Err(Stop::Refused { at: _, reason: _ }) => Ok((0, 0)),
        Err(Stop::Memory) => Err(Memory),
    }
}

fn sizes(line: &str) -> Option<(u64, u64)> {
    let (columns, rows) = line.split_once(' ')?;
    Some((columns.parse::<u64>().ok()?, rows.parse::<u64>().ok()?))
}

fn main(rt: HostRuntime) -> io::Result<()> {
    for line in rt.lines(rt.alloc()) {
        let line = line?;
        let Some((columns, rows)) = sizes(line.as_str()) else {
            println!(rt; "two numbers are wanted")?;
            continue;
        };
        match measure(rt.alloc(), columns, rows) {
            Ok((nodes, sum)) => println!(rt; "{columns} {rows} {nodes} {sum}")?,
            Err(Memory) => println!(rt; "out of memory")?,
        }
    }
    Ok(())
}
