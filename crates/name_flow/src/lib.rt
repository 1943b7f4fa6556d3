//! Which local names are live at the points of a function.
#![tactic(auto)]

mod flow;
mod marks;
mod pairs;
mod runs;
mod spread;
mod triples;

pub use flow::Flow;

#[cfg(test)]
mod tests;
