//! The reachable configurations, with their steps.
use kept_items::{Choice, Code, Dyns, Item};
use path_search::Visited;
use static_steps::Config;

/// What a configuration does, beside its successors.
#[derive(Debug, Drop)]
pub enum Outcome {
    /// It goes on, leaving this item, to the successor that the choice takes.
    Goes(Option<Item>, Choice),
    /// The entry returns this code.
    Exits(Code),
}

/// A reachable configuration with its outcome. For each successor, in order, it has the number of the
/// successor's node, counted from 0, and for each of the successor's Dynamic names in order the number of the
/// value that it takes.
pub type Node = Visited<Config, Outcome, Dyns>;
