//! What a step answers.
use crate::config::Config;
use ir_values::Seq;
use kept_items::{Choice, Code, Dyns, Item, Kind};

/// A successor, and for each of its Dynamic names in order the number of the value that it takes.
#[derive(Debug, Drop)]
pub struct Move {
    pub to: Config,
    pub args: Dyns,
}

/// Successors in the order of the edges.
pub type Moves = Seq<Move>;

/// What a configuration does.
#[derive(Debug, Drop)]
pub enum Turn {
    /// It goes on to one of these, leaving this item.
    Goes(Moves, Option<Item>, Choice),
    /// The entry returns.
    Exits(Code),
    /// The instruction can't be lowered.
    Bad(Kind),
    /// A value or a point is not of the kind that its place wants. No configuration of an admitted
    /// module does this.
    Lost,
}
