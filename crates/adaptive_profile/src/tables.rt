//! What is found once of a module, for the rules of the Adaptive Profile.
use crate::capabilities::Capabilities;
use crate::pairs::Pairs;
use findings::Callees;
use ir_values::{FuncId, Seq};

/// The module with its classes, and what is known of its functions.
#[derive(Drop)]
pub(crate) struct Tables<'a> {
    pub(crate) callees: Callees<'a>,
    /// The number of the entry.
    pub(crate) entry: FuncId,
    pub(crate) capabilities: Capabilities,
    /// Of each function the first block that ends in a return, or the number of its blocks.
    pub(crate) first_returns: &'a [usize],
    /// Of each function the blocks that lie on cycles.
    pub(crate) cyclic: &'a [Seq<bool>],
    /// Callers and callees of the calls that lead back.
    pub(crate) returning: &'a Pairs,
}
