//! What is found once of a module, for the rules of the Base Profile.
use findings::Callees;
use ir_module::Function;
use ir_values::FuncId;
use profile_rules::Form;

/// The module with its classes, and what is known of its entry.
#[derive(Drop)]
pub(crate) struct Tables<'a> {
    pub(crate) callees: Callees<'a>,
    pub(crate) form: Form,
    /// The number of the entry, and the entry.
    pub(crate) entry: FuncId,
    pub(crate) function: &'a Function,
    /// Of each function whether it can't be undone.
    pub(crate) irreversible: &'a [bool],
    /// Of each function whether the entry calls it.
    pub(crate) called: &'a [bool],
    /// Of each block of the entry its position on the walk, from 1, or 0 where the walk doesn't meet it.
    pub(crate) positions: &'a [usize],
    /// Whether the walk meets all blocks and ends in a return.
    pub(crate) chain: bool,
}
