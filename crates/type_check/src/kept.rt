//! Which rules a step keeps.

/// Which of the rules that look at more than operands a step keeps.
#[derive(Clone, Copy)]
pub(crate) struct Kept {
    pub(crate) types: bool,
    pub(crate) entries: bool,
    pub(crate) first: bool,
    pub(crate) cases: bool,
}
