//! Where a module breaks a rule of a profile.
ghost use Rattle.std.proofs.Common.{rules};

use ir_module::Spot;
use ir_values::{Copies, Exact, Memory, Seq};
use std::alloc::Global;

/// The two forms of the Base Profile.
#[derive(Clone, Copy, Debug, PartialEq, Eq)]
pub enum Form {
    /// Four blocks, each with calls of its own kind, as the profile is published.
    Strict,
    /// A chain of any number of blocks.
    Chain,
}

/// A rule that a module breaks, by its number in the list of its profile, and where it does.
#[derive(Clone, Copy, Debug, PartialEq, Eq)]
pub struct Finding {
    pub spot: Spot,
    pub rule: u8,
}

impl Copies for Finding {
    fn copy(&self, _alloc: Global) -> Result<Finding, Memory> {
        Ok(*self)
    }
}

impl Exact for Finding {
    ghost exact = { Prim.search rules };
}

/// Findings in the order of their spots and then of their rules, each once.
pub type Findings = Seq<Finding>;
