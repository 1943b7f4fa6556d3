//! The static steps of a program.
ghost use Rattle.std.specs.Prelude.{◌≡◌, ◌+◌, ◌<◌, ◌^◌, IfOk};
ghost use Rattle.static_steps.specs.Steps.{start_of};
ghost use Rattle.unroller.specs.Programs.{Program, IsReached, LeadOn, step_of};

use ir_values::{FuncId, Memory};
use kept_items::Target;
use static_steps::{Config, Turn};
use std::alloc::Global;

/// A module that is lowered for a target, and its static steps.
pub trait StaticSteps {
    /// The module, the target, the names that are live at each point, the entry, and the required
    /// numbers.
    ghost program: { Self → Program };

    /// The entry of the module. Constant evaluation starts at a configuration of the module.
    fn entry(&self) -> FuncId
        ensures entry { result ≡ (program self.now).entry }
        ensures starts { IsReached (program self.now) (start_of result) };

    /// The target.
    fn target(&self) -> Target
        ensures { result ≡ (program self.now).target };

    /// What the static step says of a configuration of the module. Each successor is a configuration of
    /// the module again, with at most one allocation and one returned result more.
    fn step(&self, alloc: Global, config: &Config) -> Result<Turn, Memory>
        requires reached { IsReached (program self.now) config.now }
        requires allocated { config.now.allocated + 1 < 2 ^ 64 }
        requires returned { config.now.returned + 1 < 2 ^ 64 }
        ensures turn { IfOk result (λ turn. turn ≡ step_of (program self.now) config.now) }
        ensures leads_on { IfOk result (λ turn. LeadOn (program self.now) config.now turn) };
}
