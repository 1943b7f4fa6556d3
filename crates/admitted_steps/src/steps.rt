//! The static steps of a module that was admitted.
ghost use Rattle.std.specs.Prelude.{◌≡◌, IfOk};
ghost use Rattle.admitted_steps.specs.Programs.{program_of};

use admission::Checked;
use ir_values::{FuncId, Memory};
use kept_items::Target;
use static_steps::{Config, Turn};
use std::alloc::Global;
use unroller::StaticSteps;
use valid_steps::laws::{admitted_modules_start, steps_keep_configurations};

/// A module that was admitted and a target, with the static steps that constant evaluation takes.
#[derive(Drop)]
pub struct AdmittedSteps<'a> {
    pub checked: &'a Checked,
    pub target: Target,
}

impl<'a> StaticSteps for AdmittedSteps<'a> {
    ghost program = { λ s. program_of s.checked.now s.target };

    #[tactic(auto, using(crate::proofs::Admitted::entry_is))]
    fn entry(&self) -> FuncId {
        admitted_modules_start();
        let _module = self.checked.module();
        self.checked.entry()
    }

    fn target(&self) -> Target {
        self.target
    }

    #[tactic(auto, using(crate::proofs::Admitted::leads_on))]
    fn step(&self, alloc: Global, config: &Config) -> Result<Turn, Memory> {
        steps_keep_configurations();
        let _entry = self.checked.entry();
        inliner::step(
            alloc,
            self.checked.module(),
            self.checked.flows(),
            self.checked.classes(),
            self.target,
            config,
        )
    }
}
