//! Configurations under way within a step.
ghost use Rattle.std.specs.Prelude.{◌≡◌};

use ir_values::Seq;
use static_steps::{Frame, Phase, WorkFrame};
use std::marker::Model;

/// A configuration under way, which contracts see as the configuration within a step: its top frame, a
/// frame that begins to wait, and those that wait already, which stay as they are.
#[derive(Drop)]
pub struct Draft<'a> {
    pub(crate) top: WorkFrame,
    pub(crate) waiting: Option<WorkFrame>,
    pub(crate) below: &'a [Frame],
    pub(crate) allocated: u64,
    pub(crate) held: Seq<u64>,
    pub(crate) returned: u64,
    pub(crate) phase: Phase,
}

impl<'a> Model for Draft<'a> {
    ghost use Rattle.static_steps.specs.declared.work.Work.{Work};
    ghost use Rattle.static_steps.specs.Works.{opened_frames};
    ghost use Rattle.step_parts.specs.code.Frames.{over};

    ghost Value = { Work };

    ghost view = { λ d. record {
      top = d.top;
      below = over d.waiting (opened_frames d.below.now);
      allocated = d.allocated;
      held = d.held;
      returned = d.returned;
      phase = d.phase;
    } };
}

impl<'a> Draft<'a> {
    /// The configuration in this phase.
    pub fn with_phase(self, phase: Phase) -> Draft<'a>
        ensures { result ≡ record self.entry { phase = phase } }
    {
        Draft { phase, ..self }
    }

    /// The configuration with so many returned results.
    pub fn with_returned(self, returned: u64) -> Draft<'a>
        ensures { result ≡ record self.entry { returned = returned } }
    {
        Draft { returned, ..self }
    }

    /// The configuration with so many allocations.
    pub fn with_allocated(self, allocated: u64) -> Draft<'a>
        ensures { result ≡ record self.entry { allocated = allocated } }
    {
        Draft { allocated, ..self }
    }

    /// The configuration with these allocations held.
    pub fn with_held(self, held: Seq<u64>) -> Draft<'a>
        ensures { result ≡ record self.entry { held = held } }
    {
        Draft { held, ..self }
    }
}
