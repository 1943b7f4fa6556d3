//! One shot.
ghost use Rattle.std.specs.Prelude.{◌≡◌, IfOk};
ghost use Rattle.output_lines.specs.declared.last.Last.{Last as TheLast};
ghost use Rattle.qir_machine.specs.Runs.{HasMeaning};
ghost use Rattle.run_commands.specs.code.Ran as spec;
ghost use Rattle.run_commands.specs.Shots.{returned};
ghost use Rattle.shots.specs.Shots.{IsShot};

use backend_api::Event;
use bit_backend::Bits;
use ir_module::Module;
use ir_values::Memory;
use output_lines::{Last, StopName};
use output_records::Records;
use qir_machine::{Ended, run_on};
use qir_meaning::{Ask, End};
use scripted_backend::Script;
use shots::Backend;
use std::alloc::Global;

/// The backend that answered a shot, with its events.
#[derive(Drop)]
pub(crate) enum Machine {
    Script(Script),
    Bits(Bits),
}

/// A shot that was run: the backend that answered it, what it wrote, and how it ended.
#[derive(Drop)]
pub(crate) struct Ran {
    pub(crate) machine: Machine,
    pub(crate) records: Records,
    pub(crate) last: Last,
}

impl Machine {
    /// The operations that were answered, the oldest first.
    pub(crate) fn events(&self) -> &[Event]
        ensures { result.now ≡ spec.events_of self.now }
    {
        match self {
            Machine::Script(script) => script.events(),
            Machine::Bits(bits) => bits.events(),
        }
    }
}

/// What the last line of a shot says of the end of its run.
fn last_of(end: &End) -> Last
    ensures { result ≡ spec.last_of end.now }
{
    match end {
        End::Returned(code) => Last::Code(*code),
        End::Trapped(why) => Last::Stop(StopName::Trap(*why)),
        End::Asks(_op, Ask::Unsupported) => Last::Stop(StopName::Unsupported),
        End::Asks(_op, Ask::Empty) => Last::Stop(StopName::Empty),
        End::Asks(_op, Ask::Failed) => Last::Stop(StopName::Failed),
        End::Cut => Last::Stop(StopName::Cut),
    }
}

/// Whether the entry returned.
pub(crate) fn has_returned(last: &Last) -> bool
    ensures { result ≡ returned last.now }
{
    match last {
        Last::Code(_code) => true,
        Last::Stop(_why) => false,
    }
}

/// A shot that a backend answered.
fn ended_shot(machine: Machine, ended: Ended) -> Ran
    ensures machine { result.machine ≡ machine }
    ensures records { result.records ≡ ended.records }
    ensures last { result.last ≡ spec.last_of ended.end }
{
    let last = last_of(&ended.end);
    Ran {
        machine,
        records: ended.records,
        last,
    }
}

/// Runs a shot of a module, of at most so many steps. The only error is want of memory.
pub(crate) fn run_shot(
    alloc: Global,
    m: &Module,
    steps: u64,
    backend: &Backend,
) -> Result<Ran, Memory>
    requires { HasMeaning m.now }
    ensures { IfOk result (λ ran. IsShot backend.now m.now steps (spec.shot_of ran)) }
{
    match backend {
        Backend::Script(bits) => {
            let mut script = Script::new(alloc, bits.as_slice())?;
            let ended = run_on(alloc, m, &mut script, steps)?;
            Ok(ended_shot(Machine::Script(script), ended))
        }
        Backend::Bits => {
            let mut bits = Bits::new(alloc);
            let ended = run_on(alloc, m, &mut bits, steps)?;
            Ok(ended_shot(Machine::Bits(bits), ended))
        }
    }
}
