//! Runs over classical bits.
ghost use Rattle.std.specs.Prelude.{IfOk};
ghost use Rattle.generated_summary.specs.code.Told.{IsPlayed};
ghost use Rattle.qir_machine.specs.Runs.{HasMeaning};

use bit_backend::Bits;
use ir_module::Module;
use ir_values::Memory;
use qir_machine::{Ended, run_on};
use std::alloc::Global;

/// A run over classical bits: the bits with the events that they answered, and how it ended.
#[derive(Drop)]
pub(crate) struct Played {
    pub(crate) bits: Bits,
    pub(crate) ended: Ended,
}

/// Runs a module over classical bits, at most so many steps. The only error is want of memory.
pub(crate) fn play(alloc: Global, m: &Module, steps: u64) -> Result<Played, Memory>
    requires { HasMeaning m.now }
    ensures { IfOk result (IsPlayed m.now steps) }
{
    let mut bits = Bits::new(alloc);
    let ended = run_on(alloc, m, &mut bits, steps)?;
    Ok(Played { bits, ended })
}
