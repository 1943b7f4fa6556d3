//! Runs the module of a text, to be timed.
//!
//! Standard input has the text of a module. It is run with at most 200,000,000 steps by a backend that does every operation
//! and has no outcome of a measurement. The line that is written has the number of instructions that the run began, phis
//! aside, that of the operations, and that of the records.
#![tactic(auto)]

ghost use Rattle.std.specs.Prelude.{◌<◌, ◌^◌, ◌-◌, length};
ghost use Rattle.ir_module.specs.Numbered.{Numbered};

use admission::{Checked, admit};
use ir_module::Module;
use ir_reader::read;
use ir_values::Memory;
use qir_machine::run_on;
use qir_ports::{StdSource, read_all};
use scripted_backend::Script;
use std::alloc::Global;
use std::io;

/// The most bytes of a text.
const LONGEST: usize = 4_194_304;

/// The most steps of a run.
const STEPS: u64 = 200_000_000;

/// How many instructions a run began, how many operations it issued, and how many records it wrote.
type Counts = (u64, usize, usize);

fn counts_of(alloc: Global, checked: &Checked) -> Result<Counts, Memory> {
    let mut script = Script::new(alloc, &[])?;
    let ended = run_on(alloc, checked.module(), &mut script, STEPS)?;
    Ok((ended.used, script.events().len(), ended.records.len()))
}

/// None where the module breaks a rule or there is no memory.
fn admitted_counts(alloc: Global, m: Module) -> Option<Counts>
    requires { Numbered m }
{
    let checked = admit(alloc, m).ok()?;
    counts_of(alloc, &checked).ok()
}

/// None where the text doesn't read, the module breaks a rule or there is no memory.
fn counts_in(alloc: Global, text: &[u8]) -> Option<Counts>
    requires { length text.now < 2 ^ 32 - 1 }
{
    let parsed = read(alloc, text).ok()?;
    admitted_counts(alloc, parsed.module)
}

fn main(rt: HostRuntime) -> io::Result<()> {
    let mut input = StdSource::new(rt.reader());
    let counts = match read_all(rt.alloc(), &mut input, LONGEST) {
        Ok(text) => counts_in(rt.alloc(), text.as_slice()),
        Err(_) => None,
    };
    match counts {
        Some((used, operations, records)) => println!(rt; "{used} {operations} {records}"),
        None => println!(rt; "no run"),
    }
}
