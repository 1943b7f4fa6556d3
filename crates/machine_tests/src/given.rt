//! What `run` and `trace` write of modules.
ghost use Rattle.std.specs.Prelude.{◌≤◌};

use crate::lines::lines_of;
use crate::texts::module_of;
use ir_values::Memory;
use output_lines::ShotStop;
use qir_ports::{Calls, MemSink};
use run_commands::{run, schema_of, script_of, scripts_of, trace};
use shots::Backend;
use std::alloc::Global;
use std::process::Abort;
use std::test::Fail;

/// A sink that takes pieces of at most so many bytes, and fails at the call of this number.
pub fn sink(alloc: Global, piece: usize, fails_at: u64) -> Result<MemSink, Memory>
    requires { 1 ≤ piece }
{
    let mut failing = Calls::new(alloc);
    failing.push(fails_at)?;
    MemSink::new(alloc, piece, 1_048_576, failing)
}

/// Runs a module into a sink: a shot of at most so many steps for each word of bits, by the schema of a word. It answers
/// whether all returned.
pub fn run_into(
    alloc: Global,
    out: &mut MemSink,
    name: &str,
    schema: &str,
    steps: u64,
    outcomes: &str,
) -> Result<Result<bool, ShotStop>, Fail> {
    let checked = module_of(alloc, name).ok_or("a module")?;
    let schema = schema_of(schema.as_bytes()).ok_or("a schema")?;
    let backends = scripts_of(alloc, outcomes)?.ok_or("words of bits")?;
    Ok(run(alloc, &checked, out, schema, steps, backends.as_slice()))
}

/// The backend of a word: `bits` for classical bits, and else a script.
fn backend_of(alloc: Global, word: &str) -> Result<Backend, Fail> {
    if word == "bits" {
        return Ok(Backend::Bits);
    }
    Ok(script_of(alloc, word)?.ok_or("a word of bits")?)
}

/// Traces a shot of a module into a sink, of at most so many steps. It answers whether the entry returned.
pub fn trace_into(
    alloc: Global,
    out: &mut MemSink,
    name: &str,
    steps: u64,
    backend: &str,
) -> Result<bool, Fail> {
    let checked = module_of(alloc, name).ok_or("a module")?;
    let backend = backend_of(alloc, backend)?;
    Ok(trace(alloc, &checked, out, steps, &backend)?)
}

/// Expects that a sink took the lines of the first so many words.
pub fn check_lines(
    rt: &impl Abort,
    alloc: Global,
    out: &MemSink,
    words: &str,
    count: usize,
) -> Result<(), Fail> {
    assert_eq!(rt;
        out.taken(),
        lines_of(alloc, words, count)?.as_slice(),
        "{words}"
    );
    Ok(())
}
