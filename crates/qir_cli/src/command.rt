//! The commands, from their words.
ghost use Rattle.std.specs.Prelude.{◌≡◌, ◌≤◌, [], ◌∷◌, Some, IfSome, IsSome, IfOk, OnErr};
ghost use Rattle.std.specs.Option.{option_map};
ghost use Rattle.std.specs.String.{string_bytes};
ghost use Rattle.ir_values.specs.Calls.{same_text};
ghost use Rattle.qir_cli.specs.Commands as spec;
ghost use Rattle.qir_cli.specs.declared.command.Command.TheVariants as spec_command;
ghost use Rattle.run_commands.specs.Words.{schema_word, script_word, scripts_word};
ghost use Rattle.shots.specs.declared.backend.Backend.TheVariants.{Bits};

use capability_words::caps_of;
use check_command::Profile;
use ir_values::{Memory, parse_decimal};
use kept_items::Target;
use output_lines::Schema;
use profile_rules::Form;
use run_commands::{Backends, schema_of, script_of, scripts_of};
use shots::Backend;
use std::alloc::Global;

/// The most configurations of a lowering.
const GREATEST_BUDGET: u64 = 1_000_000;

/// The most steps of a shot.
const GREATEST_STEPS: u64 = 1_000_000;

/// The most turns of a generated program.
const GREATEST_TURNS: u64 = 10_000;

/// A command.
#[derive(Debug, Drop)]
pub enum Command {
    /// `print`: writes the canonical text of a module.
    Print,
    /// `check base strict`, `check base chain` and `check adaptive`: tells the rules of a profile that a module breaks.
    Check {
        profile: Profile,
    },
    /// `lower base BUDGET` and `lower adaptive BUDGET CAPS`: lowers a module for a target, within a budget of
    /// configurations from 1 to 1,000,000.
    Lower {
        target: Target,
        budget: u32,
    },
    /// `run script SCHEMA STEPS OUTCOMES` and `run bits SCHEMA STEPS`: runs a module with each backend, in at most so many
    /// steps, from 1 to 1,000,000, and tells the records of these shots.
    Run {
        schema: Schema,
        steps: u64,
        backends: Backends,
    },
    /// `trace script STEPS OUTCOME` and `trace bits STEPS`: runs a module with a backend, in at most so many steps, from 1 to
    /// 1,000,000, and tells the events of this shot.
    Trace {
        steps: u64,
        backend: Backend,
    },
    /// `gen N`: lowers and runs a generated program that makes so many turns, from 0 to 10,000, and sums up how that went.
    Gen {
        turns: u32,
    },
}

impl Command {
    /// How many turns the program makes that the command generates, if it generates one. Every other command reads its input.
    pub(crate) fn turns(&self) -> Option<u32>
        ensures { result ≡ spec.turns_of self.now }
    {
        match self {
            Command::Gen { turns } => Some(*turns),
            _ => None,
        }
    }
}

/// The command that the words are, compared exactly, if they are one. Memory may be wanted only where they are.
pub(crate) fn command_of(alloc: Global, words: &[String]) -> Result<Option<Command>, Memory>
    ensures is { IfOk result (λ o. o ≡ spec.command_of (spec.texts_of words.now)) }
    ensures memory { OnErr result (IsSome (spec.command_of (spec.texts_of words.now))) }
    ensures limited { IfOk result (λ o. IfSome o spec.IsLimited) }
{
    let [name, rest @ ..] = words else {
        return Ok(None);
    };
    if is(name, b"print") {
        Ok(print_of(rest))
    } else if is(name, b"check") {
        Ok(check_of(rest))
    } else if is(name, b"lower") {
        Ok(lower_of(rest))
    } else if is(name, b"run") {
        run_of(alloc, rest)
    } else if is(name, b"trace") {
        trace_of(alloc, rest)
    } else if is(name, b"gen") {
        Ok(gen_of(rest))
    } else {
        Ok(None)
    }
}

fn print_of(words: &[String]) -> Option<Command>
    ensures is { result ≡ spec.print_of (spec.texts_of words.now) }
    ensures limited { IfSome result spec.IsLimited }
{
    match words {
        [] => Some(Command::Print),
        _ => None,
    }
}

fn check_of(words: &[String]) -> Option<Command>
    ensures is { result ≡ spec.check_of (spec.texts_of words.now) }
    ensures limited { IfSome result spec.IsLimited }
{
    let profile = match words {
        [profile] if is(profile, b"adaptive") => Profile::Adaptive,
        [profile, form] if is(profile, b"base") => Profile::Base(form_word(form)?),
        _ => return None,
    };
    Some(Command::Check { profile })
}

fn lower_of(words: &[String]) -> Option<Command>
    ensures is { result ≡ spec.lower_of (spec.texts_of words.now) }
    ensures limited { IfSome result spec.IsLimited }
{
    match words {
        [profile, budget] if is(profile, b"base") => lower_for(Target::Base, budget),
        [profile, budget, caps] if is(profile, b"adaptive") => {
            let caps = caps_of(caps.as_str().as_bytes())?;
            lower_for(Target::Adaptive(caps), budget)
        }
        _ => None,
    }
}

/// The lowering for a target, within the budget that a word writes.
fn lower_for(target: Target, budget: &String) -> Option<Command>
    ensures is { result ≡ option_map (spec_command.Lower target) (spec.budget_word (string_bytes budget.now)) }
    ensures limited { IfSome result spec.IsLimited }
{
    let budget = budget_word(budget.as_str().as_bytes())?;
    Some(Command::Lower { target, budget })
}

fn run_of(alloc: Global, words: &[String]) -> Result<Option<Command>, Memory>
    ensures is { IfOk result (λ o. o ≡ spec.run_of (spec.texts_of words.now)) }
    ensures memory { OnErr result (IsSome (spec.run_of (spec.texts_of words.now))) }
    ensures limited { IfOk result (λ o. IfSome o spec.IsLimited) }
{
    match words {
        [name, schema, steps] if is(name, b"bits") => run_bits(alloc, schema, steps),
        [name, schema, steps, outcomes] if is(name, b"script") => {
            run_script(alloc, schema, steps, outcomes)
        }
        _ => Ok(None),
    }
}

/// The run of one shot with classical bits.
fn run_bits(alloc: Global, schema: &String, steps: &String) -> Result<Option<Command>, Memory>
    ensures is { IfOk result (λ o. o ≡ spec.run_with (schema_word (string_bytes schema.now))
        (spec.steps_word (string_bytes steps.now)) (Some (Bits ∷ []))) }
    ensures memory { OnErr result (IsSome (spec.run_with (schema_word (string_bytes schema.now))
        (spec.steps_word (string_bytes steps.now)) (Some (Bits ∷ [])))) }
    ensures limited { IfOk result (λ o. IfSome o spec.IsLimited) }
{
    let Some(schema) = schema_of(schema.as_str().as_bytes()) else {
        return Ok(None);
    };
    let Some(steps) = steps_word(steps.as_str().as_bytes()) else {
        return Ok(None);
    };
    let mut backends = Backends::new(alloc);
    backends.push(Backend::Bits)?;
    Ok(Some(Command::Run {
        schema,
        steps,
        backends,
    }))
}

/// The run of shots with the bits that a word writes.
fn run_script(
    alloc: Global,
    schema: &String,
    steps: &String,
    outcomes: &String,
) -> Result<Option<Command>, Memory>
    ensures is { IfOk result (λ o. o ≡ spec.run_with (schema_word (string_bytes schema.now))
        (spec.steps_word (string_bytes steps.now)) (scripts_word (string_bytes outcomes.now))) }
    ensures memory { OnErr result (IsSome (spec.run_with (schema_word (string_bytes schema.now))
        (spec.steps_word (string_bytes steps.now)) (scripts_word (string_bytes outcomes.now)))) }
    ensures limited { IfOk result (λ o. IfSome o spec.IsLimited) }
{
    let Some(schema) = schema_of(schema.as_str().as_bytes()) else {
        return Ok(None);
    };
    let Some(steps) = steps_word(steps.as_str().as_bytes()) else {
        return Ok(None);
    };
    let Some(backends) = scripts_of(alloc, outcomes.as_str())? else {
        return Ok(None);
    };
    Ok(Some(Command::Run {
        schema,
        steps,
        backends,
    }))
}

fn trace_of(alloc: Global, words: &[String]) -> Result<Option<Command>, Memory>
    ensures is { IfOk result (λ o. o ≡ spec.trace_of (spec.texts_of words.now)) }
    ensures memory { OnErr result (IsSome (spec.trace_of (spec.texts_of words.now))) }
    ensures limited { IfOk result (λ o. IfSome o spec.IsLimited) }
{
    match words {
        [name, steps] if is(name, b"bits") => Ok(trace_bits(steps)),
        [name, steps, outcome] if is(name, b"script") => trace_script(alloc, steps, outcome),
        _ => Ok(None),
    }
}

/// The trace of a shot with classical bits.
fn trace_bits(steps: &String) -> Option<Command>
    ensures is { result ≡ spec.trace_with (spec.steps_word (string_bytes steps.now)) (Some Bits) }
    ensures limited { IfSome result spec.IsLimited }
{
    let steps = steps_word(steps.as_str().as_bytes())?;
    Some(Command::Trace {
        steps,
        backend: Backend::Bits,
    })
}

/// The trace of a shot with the bits that a word writes.
fn trace_script(alloc: Global, steps: &String, outcome: &String) -> Result<Option<Command>, Memory>
    ensures is { IfOk result (λ o. o ≡ spec.trace_with (spec.steps_word (string_bytes steps.now))
        (script_word (string_bytes outcome.now))) }
    ensures memory { OnErr result (IsSome (spec.trace_with (spec.steps_word (string_bytes steps.now))
        (script_word (string_bytes outcome.now)))) }
    ensures limited { IfOk result (λ o. IfSome o spec.IsLimited) }
{
    let Some(steps) = steps_word(steps.as_str().as_bytes()) else {
        return Ok(None);
    };
    let Some(backend) = script_of(alloc, outcome.as_str())? else {
        return Ok(None);
    };
    Ok(Some(Command::Trace { steps, backend }))
}

fn gen_of(words: &[String]) -> Option<Command>
    ensures is { result ≡ spec.gen_of (spec.texts_of words.now) }
    ensures limited { IfSome result spec.IsLimited }
{
    match words {
        [turns] => {
            let turns = turns_word(turns.as_str().as_bytes())?;
            Some(Command::Gen { turns })
        }
        _ => None,
    }
}

/// The number of turns that a word writes.
fn turns_word(word: &[u8]) -> Option<u32>
    ensures { result ≡ spec.turns_word word.now }
{
    let turns = number_word(word, 0, GREATEST_TURNS)?;
    Some(turns as u32)
}

/// The bound of steps that a word writes.
fn steps_word(word: &[u8]) -> Option<u64>
    ensures { result ≡ spec.steps_word word.now }
{
    number_word(word, 1, GREATEST_STEPS)
}

/// The budget that a word writes.
fn budget_word(word: &[u8]) -> Option<u32>
    ensures is { result ≡ spec.budget_word word.now }
    ensures limited { IfSome result (λ budget. budget ≤ spec.greatest_budget) }
{
    let budget = number_word(word, 1, GREATEST_BUDGET)?;
    Some(budget as u32)
}

/// Whether the word is this text.
fn is(word: &String, text: &[u8]) -> bool
    ensures { result ≡ same_text (string_bytes word.now) text.now }
{
    word.as_str().as_bytes() == text
}

/// The form of the Base Profile that a word names.
fn form_word(word: &String) -> Option<Form>
    ensures { result ≡ spec.form_word (string_bytes word.now) }
{
    if is(word, b"strict") {
        Some(Form::Strict)
    } else if is(word, b"chain") {
        Some(Form::Chain)
    } else {
        None
    }
}

/// The number that a word writes in plain digits, if it lies in these limits.
fn number_word(word: &[u8], least: u64, most: u64) -> Option<u64>
    ensures is { result ≡ spec.number_word least most word.now }
    ensures within { IfSome result (λ n. n ≤ most) }
{
    let n = parse_decimal(word)?;
    if least <= n && n <= most {
        Some(n)
    } else {
        None
    }
}
