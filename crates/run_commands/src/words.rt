//! The words of the commands.
ghost use Rattle.std.specs.Prelude.{◌≡◌, ◌++◌, IsSome, Option, Some, IfOk, OnErr, OnOk, is_some, map};
ghost use Rattle.std.specs.List.{slice_split};
ghost use Rattle.run_commands.specs.Words as spec;

use ir_values::{Memory, Seq};
use output_lines::Schema;
use shots::{Backend, Outcome};
use std::alloc::Global;

/// The backends of several shots, one for each.
pub type Backends = Seq<Backend>;

/// The most characters of a word of outcomes.
const LONGEST: usize = 65_536;

/// The schema that a word names.
pub fn schema_of(word: &[u8]) -> Option<Schema>
    ensures { result ≡ spec.schema_word word.now }
{
    if word == b"labeled".as_slice() {
        Some(Schema::Labeled)
    } else if word == b"ordered".as_slice() {
        Some(Schema::Ordered)
    } else {
        None
    }
}

/// The bit that a digit writes, 0 or 1.
fn digit_bit(digit: u8) -> Option<bool>
    ensures { result ≡ spec.digit_bit digit }
{
    match digit {
        b'0' => Some(false),
        b'1' => Some(true),
        _ => None,
    }
}

/// Whether these are digits of bits.
fn are_bits(mut digits: &[u8]) -> bool
    ensures { result ≡ is_some (spec.all_of (map spec.digit_bit digits.entry.now)) }
{
    while let [digit, rest @ ..] = digits {
        if digit_bit(*digit).is_none() {
            return false;
        }
        digits = rest;
    }
    true
}

/// The bits that digits write.
fn bits_of(alloc: Global, mut digits: &[u8]) -> Result<Outcome, Memory>
    requires { IsSome (spec.all_of (map spec.digit_bit digits.now)) }
    ensures { IfOk result (λ bits. spec.all_of (map spec.digit_bit digits.entry.now) ≡ Some bits) }
{
    let mut bits = Outcome::new(alloc);
    while let [digit, rest @ ..] = digits {
        match digit_bit(*digit) {
            Some(bit) => bits.push(bit)?,
            None => unreachable!(),
        }
        digits = rest;
    }
    Ok(bits)
}

/// Whether a word writes the bits of a shot.
fn is_script(word: &[u8]) -> bool
    ensures { result ≡ is_some (spec.script_in word.now) }
{
    match word {
        [] => false,
        b"-" => true,
        digits => are_bits(digits),
    }
}

/// The backend whose bits a word writes.
fn script_in(alloc: Global, word: &[u8]) -> Result<Backend, Memory>
    requires { IsSome (spec.script_in word.now) }
    ensures { IfOk result (λ script. spec.script_in word.now ≡ Some script) }
{
    match word {
        b"-" => Ok(Backend::Script(Outcome::new(alloc))),
        digits => Ok(Backend::Script(bits_of(alloc, digits)?)),
    }
}

/// Whether a word writes the bits of several shots.
fn are_scripts(word: &str) -> bool
    ensures { result ≡ is_some (spec.scripts_in word.now) }
{
    let mut left = word;
    while let Some((first, rest)) = left.split_once(',') {
        if !is_script(first.as_bytes()) {
            return false;
        }
        left = rest;
    }
    is_script(left.as_bytes())
}

/// The backends whose bits a word writes.
fn scripts_in(alloc: Global, word: &str) -> Result<Backends, Memory>
    requires { IsSome (spec.scripts_in word.now) }
    ensures { IfOk result (λ all. spec.scripts_in word.now ≡ Some all) }
{
    let mut all = Backends::new(alloc);
    let mut left = word;
    while let Some((first, rest)) = left.split_once(',') {
        all.push(script_in(alloc, first.as_bytes())?)?;
        left = rest;
    }
    all.push(script_in(alloc, left.as_bytes())?)?;
    Ok(all)
}

/// The backend of one shot whose bits a word of at most 65,536 characters writes: a digit 0 or 1 for each, or `-` where
/// there are none. Memory may be wanted only where the word writes some.
pub fn script_of(alloc: Global, word: &str) -> Result<Option<Backend>, Memory>
    ensures script { IfOk result (λ o. o ≡ spec.script_word word.now) }
    ensures memory { OnErr result (IsSome (spec.script_word word.now)) }
{
    if word.len() > LONGEST || !is_script(word.as_bytes()) {
        return Ok(None);
    }
    Ok(Some(script_in(alloc, word.as_bytes())?))
}

/// The backends of shots whose bits a word of at most 65,536 characters writes, with commas between. Memory may be wanted
/// only where the word writes some.
pub fn scripts_of(alloc: Global, word: &str) -> Result<Option<Backends>, Memory>
    ensures scripts { IfOk result (λ all. all ≡ spec.scripts_word word.now) }
    ensures memory { OnErr result (IsSome (spec.scripts_word word.now)) }
{
    if word.len() > LONGEST || !are_scripts(word) {
        return Ok(None);
    }
    Ok(Some(scripts_in(alloc, word)?))
}
