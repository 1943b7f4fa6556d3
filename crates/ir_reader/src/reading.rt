//! Reading module texts.
ghost use Rattle.std.specs.Prelude.{◌≡◌, ◌<◌, ◌-◌, ◌^◌, length, map, IfOk, IfErr};
ghost use Rattle.ir_module.specs.Printable.{IsPrintable};
ghost use Rattle.ir_module.specs.Spots.{spots};
ghost use Rattle.ir_module.specs.declared.places.Place.{Place as ThePlace};
ghost use Rattle.ir_module.specs.declared.tree.Module.{Module as TheModule};
ghost use Rattle.ir_names.specs.Module.{Names, faults_of};
ghost use Rattle.ir_names.specs.Places.{places_of};
ghost use Rattle.ir_names.specs.code.Answers.{Fails};
ghost use Rattle.ir_names.specs.declared.fault.Stop.{Stop as NameStop};
ghost use Rattle.ir_reader.specs.Answers as answers;
ghost use Rattle.ir_reader.specs.Misreading.{Misread, place_of_byte};
ghost use Rattle.ir_reader.specs.Spelling.{Spells, HasPlaces};
ghost use Rattle.ir_reader.specs.code.Stops as stops;
ghost use Rattle.ir_reader.specs.declared.parsed.ReadCode.{ReadCode as TheCode};

use crate::bytes::see_bytes;
use crate::laws::{one_answer, places_are_of_spots};
use crate::parsed::{Parsed, ReadCode, ReadStop};
use ir_grammar::ItemSyntax;
use ir_module::{Module, Place};
use ir_names::{Stop, places, resolve};
use ir_syntax::{SyntaxStop, read_syntax};
use ir_tokens::Lines;
use ir_values::Memory;
use read_modules::read_modules_are_printable;
use std::alloc::Global;

/// The line and the column of a byte of the text.
fn place_of_byte(text: &[u8], byte: u32) -> Place
    requires { length text.now < 2 ^ 32 - 1 }
    ensures { result ≡ place_of_byte text.now byte }
{
    let position = Lines::new(text).position(byte);
    Place {
        line: position.line,
        column: position.column,
    }
}

/// What stops the reader of the syntax, with its place.
fn syntax_stop(text: &[u8], stop: SyntaxStop) -> ReadStop
    requires { length text.now < 2 ^ 32 - 1 }
    ensures { result ≡ stops.syntax_stop text.now stop }
{
    match stop {
        SyntaxStop::Memory => ReadStop::Memory,
        SyntaxStop::Refused(fault) => ReadStop::Refused {
            code: ReadCode::of_syntax(fault.code),
            place: place_of_byte(text, fault.place),
        },
    }
}

/// What stops the pass over the names, with its place.
fn names_stop(text: &[u8], stop: Stop) -> ReadStop
    requires { length text.now < 2 ^ 32 - 1 }
    ensures { result ≡ stops.names_stop text.now stop }
{
    match stop {
        Stop::Memory => ReadStop::Memory,
        Stop::At(fault) => ReadStop::Refused {
            code: ReadCode::of_names(fault.code),
            place: place_of_byte(text, fault.at.place),
        },
    }
}

/// The module with the places of a text by its items. No text has so many functions that their numbers don't fit.
fn with_places(
    alloc: Global,
    text: &[u8],
    items: &[ItemSyntax],
    resolved: Module,
) -> Result<Parsed, Memory>
    requires { length text.now < 2 ^ 32 - 1 }
    ensures module { IfOk result (λ p. p.module ≡ resolved) }
    ensures places { IfOk result (λ p. p.places ≡ places_of text.now items.now) }
    ensures few { IfOk result (λ p. length p.module.funcs < 2 ^ 32) }
{
    let places = places(alloc, text, items)?;
    if resolved.funcs.len() < 0x1_0000_0000 {
        Ok(Parsed {
            module: resolved,
            places,
        })
    } else {
        Err(Memory)
    }
}

/// The module that the items of a text spell, with its places, or what stops it.
fn named(alloc: Global, text: &[u8], items: &[ItemSyntax]) -> Result<Parsed, ReadStop>
    requires { length text.now < 2 ^ 32 - 1 }
    ensures module { IfOk result (λ p. Names text.now items.now p.module) }
    ensures places { IfOk result (λ p. p.places ≡ places_of text.now items.now) }
    ensures few { IfOk result (λ p. length p.module.funcs < 2 ^ 32) }
    ensures stopped { IfErr result (λ e. (s : NameStop) × Fails (faults_of text.now items.now) s × (e ≡ stops.names_stop text.now s)) }
{
    match resolve(alloc, text, items) {
        Ok(module) => match with_places(alloc, text, items, module) {
            Ok(parsed) => Ok(parsed),
            Err(Memory) => Err(ReadStop::Memory),
        },
        Err(stop) => Err(names_stop(text, stop)),
    }
}

/// The module of a text with its places, or what stops it.
fn read_text(alloc: Global, text: &[u8]) -> Result<Parsed, ReadStop>
    requires { length text.now < 2 ^ 32 - 1 }
    ensures module { IfOk result (λ p. Spells p.module text.now) }
    ensures places { IfOk result (λ p. HasPlaces text.now p.places) }
    ensures few { IfOk result (λ p. length p.module.funcs < 2 ^ 32) }
    ensures refused { IfErr result (λ stop. answers.MayStopWith text.now stop) }
{
    match read_syntax(alloc, text) {
        Ok(items) => named(alloc, text, items.as_slice()),
        Err(stop) => Err(syntax_stop(text, stop)),
    }
}

/// Reads a module text of fewer than 2^32 - 1 bytes, whole. It gives the module that the text spells, with the place
/// of each of its spots; or it tells the first fault of the text and its place. What is wrong with tokens and syntax
/// comes before all that is wrong with names. [`ReadStop::Memory`] says nothing of the text.
///
/// # Cost
///
/// It is linear in the bytes. The tokens are let go before names are looked at, and the syntax tree when they are
/// done.
pub fn read(alloc: Global, bytes: &[u8]) -> Result<Parsed, ReadStop>
    requires { length bytes.now < 2 ^ 32 - 1 }
    ensures module { IfOk result (λ p. Spells p.module bytes.now) }
    ensures complete { (m : TheModule) → Spells m bytes.now → answers.GivesModule m result }
    ensures places { IfOk result (λ p. HasPlaces bytes.now p.places) }
    ensures printable { IfOk result (λ p. IsPrintable p.module) }
    ensures spots { IfOk result (λ p. map (λ x. x.0) p.places ≡ spots p.module) }
    ensures few { IfOk result (λ p. length p.module.funcs < 2 ^ 32) }
    ensures refused { IfErr result (λ stop. answers.MayStopWith bytes.now stop) }
    ensures misread { (code : TheCode) (place : ThePlace) → Misread bytes.now code place
        → answers.Refuses code place result }
{
    one_answer();
    places_are_of_spots();
    read_modules_are_printable();
    see_bytes(bytes);
    read_text(alloc, bytes)
}
