//! The text of findings.
ghost use Rattle.std.specs.Prelude.{◌≡◌, ◌∷◌, ◌++◌, [], IsSome, OnOk, IfOk};
ghost use Rattle.ir_module.specs.Places.{place_of};
ghost use Rattle.finding_lines.specs.Lines as spec;

use ir_module::{Place, Places};
use ir_values::{Bytes, Memory, push_decimal};
use profile_rules::Finding;
use std::alloc::Global;

/// Adds a number behind a tab.
fn push_field(text: &mut Bytes, n: u32) -> Result<(), Memory>
    ensures { OnOk result (text.new ≡ text.old ++ spec.field n) }
{
    text.push(b'\t')?;
    push_decimal(text, u128::from(n))
}

/// Adds the rule's letter and number behind a tab, and ends the line.
fn push_rule(text: &mut Bytes, letter: u8, rule: u8) -> Result<(), Memory>
    ensures { OnOk result (text.new ≡ text.old ++ spec.rule_field letter rule) }
{
    text.push(b'\t')?;
    text.push(letter)?;
    push_decimal(text, u128::from(rule))?;
    text.push(b'\n')
}

/// Adds the line of a rule that is broken at a place.
fn push_line(text: &mut Bytes, letter: u8, place: Place, rule: u8) -> Result<(), Memory>
    ensures { OnOk result (text.new ≡ text.old ++ spec.line_at letter place rule) }
{
    text.extend_from_slice(b"FINDING")?;
    push_field(text, place.line)?;
    push_field(text, place.column)?;
    push_rule(text, letter, rule)
}

/// Adds the line of a finding, whose spot has a place.
fn push_finding(text: &mut Bytes, letter: u8, places: &Places, f: &Finding) -> Result<(), Memory>
    requires { IsSome (place_of places.now f.now.spot) }
    ensures { OnOk result (text.new ≡ text.old ++ spec.finding_line letter places.now f.now) }
{
    push_line(text, letter, places.of(f.spot), f.rule)
}

/// Adds the lines of findings, whose spots have places.
fn push_findings(
    text: &mut Bytes,
    letter: u8,
    places: &Places,
    mut found: &[Finding],
) -> Result<(), Memory>
    requires { spec.HavePlaces places.now found.now }
    ensures { OnOk result (text.new ≡ text.old ++ spec.finding_lines letter places.now found.entry.now) }
{
    while let [f, rest @ ..] = found {
        push_finding(text, letter, places, f)?;
        found = rest;
    }
    Ok(())
}

/// The text that tells findings, whose spots have places: a line for each, in order, with the place and the rule by the
/// letter of its profile and its number, or `OK` where there is none. Each line ends with a line feed.
pub fn findings_text(
    alloc: Global,
    letter: u8,
    places: &Places,
    found: &[Finding],
) -> Result<Bytes, Memory>
    requires { spec.HavePlaces places.now found.now }
    ensures { IfOk result (λ text. text ≡ spec.findings_text letter places.now found.now) }
{
    let mut text = Bytes::new(alloc);
    if found.is_empty() {
        text.extend_from_slice(b"OK\n")?;
    } else {
        push_findings(&mut text, letter, places, found)?;
    }
    Ok(text)
}
