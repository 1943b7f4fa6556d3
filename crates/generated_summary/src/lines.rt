//! The lines of a summary.
ghost use Rattle.std.specs.Prelude.{◌≡◌, ◌++◌, IfErr, IfOk, OnOk};
ghost use Rattle.generated_summary.specs.Alike.{RunAlike};
ghost use Rattle.generated_summary.specs.Lines as spec;
ghost use Rattle.generated_summary.specs.Summaries.{most_configurations, plain_adaptive};
ghost use Rattle.sound_lowering.specs.Programs.{IsNotLowered};
ghost use Rattle.unroller.specs.Refusals.{IfRefused};

use crate::summary::{Summary, summarize};
use admission::Checked;
use ir_values::{Bytes, Memory, push_decimal};
use std::alloc::Global;
use unroller::LowerStop;

/// Adds a line with a number in its one field.
fn push_line(text: &mut Bytes, name: &[u8], n: u64) -> Result<(), Memory>
    ensures { OnOk result (text.new ≡ text.old ++ spec.number_line name.now n) }
{
    text.extend_from_slice(name)?;
    push_decimal(text, u128::from(n))?;
    text.push(b'\n')
}

/// The line that says whether the runs are the same.
fn same_line(same: bool) -> &'static [u8]
    ensures { result.now ≡ spec.same_line same }
{
    if same {
        b"SAME\ttrue\n"
    } else {
        b"SAME\tfalse\n"
    }
}

/// The lines of the summary of the program that makes so many turns, as text.
#[tactic(auto, unfolding(crate::specs::Lines::summary_text))]
fn summary_text(alloc: Global, turns: u32, summary: &Summary) -> Result<Bytes, Memory>
    ensures { IfOk result (λ text. text ≡ spec.summary_text turns summary.now) }
{
    let mut text = Bytes::new(alloc);
    push_line(&mut text, b"GEN\t", u64::from(turns))?;
    push_line(
        &mut text,
        b"CONFIGURATIONS\t",
        u64::from(summary.configurations),
    )?;
    push_line(&mut text, b"STEPS\t", summary.steps)?;
    push_line(&mut text, b"EVENTS\t", summary.events as u64)?;
    push_line(&mut text, b"RECORDS\t", summary.records as u64)?;
    push_line(&mut text, b"BYTES\t", summary.bytes as u64)?;
    text.extend_from_slice(same_line(summary.same))?;
    Ok(text)
}

/// The lines of the summary of an admitted module, which was generated for so many turns. [`summarize`] says what else may
/// come.
pub fn summary_lines(alloc: Global, checked: &Checked, turns: u32) -> Result<Bytes, LowerStop>
    ensures told { IfOk result (spec.TellsSummary turns checked.now.tree) }
    ensures alike { IfOk result (λ _. RunAlike checked.now.tree) }
    ensures refused { IfErr result (λ stop.
        IfRefused stop (IsNotLowered checked.now.tree plain_adaptive most_configurations)) }
{
    let summary = summarize(alloc, checked)?;
    match summary_text(alloc, turns, &summary) {
        Ok(text) => Ok(text),
        Err(Memory) => Err(LowerStop::Memory),
    }
}
