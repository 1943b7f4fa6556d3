//! The text of a program that is generated for a number.
ghost use Rattle.std.specs.Prelude.{◌≡◌, ◌<◌, ◌++◌, length, map, IfOk, OnOk};
ghost use Rattle.generated_text.specs.Text as spec;

use ir_values::{Bytes, Memory, push_decimal};
use std::alloc::Global;

/// The lines before that of the number of turns.
const BEFORE: [&[u8]; 6] = [
    b"define i64 @main() #0 {",
    b"entry:",
    b"  call void @__quantum__rt__initialize(i8* null)",
    b"  br label %head",
    b"head:",
    b"  %i = phi i64 [ 0, %entry ], [ %next, %join ]",
];

/// The beginning of the line of the number of turns.
const COMPARISON: &[u8] = b"  %more = icmp slt i64 %i, ";

/// The end of that line, and the lines behind it.
const AFTER: [&[u8]; 25] = [
    b"",
    b"  br i1 %more, label %turn, label %done",
    b"turn:",
    b"  %q = call %Qubit* @__quantum__rt__qubit_allocate()",
    b"  %low = and i64 %i, 1",
    b"  %odd = icmp eq i64 %low, 1",
    b"  br i1 %odd, label %flip, label %look",
    b"flip:",
    b"  call void @__quantum__qis__x__body(%Qubit* %q)",
    b"  br label %look",
    b"look:",
    b"  %r = call %Result* @__quantum__qis__m__body(%Qubit* %q)",
    b"  %b = call i1 @__quantum__rt__read_result(%Result* %r)",
    b"  br i1 %b, label %fix, label %join",
    b"fix:",
    b"  call void @__quantum__qis__x__body(%Qubit* %q)",
    b"  br label %join",
    b"join:",
    b"  call void @__quantum__rt__qubit_release(%Qubit* %q)",
    b"  call void @__quantum__rt__result_record_output(%Result* %r, i8* null)",
    b"  %next = add i64 %i, 1",
    b"  br label %head",
    b"done:",
    b"  ret i64 0",
    b"}",
];

/// The functions that are called, and the attribute of the entry.
const DECLARATIONS: [&[u8]; 8] = [
    b"declare void @__quantum__rt__initialize(i8*)",
    b"declare %Qubit* @__quantum__rt__qubit_allocate()",
    b"declare void @__quantum__rt__qubit_release(%Qubit*)",
    b"declare i1 @__quantum__rt__read_result(%Result*)",
    b"declare void @__quantum__rt__result_record_output(%Result*, i8*)",
    b"declare void @__quantum__qis__x__body(%Qubit*)",
    b"declare %Result* @__quantum__qis__m__body(%Qubit*)",
    b"attributes #0 = { \"entry_point\" }",
];

/// Adds lines, each with its line feed.
fn push_lines(text: &mut Bytes, mut lines: &[&[u8]]) -> Result<(), Memory>
    ensures { OnOk result
        (text.new ≡ text.old ++ spec.in_lines (map (λ line. line.now) lines.entry.now)) }
{
    while let [line, rest @ ..] = lines {
        text.extend_from_slice(line)?;
        text.push(b'\n')?;
        lines = rest;
    }
    Ok(())
}

/// Makes the text from its lines.
#[tactic(auto, unfolding(crate::specs::Text::generated, crate::specs::Text::before_turns, crate::specs::Text::after_turns, crate::specs::Text::declarations))]
fn from_lines(alloc: Global, turns: u32) -> Result<Bytes, Memory>
    ensures { IfOk result (λ text. text ≡ spec.generated turns) }
{
    let mut text = Bytes::new(alloc);
    push_lines(&mut text, &BEFORE)?;
    text.extend_from_slice(COMPARISON)?;
    push_decimal(&mut text, u128::from(turns))?;
    push_lines(&mut text, &AFTER)?;
    push_lines(&mut text, &DECLARATIONS)?;
    Ok(text)
}

/// The text of the program that makes so many turns. The only error is want of memory.
pub fn generated_text(alloc: Global, turns: u32) -> Result<Bytes, Memory>
    ensures text { IfOk result (λ text. text ≡ spec.generated turns) }
    ensures short { IfOk result (λ text. length text < 2000) }
{
    let text = from_lines(alloc, turns)?;
    Ok(text)
}
