//! Texts of modules, and what is told of them.
ghost use Rattle.std.specs.Prelude.{◌<◌, ◌^◌, length};
ghost use Rattle.ir_module.specs.Numbered.{Numbered};
ghost use Rattle.ir_module.specs.Printable.{IsPrintable};
ghost use Rattle.finding_lines.specs.Lines.{ArePlaces};

use adaptive_profile::adaptive;
use base_profile::base;
use finding_lines::{adaptive_findings_have_places, base_findings_have_places, findings_text};
use ir_reader::{Parsed, read};
use ir_values::{Bytes, FuncId, Memory};
use profile_rules::Form;
use std::alloc::Global;

/// What a module is held against.
#[derive(Clone, Copy)]
pub enum Check {
    Base(Form),
    Adaptive,
}

/// The flags of a module: the four that each profile asks for, these without the minor version, or these and one more.
#[derive(Clone, Copy)]
pub enum Flags {
    Four,
    Three,
    And(&'static str),
}

/// A body of the entry with its first functions behind, what the module says of itself, and what is told of it.
#[derive(Clone, Copy)]
pub struct Row {
    pub body: &'static str,
    pub attributes: &'static str,
    pub flags: Flags,
    pub check: Check,
    pub told: &'static str,
}

pub const BASE: &str =
    "\"qir_profiles\"=\"base_profile\" \"output_labeling_schema\" \"required_num_qubits\"=\"2\" \"required_num_results\"=\"2\"";

pub const ADAPTIVE: &str =
    "\"qir_profiles\"=\"adaptive_profile\" \"output_labeling_schema\" \"required_num_qubits\"=\"2\" \"required_num_results\"=\"2\"";

pub const NO_SCHEMA: &str =
    "\"qir_profiles\"=\"base_profile\" \"required_num_qubits\"=\"2\" \"required_num_results\"=\"2\"";

pub const NO_RESULTS: &str =
    "\"qir_profiles\"=\"base_profile\" \"output_labeling_schema\" \"required_num_qubits\"=\"2\"";

pub const BARE: &str = "\"qir_profiles\"=\"adaptive_profile\" \"required_num_qubits\"=\"2\"";

const DECLARATIONS: &str =
    "}\ndeclare void @__quantum__rt__initialize(i8*)\ndeclare %Qubit* @__quantum__rt__qubit_allocate()\ndeclare i1 @__quantum__rt__read_result(%Result*)\ndeclare void @__quantum__rt__result_record_output(%Result*, i8*)\ndeclare void @__quantum__rt__tuple_record_output(i64, i8*)\ndeclare void @__quantum__rt__int_record_output(i64, i8*)\ndeclare void @__quantum__qis__h__body(%Qubit*)\ndeclare void @__quantum__qis__m__body(%Qubit*, %Result*)\ndeclare void @__quantum__qis__mz__body(%Qubit*, %Result*) #1\n";

fn push_flags(text: &mut Bytes, flags: Flags) -> Result<(), Memory> {
    match flags {
        Flags::Four => text.extend_from_slice(b"!llvm.module.flags = !{!0, !1, !2, !3}\n")?,
        Flags::Three => text.extend_from_slice(b"!llvm.module.flags = !{!0, !2, !3}\n")?,
        Flags::And(key) => {
            text.extend_from_slice(
                b"!llvm.module.flags = !{!0, !1, !2, !3, !4}\n!4 = !{i32 1, !\"",
            )?;
            text.extend_from_slice(key.as_bytes())?;
            text.extend_from_slice(b"\", i1 true}\n")?;
        }
    }
    text.extend_from_slice(
        b"!0 = !{i32 1, !\"qir_major_version\", i32 1}\n!1 = !{i32 7, !\"qir_minor_version\", i32 0}\n!2 = !{i32 1, !\"dynamic_qubit_management\", i1 false}\n!3 = !{i32 1, !\"dynamic_result_management\", i1 false}\n",
    )
}

/// The text of a row's module.
pub fn text_of(alloc: Global, row: &Row) -> Result<Bytes, Memory> {
    let mut text = Bytes::new(alloc);
    text.extend_from_slice(b"define i64 @main() #0 {\nentry:\n")?;
    text.extend_from_slice(row.body.as_bytes())?;
    text.extend_from_slice(DECLARATIONS.as_bytes())?;
    text.extend_from_slice(b"attributes #0 = { \"entry_point\" ")?;
    text.extend_from_slice(row.attributes.as_bytes())?;
    text.extend_from_slice(b" }\nattributes #1 = { \"irreversible\" }\n")?;
    push_flags(&mut text, row.flags)?;
    Ok(text)
}

fn base_text(alloc: Global, parsed: &Parsed, entry: FuncId, form: Form) -> Result<Bytes, Memory>
    requires numbered { Numbered parsed.now.module }
    requires entry { entry.0 < length parsed.now.module.funcs }
    requires places { ArePlaces parsed.now.module parsed.now.places }
{
    let found = base(alloc, &parsed.module, entry, form)?;
    base_findings_have_places();
    findings_text(alloc, b'B', &parsed.places, found.as_slice())
}

fn adaptive_text(alloc: Global, parsed: &Parsed, entry: FuncId) -> Result<Bytes, Memory>
    requires numbered { Numbered parsed.now.module }
    requires places { ArePlaces parsed.now.module parsed.now.places }
{
    let found = adaptive(alloc, &parsed.module, entry)?;
    adaptive_findings_have_places();
    findings_text(alloc, b'A', &parsed.places, found.as_slice())
}

/// What is told of a module, and nothing where it has no entry.
fn told_of(alloc: Global, parsed: &Parsed, check: Check) -> Result<Bytes, Memory>
    requires printable { IsPrintable parsed.now.module }
    requires places { ArePlaces parsed.now.module parsed.now.places }
    requires few { length parsed.now.module.funcs < 2 ^ 32 }
{
    match (parsed.module.entry(), check) {
        (Some(entry), Check::Base(form)) if (entry.0 as usize) < parsed.module.funcs.len() => {
            base_text(alloc, parsed, entry, form)
        }
        (Some(entry), Check::Adaptive) => adaptive_text(alloc, parsed, entry),
        _ => Ok(Bytes::new(alloc)),
    }
}

/// What is told of a text, and nothing of one that is no module.
pub fn told(alloc: Global, text: &[u8], check: Check) -> Result<Bytes, Memory> {
    if text.len() > 1_000_000 {
        return Ok(Bytes::new(alloc));
    }
    match read(alloc, text) {
        Ok(parsed) => told_of(alloc, &parsed, check),
        Err(_) => Ok(Bytes::new(alloc)),
    }
}
