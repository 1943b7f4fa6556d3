//! The lines of the output schemas.
ghost use Rattle.std.specs.Prelude.{◌≡◌, [], ◌++◌, codes, OnOk, IfOk};
ghost use Rattle.std.specs.Fmt.{signed_decimal};
ghost use Rattle.output_lines.specs.declared.last.Schema.TheVariants as schema;
ghost use Rattle.output_lines.specs.RecordLines as spec;

use crate::field::{digit, push_escaped, push_label, word};
use crate::last::{Last, StopName};
use crate::line::Line;
use ir_module::{Attr, Constants, Module};
use ir_values::{Bytes, Cause, GlobalId, Memory, push_signed};
use output_records::{Record, Shown};
use std::alloc::Global;

/// The attributes of an entry are told alike in every schema.
#[derive(Clone, Copy)]
pub(crate) struct Metadata;

impl Line<Metadata> for Attr {
    ghost line_of = { λ context attr. spec.metadata_line attr };

    fn line(&self, alloc: Global, _context: &Metadata) -> Result<Bytes, Memory> {
        let mut text = Bytes::new(alloc);
        text.extend_from_slice(b"METADATA\t")?;
        push_escaped(alloc, &mut text, self.key.as_slice())?;
        push_value(alloc, &mut text, &self.value)?;
        text.push(b'\n')?;
        Ok(text)
    }
}

/// Adds the field of an attribute's value, if it has one.
fn push_value(alloc: Global, text: &mut Bytes, value: &Option<Bytes>) -> Result<(), Memory>
    ensures { OnOk result (text.new ≡ text.old ++ spec.value_field value.now) }
{
    match value {
        Some(value) => {
            text.push(b'\t')?;
            push_escaped(alloc, text, value.as_slice())
        }
        None => Ok(()),
    }
}

/// The context of records whose labels aren't told.
#[derive(Clone, Copy)]
pub(crate) struct Unlabeled;

impl Line<Unlabeled> for Record {
    ghost line_of = { λ context r. spec.output_line schema.Ordered [] r };

    fn line(&self, alloc: Global, _context: &Unlabeled) -> Result<Bytes, Memory> {
        let mut text = output(alloc, &self.shown)?;
        text.push(b'\n')?;
        Ok(text)
    }
}

/// The labels of records are constants of a module.
impl Line<Module> for Record {
    ghost line_of = { λ m r. spec.output_line schema.Labeled m.globals r };

    fn line(&self, alloc: Global, m: &Module) -> Result<Bytes, Memory> {
        let mut text = output(alloc, &self.shown)?;
        push_label_field(alloc, &mut text, &m.globals, self.label)?;
        text.push(b'\n')?;
        Ok(text)
    }
}

/// The line of a record up to its label.
fn output(alloc: Global, shown: &Shown) -> Result<Bytes, Memory>
    ensures { IfOk result (λ text. text ≡ codes "OUTPUT\t" ++ spec.shown_text shown.now) }
{
    let mut text = Bytes::new(alloc);
    text.extend_from_slice(b"OUTPUT\t")?;
    push_shown(&mut text, shown)?;
    Ok(text)
}

/// Adds what a record shows.
fn push_shown(text: &mut Bytes, shown: &Shown) -> Result<(), Memory>
    ensures { OnOk result (text.new ≡ text.old ++ spec.shown_text shown.now) }
{
    match shown {
        Shown::Tuple(count) => push_number(text, b"TUPLE\t", *count),
        Shown::Array(count) => push_number(text, b"ARRAY\t", *count),
        Shown::Res(bit) => push_word(text, b"RESULT\t", digit(*bit)),
        Shown::Bool(truth) => push_word(text, b"BOOL\t", word(*truth)),
        Shown::Int(number) => push_number(text, b"INT\t", *number),
        Shown::Double(token) => push_word(text, b"DOUBLE\t", token.as_slice()),
    }
}

/// Adds a kind and a number.
fn push_number(text: &mut Bytes, kind: &[u8], number: i64) -> Result<(), Memory>
    ensures { OnOk result (text.new ≡ text.old ++ (kind.now ++ signed_decimal number)) }
{
    text.extend_from_slice(kind)?;
    push_signed(text, i128::from(number))
}

/// Adds a kind and a word.
fn push_word(text: &mut Bytes, kind: &[u8], word: &[u8]) -> Result<(), Memory>
    ensures { OnOk result (text.new ≡ text.old ++ (kind.now ++ word.now)) }
{
    text.extend_from_slice(kind)?;
    text.extend_from_slice(word)
}

/// Adds the field of a record's label, if it has one.
fn push_label_field(
    alloc: Global,
    text: &mut Bytes,
    constants: &Constants,
    label: Option<GlobalId>,
) -> Result<(), Memory>
    ensures { OnOk result (text.new ≡ text.old
        ++ spec.label_field schema.Labeled constants.now label) }
{
    match label {
        Some(number) => push_constant(alloc, text, constants, number),
        None => Ok(()),
    }
}

/// Adds the field of a constant's bytes up to the first zero byte.
fn push_constant(
    alloc: Global,
    text: &mut Bytes,
    constants: &Constants,
    number: GlobalId,
) -> Result<(), Memory>
    ensures { OnOk result (text.new ≡ text.old ++ spec.constant_field constants.now number) }
{
    text.push(b'\t')?;
    match constants.as_slice().get(number.0 as usize) {
        Some(constant) => push_label(alloc, text, constant.bytes.as_slice()),
        None => Ok(()),
    }
}

/// The last line of a shot.
pub(crate) fn last_line(alloc: Global, last: &Last) -> Result<Bytes, Memory>
    ensures { IfOk result (λ line. line ≡ spec.last_line last.now) }
{
    let mut text = Bytes::new(alloc);
    match last {
        Last::Code(code) => push_number(&mut text, b"END\t", *code)?,
        Last::Stop(name) => push_word(&mut text, b"STOP\t", stop_name(*name))?,
    }
    text.push(b'\n')?;
    Ok(text)
}

fn stop_name(name: StopName) -> &'static [u8]
    ensures { result.now ≡ spec.stop_name name }
{
    match name {
        StopName::Trap(cause) => cause_name(cause),
        StopName::Unsupported => b"Unsupported",
        StopName::Empty => b"Empty",
        StopName::Failed => b"Failed",
        StopName::Cut => b"Cut",
    }
}

/// The name of a cause, as a run's last line and a refusal tell it.
pub fn cause_name(cause: Cause) -> &'static [u8]
    ensures { result.now ≡ spec.cause_name cause }
{
    match cause {
        Cause::DivZero => b"DivZero",
        Cause::Overflow => b"Overflow",
        Cause::Poison => b"Poison",
        Cause::ReadUnset => b"ReadUnset",
        Cause::Released => b"Released",
        Cause::BadRelease => b"BadRelease",
        Cause::ConstResult => b"ConstResult",
        Cause::Unbound => b"Unbound",
    }
}
