//! Writing what runs did.
ghost use Rattle.std.specs.Prelude.{◌≡◌, ◌+◌, ◌<◌, ◌≤◌, length, take, OnOk, OnErr, IfErr, IfSome, map, slice_get};
ghost use Rattle.ir_values.specs.Counts.{Rose};
ghost use Rattle.qir_ports.specs.Known.{Takes};
ghost use Rattle.output_lines.specs.RecordLines.{head_lines, last_lines, metadata_line, output_line, schema_line, shot_lines};
ghost use Rattle.output_lines.specs.TraceLines.{trace_lines};
ghost use Rattle.output_lines.specs.Writing.{Writes, text_of};

use crate::event_line::Trace;
use crate::last::{Last, Schema};
use crate::line::{ShotStop, write_line, write_lines};
use crate::record_line::{Metadata, Unlabeled, last_line};
use backend_api::Event;
use ir_module::{Attrs, Function, Module};
use ir_values::FuncId;
use output_records::Records;
use qir_ports::{Sink, WriteStop, write_all};
use std::alloc::Global;

/// The line that names the version of the schemas.
const VERSION_LINE: &[u8] = b"HEADER\tschema_version\t1.0\n";

/// Writes the lines that stand before all shots, and takes no memory. After a failed write exactly the
/// first `written` bytes of them were written, and not all.
pub fn write_head<K: Sink>(k: &mut K, schema: Schema) -> Result<(), WriteStop>
    ensures ok { OnOk result (Takes (K.taken k.old) (text_of (head_lines schema)) (K.taken k.new)) }
    ensures failed { OnErr result (Rose (K.faults k.old) (K.faults k.new)) }
    ensures written { IfErr result (λ stop.
        Takes (K.taken k.old) (take stop.written (text_of (head_lines schema))) (K.taken k.new)) }
    ensures not_all { IfErr result (λ stop. stop.written < length (text_of (head_lines schema))) }
    ensures later { K.faults k.old ≤ K.faults k.new }
{
    let id = schema_line(schema);
    match write_all(k, id) {
        Ok(()) => match write_all(k, VERSION_LINE) {
            Ok(()) => Ok(()),
            Err(stop) => Err(WriteStop {
                written: id.len() + stop.written,
            }),
        },
        Err(stop) => Err(stop),
    }
}

/// The line that names the schema.
fn schema_line(schema: Schema) -> &'static [u8]
    ensures { result.now ≡ schema_line schema }
{
    match schema {
        Schema::Labeled => b"HEADER\tschema_id\tlabeled\n",
        Schema::Ordered => b"HEADER\tschema_id\tordered\n",
    }
}

/// Writes the lines of a shot: its start, the attributes of the entry, the records, and how it ended.
pub fn write_shot<K: Sink>(
    alloc: Global,
    k: &mut K,
    schema: Schema,
    m: &Module,
    entry: FuncId,
    records: &Records,
    last: &Last,
) -> Result<(), ShotStop>
    requires { entry.0 < length m.now.funcs }
    ensures writes { IfSome (slice_get m.now.funcs entry.0) (λ f.
        Writes (shot_lines schema m.now f records.now last.now) (K.taken k.old) (K.taken k.new)
        (K.faults k.old) (K.faults k.new) result) }
    ensures later { K.faults k.old ≤ K.faults k.new }
{
    write_run(alloc, k, schema, m, m.function(entry), records, last)
}

/// Writes the lines of a shot of the module with this entry.
fn write_run<K: Sink>(
    alloc: Global,
    k: &mut K,
    schema: Schema,
    m: &Module,
    entry: &Function,
    records: &Records,
    last: &Last,
) -> Result<(), ShotStop>
    ensures writes { Writes (shot_lines schema m.now entry.now records.now last.now)
        (K.taken k.old) (K.taken k.new) (K.faults k.old) (K.faults k.new) result }
    ensures later { K.faults k.old ≤ K.faults k.new }
{
    write_line(k, b"START\n")?;
    write_attributes(alloc, k, &entry.attrs)?;
    write_records(alloc, k, schema, m, records)?;
    write_last(alloc, k, last)
}

/// Writes the lines of attributes.
fn write_attributes<K: Sink>(alloc: Global, k: &mut K, attrs: &Attrs) -> Result<(), ShotStop>
    ensures writes { Writes (map metadata_line attrs.now) (K.taken k.old) (K.taken k.new)
        (K.faults k.old) (K.faults k.new) result }
    ensures later { K.faults k.old ≤ K.faults k.new }
{
    write_lines(alloc, k, &Metadata, attrs.as_slice())
}

/// Writes the lines of records.
fn write_records<K: Sink>(
    alloc: Global,
    k: &mut K,
    schema: Schema,
    m: &Module,
    records: &Records,
) -> Result<(), ShotStop>
    ensures writes { Writes (map (output_line schema m.now.globals) records.now) (K.taken k.old)
        (K.taken k.new) (K.faults k.old) (K.faults k.new) result }
    ensures later { K.faults k.old ≤ K.faults k.new }
{
    match schema {
        Schema::Labeled => write_lines(alloc, k, m, records.as_slice()),
        Schema::Ordered => write_lines(alloc, k, &Unlabeled, records.as_slice()),
    }
}

/// Writes the lines of a trace: its events, and how it ended.
pub fn write_trace<K: Sink>(
    alloc: Global,
    k: &mut K,
    events: &[Event],
    last: &Last,
) -> Result<(), ShotStop>
    ensures writes { Writes (trace_lines events.now last.now) (K.taken k.old) (K.taken k.new)
        (K.faults k.old) (K.faults k.new) result }
    ensures later { K.faults k.old ≤ K.faults k.new }
{
    write_lines(alloc, k, &Trace, events)?;
    write_last(alloc, k, last)
}

/// Writes the last line of a shot.
fn write_last<K: Sink>(alloc: Global, k: &mut K, last: &Last) -> Result<(), ShotStop>
    ensures writes { Writes (last_lines last.now) (K.taken k.old) (K.taken k.new) (K.faults k.old)
        (K.faults k.new) result }
    ensures later { K.faults k.old ≤ K.faults k.new }
{
    let line = last_line(alloc, last)?;
    write_line(k, line.as_slice())
}
