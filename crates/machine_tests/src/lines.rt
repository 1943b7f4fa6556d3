//! The lines that runs write, by words.
use ir_values::Bytes;
use std::alloc::Global;
use std::test::Fail;

const LINES: [(&str, &str); 39] = [
    ("labeled", "HEADER\tschema_id\tlabeled\n"),
    ("ordered", "HEADER\tschema_id\tordered\n"),
    ("version", "HEADER\tschema_version\t1.0\n"),
    ("start", "START\n"),
    ("entry", "METADATA\tentry_point\n"),
    ("base", "METADATA\tqir_profiles\tbase_profile\n"),
    ("labels", "METADATA\toutput_labeling_schema\tlabeled\n"),
    ("qubits:2", "METADATA\trequired_num_qubits\t2\n"),
    ("qubits:3", "METADATA\trequired_num_qubits\t3\n"),
    ("results:2", "METADATA\trequired_num_results\t2\n"),
    ("tuple:2", "OUTPUT\tTUPLE\t2\n"),
    ("1:r0", "OUTPUT\tRESULT\t1\tr0\n"),
    ("1:r1", "OUTPUT\tRESULT\t1\tr1\n"),
    ("1", "OUTPUT\tRESULT\t1\n"),
    ("0", "OUTPUT\tRESULT\t0\n"),
    ("end", "END\t0\n"),
    ("cut", "STOP\tCut\n"),
    ("empty", "STOP\tEmpty\n"),
    ("failed", "STOP\tFailed\n"),
    ("unsupported", "STOP\tUnsupported\n"),
    ("overflow", "STOP\tOverflow\n"),
    ("poison", "STOP\tPoison\n"),
    ("unset", "STOP\tReadUnset\n"),
    ("unbound", "STOP\tUnbound\n"),
    ("released", "STOP\tReleased\n"),
    ("h0", "GATE\t__quantum__qis__h__body\tq0\n"),
    ("h1", "GATE\t__quantum__qis__h__body\tq1\n"),
    ("cnot01", "GATE\t__quantum__qis__cnot__body\tq0\tq1\n"),
    ("cnot12", "GATE\t__quantum__qis__cnot__body\tq1\tq2\n"),
    ("x0", "GATE\t__quantum__qis__x__body\tq0\n"),
    ("x2", "GATE\t__quantum__qis__x__body\tq2\n"),
    ("z2", "GATE\t__quantum__qis__z__body\tq2\n"),
    ("phase:0", "GATE\t__quantum__qis__phase__body\ti64:0\tq0\n"),
    ("phase:1", "GATE\t__quantum__qis__phase__body\ti64:1\tq0\n"),
    ("phase:2", "GATE\t__quantum__qis__phase__body\ti64:2\tq0\n"),
    ("mz0=0", "BIT\t0\t__quantum__qis__mz__body\tq0\tr0\n"),
    ("mz0=1", "BIT\t1\t__quantum__qis__mz__body\tq0\tr0\n"),
    ("mz1=0", "BIT\t0\t__quantum__qis__mz__body\tq1\tr1\n"),
    ("mz1=1", "BIT\t1\t__quantum__qis__mz__body\tq1\tr1\n"),
];

/// The line of a word.
fn line_of(word: &str) -> Option<&'static str> {
    for (of, line) in LINES {
        if of == word {
            return Some(line);
        }
    }
    None
}

/// The lines of the first so many words.
pub fn lines_of(alloc: Global, words: &str, count: usize) -> Result<Bytes, Fail> {
    let mut text = Bytes::new(alloc);
    for word in words.split(' ').take(count) {
        text.extend_from_slice(line_of(word).ok_or("a word of a line")?.as_bytes())?;
    }
    Ok(text)
}
