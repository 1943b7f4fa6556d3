//! The class of a declared function, by its name and its type.
ghost use Rattle.std.specs.Prelude.{◌≡◌, ◌&&◌, count_by};
ghost use Rattle.std.specs.List.{list_all, list_any};
ghost use Rattle.std.specs.List as list;
ghost use Rattle.std.specs.Option.{option_map};
ghost use Rattle.ir_values.specs.Calls as spec;
ghost use Rattle.ir_values.specs.code.CallRows as table;

use crate::Bytes;
use crate::class::Class;
use crate::int::Width;
use crate::sig::{Sig, TyWord};

/// What the names of all runtime functions and quantum instructions begin with.
pub const QUANTUM_PREFIX: &[u8] = b"__quantum__";

/// What the names of runtime functions begin with (QIR specification, 'Runtime Functions').
pub const RUNTIME_PREFIX: &[u8] = b"__quantum__rt__";

/// What the names of quantum instructions begin with (QIR specification, 'Quantum Instruction Set').
pub const INSTRUCTION_PREFIX: &[u8] = b"__quantum__qis__";

/// A function of this name and of the type that these words spell has this class.
struct Row<'a> {
    name: &'a [u8],
    words: &'a [TyWord],
    class: Class,
}

/// The functions that are known by their names.
const ROWS: [Row<'static>; 19] = [
    Row {
        name: b"__quantum__rt__initialize",
        words: &[TyWord::Func(1), TyWord::Void, TyWord::Text],
        class: Class::Init,
    },
    Row {
        name: b"__quantum__rt__qubit_allocate",
        words: &[TyWord::Func(0), TyWord::Qubit],
        class: Class::Alloc,
    },
    Row {
        name: b"__quantum__rt__qubit_release",
        words: &[TyWord::Func(1), TyWord::Void, TyWord::Qubit],
        class: Class::Release,
    },
    Row {
        name: b"__quantum__rt__result_get_one",
        words: &[TyWord::Func(0), TyWord::Res],
        class: Class::One,
    },
    Row {
        name: b"__quantum__rt__result_get_zero",
        words: &[TyWord::Func(0), TyWord::Res],
        class: Class::Zero,
    },
    Row {
        name: b"__quantum__rt__result_equal",
        words: &[
            TyWord::Func(2),
            TyWord::Int(Width::W1),
            TyWord::Res,
            TyWord::Res,
        ],
        class: Class::Equal,
    },
    Row {
        name: b"__quantum__rt__result_update_reference_count",
        words: &[
            TyWord::Func(2),
            TyWord::Void,
            TyWord::Res,
            TyWord::Int(Width::W32),
        ],
        class: Class::Count,
    },
    Row {
        name: b"__quantum__rt__read_result",
        words: &[TyWord::Func(1), TyWord::Int(Width::W1), TyWord::Res],
        class: Class::Read,
    },
    Row {
        name: b"__quantum__qis__read_result__body",
        words: &[TyWord::Func(1), TyWord::Int(Width::W1), TyWord::Res],
        class: Class::Read,
    },
    Row {
        name: b"__quantum__rt__tuple_record_output",
        words: &[
            TyWord::Func(2),
            TyWord::Void,
            TyWord::Int(Width::W64),
            TyWord::Text,
        ],
        class: Class::Tuple,
    },
    Row {
        name: b"__quantum__rt__array_record_output",
        words: &[
            TyWord::Func(2),
            TyWord::Void,
            TyWord::Int(Width::W64),
            TyWord::Text,
        ],
        class: Class::Array,
    },
    Row {
        name: b"__quantum__rt__result_record_output",
        words: &[TyWord::Func(2), TyWord::Void, TyWord::Res, TyWord::Text],
        class: Class::ResRecord,
    },
    Row {
        name: b"__quantum__rt__bool_record_output",
        words: &[
            TyWord::Func(2),
            TyWord::Void,
            TyWord::Int(Width::W1),
            TyWord::Text,
        ],
        class: Class::BoolRecord,
    },
    Row {
        name: b"__quantum__rt__int_record_output",
        words: &[
            TyWord::Func(2),
            TyWord::Void,
            TyWord::Int(Width::W64),
            TyWord::Text,
        ],
        class: Class::IntRecord,
    },
    Row {
        name: b"__quantum__rt__double_record_output",
        words: &[TyWord::Func(2), TyWord::Void, TyWord::Double, TyWord::Text],
        class: Class::DoubleRecord,
    },
    Row {
        name: b"__quantum__qis__m__body",
        words: &[TyWord::Func(1), TyWord::Res, TyWord::Qubit],
        class: Class::Returning,
    },
    Row {
        name: b"__quantum__qis__m__body",
        words: &[TyWord::Func(2), TyWord::Void, TyWord::Qubit, TyWord::Res],
        class: Class::Measure,
    },
    Row {
        name: b"__quantum__qis__mz__body",
        words: &[TyWord::Func(2), TyWord::Void, TyWord::Qubit, TyWord::Res],
        class: Class::Measure,
    },
    Row {
        name: b"__quantum__qis__mresetz__body",
        words: &[TyWord::Func(2), TyWord::Void, TyWord::Qubit, TyWord::Res],
        class: Class::Measure,
    },
];

/// What a declared function does, by its name and its type: the class of a known name with the types
/// that it has, or that of any other quantum instruction (QIR specification, 'Runtime Functions' and
/// 'Quantum Instruction Set'). A quantum instruction has a name that begins with `__quantum__qis__`,
/// returns nothing and takes qubits, results, integers and doubles. It is a measurement where it takes
/// one result and a gate where it takes none. None for every other function. It takes no memory.
#[tactic(auto, unfolding(crate::specs::Calls::class_of))]
pub fn call_class(name: &Bytes, sig: &Sig) -> Option<Class>
    ensures { result ≡ spec.class_of name.now sig.now }
{
    let name = name.as_slice();
    let words = sig.words().as_slice();
    if is_known_name(name) {
        class_of_known(name, words)
    } else if name.starts_with(INSTRUCTION_PREFIX) {
        class_of_words(words)
    } else {
        None
    }
}

fn is_known_name(name: &[u8]) -> bool
    ensures { result ≡ list_any (λ r. spec.same_text name.now r.name) spec.rows }
{
    is_known(&ROWS, name)
}

fn class_of_known(name: &[u8], words: &[TyWord]) -> Option<Class>
    ensures { result ≡ option_map (λ r. r.class) (list.find (λ r. spec.same_text name.now r.name && spec.same_words words.now r.words) spec.rows) }
{
    find(&ROWS, name, words)
}

/// Whether a row has the name.
fn is_known(mut rows: &[Row<'_>], name: &[u8]) -> bool
    ensures { result ≡ table.is_known name.now rows.entry.now }
{
    while let [row, rest @ ..] = rows {
        if name == row.name {
            return true;
        }
        rows = rest;
    }
    false
}

/// The class of the first row that has the name and the words.
fn find(mut rows: &[Row<'_>], name: &[u8], words: &[TyWord]) -> Option<Class>
    ensures { result ≡ option_map (λ r. r.class) (table.first name.now words.now rows.entry.now) }
{
    while let [row, rest @ ..] = rows {
        if name == row.name && same_words(words, row.words) {
            return Some(row.class);
        }
        rows = rest;
    }
    None
}

fn same_words(words: &[TyWord], others: &[TyWord]) -> bool
    ensures { result ≡ spec.same_words words.now others.now }
{
    words == others
}

/// The class of a quantum instruction that isn't known by its name, by the words of its type.
fn class_of_words(words: &[TyWord]) -> Option<Class>
    ensures { result ≡ spec.class_of_words words.now }
{
    match words {
        [TyWord::Func(_), TyWord::Void, params @ ..] => class_of_params(params),
        _ => None,
    }
}

fn class_of_params(params: &[TyWord]) -> Option<Class>
    ensures { result ≡ spec.class_of_params params.now }
{
    if !all_operands(params) {
        return None;
    }
    match count_results(params) {
        0 => Some(Class::Gate),
        1 => Some(Class::Measure),
        _ => None,
    }
}

fn all_operands(mut params: &[TyWord]) -> bool
    ensures { result ≡ list_all spec.is_operand params.entry.now }
{
    while let [word, rest @ ..] = params {
        if let TyWord::Void | TyWord::Text | TyWord::Func(_) = word {
            return false;
        }
        params = rest;
    }
    true
}

fn count_results(params: &[TyWord]) -> usize
    ensures { result ≡ count_by spec.is_result params.now }
{
    let mut count = 0;
    for word in params {
        if *word == TyWord::Res {
            count += 1;
        }
    }
    count
}
