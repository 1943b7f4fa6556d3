//! Texts of modules, and what their static steps say.
ghost use Rattle.ir_module.specs.Numbered.{Numbered};

use crate::words::{item_word, kind_word, push_code, push_names};
use admission::{Checked, admit};
use inliner::step;
use ir_module::Module;
use ir_reader::read;
use ir_values::{Bytes, Copies, Memory, push_decimal};
use kept_items::{Caps, Item, Target};
use static_steps::{Config, Move, Turn};
use std::alloc::Global;

/// The Adaptive Profile without a capability, and with some.
pub const BARE: Target = Target::Adaptive(Caps {
    ints: false,
    switch: false,
    returns: false,
    loops: false,
});

pub const INTS: Target = Target::Adaptive(Caps {
    ints: true,
    switch: false,
    returns: false,
    loops: false,
});

pub const SWITCH: Target = Target::Adaptive(Caps {
    ints: false,
    switch: true,
    returns: false,
    loops: false,
});

pub const RETURNS: Target = Target::Adaptive(Caps {
    ints: false,
    switch: false,
    returns: true,
    loops: false,
});

pub const ALL: Target = Target::Adaptive(Caps {
    ints: true,
    switch: true,
    returns: true,
    loops: true,
});

/// A bit that constant evaluation doesn't know: the result 0 is read.
pub const READ: &str = "  %d = call i1 @__quantum__rt__read_result(%Result* null)\n";

/// How many steps are told at most.
const MOST: u32 = 12;

const HEAD: &str = "@0 = internal constant [2 x i8] c\"a\\00\"\ndefine i64 @main() #0 {\nentry:\n";

const RUNTIME: &str =
    "}\ndeclare void @__quantum__rt__initialize(i8*)\ndeclare %Qubit* @__quantum__rt__qubit_allocate()\ndeclare void @__quantum__rt__qubit_release(%Qubit*)\ndeclare %Result* @__quantum__rt__result_get_one()\ndeclare %Result* @__quantum__rt__result_get_zero()\ndeclare i1 @__quantum__rt__result_equal(%Result*, %Result*)\ndeclare void @__quantum__rt__result_update_reference_count(%Result*, i32)\ndeclare i1 @__quantum__rt__read_result(%Result*)\n";

const OTHERS: &str =
    "declare void @__quantum__rt__tuple_record_output(i64, i8*)\ndeclare void @__quantum__rt__array_record_output(i64, i8*)\ndeclare void @__quantum__rt__result_record_output(%Result*, i8*)\ndeclare void @__quantum__rt__bool_record_output(i1, i8*)\ndeclare void @__quantum__rt__int_record_output(i64, i8*)\ndeclare void @__quantum__rt__double_record_output(double, i8*)\ndeclare void @__quantum__qis__h__body(%Qubit*)\ndeclare void @__quantum__qis__x__body(%Qubit*)\ndeclare void @__quantum__qis__reset__body(%Qubit*) #1\ndeclare void @__quantum__qis__mz__body(%Qubit*, %Result*) #1\ndeclare %Result* @__quantum__qis__m__body(%Qubit*)\nattributes #0 = { \"entry_point\" \"required_num_qubits\"=\"2\" \"required_num_results\"=\"2\" }\nattributes #1 = { \"irreversible\" }\n";

/// The text of a module: the body of its entry in two halves, perhaps with functions behind, and all that it declares.
pub fn text_of(alloc: Global, first: &str, body: &str) -> Result<Bytes, Memory> {
    let mut text = Bytes::new(alloc);
    text.extend_from_slice(HEAD.as_bytes())?;
    text.extend_from_slice(first.as_bytes())?;
    text.extend_from_slice(body.as_bytes())?;
    text.extend_from_slice(RUNTIME.as_bytes())?;
    text.extend_from_slice(OTHERS.as_bytes())?;
    Ok(text)
}

/// Adds what goes on: what is kept, or to how many configurations it leads, and the names of the first.
fn push_moves(line: &mut Bytes, moves: &[Move], item: &Option<Item>) -> Result<(), Memory> {
    if moves.len() > 1 {
        push_decimal(line, moves.len() as u128)?;
        line.extend_from_slice(b" ways")?;
    } else {
        line.extend_from_slice(item_word(item).as_bytes())?;
    }
    match moves {
        [first, ..] => push_names(line, first.to.top.names.as_slice()),
        [] => Ok(()),
    }
}

/// Adds what a step says.
fn push_turn(line: &mut Bytes, turn: &Turn) -> Result<(), Memory> {
    match turn {
        Turn::Goes(moves, item, _) => push_moves(line, moves.as_slice(), item),
        Turn::Exits(code) => push_code(line, *code),
        Turn::Bad(kind) => line.extend_from_slice(kind_word(*kind).as_bytes()),
        Turn::Lost => line.extend_from_slice(b"lost"),
    }
}

/// The first configuration to which a step leads.
fn first_of(alloc: Global, turn: &Turn) -> Result<Option<Config>, Memory> {
    match turn {
        Turn::Goes(moves, _, _) => match moves.as_slice() {
            [first, ..] => Ok(Some(first.to.copy(alloc)?)),
            [] => Ok(None),
        },
        _ => Ok(None),
    }
}

/// What the step of a configuration says.
fn turn_of(
    alloc: Global,
    checked: &Checked,
    target: Target,
    config: &Config,
) -> Result<Turn, Memory> {
    step(
        alloc,
        checked.module(),
        checked.flows(),
        checked.classes(),
        target,
        config,
    )
}

/// Adds what the step of a configuration says, and gives the first configuration to which it leads.
fn push_step(
    alloc: Global,
    line: &mut Bytes,
    checked: &Checked,
    target: Target,
    config: &Config,
) -> Result<Option<Config>, Memory> {
    let turn = turn_of(alloc, checked, target, config)?;
    push_turn(line, &turn)?;
    first_of(alloc, &turn)
}

/// What the steps of a module say, each along the first edge of the one before.
fn walked(alloc: Global, checked: &Checked, target: Target) -> Result<Bytes, Memory> {
    let mut line = Bytes::new(alloc);
    let mut config = Config::start(alloc, checked.entry());
    for _ in 0..MOST {
        match push_step(alloc, &mut line, checked, target, &config)? {
            Some(next) => config = next,
            None => return Ok(line),
        }
        line.extend_from_slice(b", ")?;
    }
    Ok(line)
}

/// What the steps of a module say for a target, and nothing of one that isn't admitted.
fn told_of(alloc: Global, m: Module, target: Target) -> Result<Bytes, Memory>
    requires { Numbered m }
{
    match admit(alloc, m) {
        Ok(checked) => walked(alloc, &checked, target),
        Err(_) => Ok(Bytes::new(alloc)),
    }
}

/// What the steps of a text's module say for a target, and nothing of a text that isn't admitted.
pub fn told(alloc: Global, text: &[u8], target: Target) -> Result<Bytes, Memory> {
    if text.len() > 1_000_000 {
        return Ok(Bytes::new(alloc));
    }
    match read(alloc, text) {
        Ok(parsed) => told_of(alloc, parsed.module, target),
        Err(_) => Ok(Bytes::new(alloc)),
    }
}
