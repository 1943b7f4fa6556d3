//! The table of bits.
ghost use Rattle.std.specs.Prelude.{◌≡◌, ◌+◌, ◌<◌, ◌≤◌};
ghost use Rattle.indexmap.specs.IndexMap.{spare};
ghost use Rattle.backend_api.specs.declared.operation.QubitRef.{QubitRef};
ghost use Rattle.bit_backend.specs.Actions.{after_action, answer_to, flipped, with_bit};
ghost use Rattle.bit_backend.specs.code.Table.{bit_in};

use crate::action::Action;
use backend_api::{Answer, QubitRef};
use indexmap::IndexMap;

/// The bits of the qubits that were written. A qubit that isn't there has the bit 0.
pub(crate) type Table = IndexMap<QubitRef, bool>;

/// The bit of a qubit.
fn bit_in(table: &Table, qubit: QubitRef) -> bool
    ensures { result ≡ bit_in table.now qubit }
{
    table.get(&qubit).copied().unwrap_or(false)
}

/// The answer of an action, by the bits before it.
pub(crate) fn answer_to(table: &Table, action: Action) -> Answer
    ensures { result ≡ answer_to action (bit_in table.now) }
{
    match action {
        Action::Measure(qubit) | Action::MeasureAndReset(qubit) => {
            Answer::Bit(bit_in(table, qubit))
        }
        _ => Answer::Done,
    }
}

/// Does what an action does to bits, in room for two qubits more.
pub(crate) fn apply(table: &mut Table, action: Action)
    requires { 2 ≤ spare table.old }
    ensures { (p : QubitRef) → bit_in table.new p ≡ after_action action (bit_in table.old) p }
{
    match action {
        Action::Flip(qubit) => flip(table, qubit),
        Action::Reset(qubit) | Action::MeasureAndReset(qubit) => write(table, qubit, false),
        Action::Swap(a, b) => swap(table, a, b),
        Action::FlipIf { control, target } => {
            if bit_in(table, control) {
                flip(table, target);
            }
        }
        Action::FlipIfBoth {
            first,
            second,
            target,
        } => {
            if bit_in(table, first) && bit_in(table, second) {
                flip(table, target);
            }
        }
        Action::Measure(_) => {}
    }
}

fn flip(table: &mut Table, qubit: QubitRef)
    requires { 0 < spare table.old }
    ensures { (p : QubitRef) → bit_in table.new p ≡ flipped qubit (bit_in table.old) p }
{
    let bit = bit_in(table, qubit);
    write(table, qubit, !bit);
}

fn swap(table: &mut Table, a: QubitRef, b: QubitRef)
    requires { 2 ≤ spare table.old }
    ensures { (p : QubitRef) → bit_in table.new p
        ≡ after_action (Action.Swap a b) (bit_in table.old) p }
{
    let bit_of_a = bit_in(table, a);
    let bit_of_b = bit_in(table, b);
    write(table, b, bit_of_a);
    write(table, a, bit_of_b);
}

fn write(table: &mut Table, qubit: QubitRef, bit: bool)
    requires { 0 < spare table.old }
    ensures bits { (p : QubitRef) → bit_in table.new p ≡ with_bit qubit bit (bit_in table.old) p }
    ensures room { spare table.old ≤ spare table.new + 1 }
{
    let _ = table.insert(qubit, bit).unwrap();
}
