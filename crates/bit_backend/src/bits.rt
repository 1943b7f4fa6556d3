//! The backend: a table of bits beside the events.
ghost use Rattle.std.specs.Prelude.{◌≡◌, true, [], Some, IfOk, IfErr};
ghost use Rattle.backend_api.specs.Backend.{Answered, Refused, Keeps};
ghost use Rattle.backend_api.specs.declared.operation.Answer.TheVariants as answer;
ghost use Rattle.backend_api.specs.declared.operation.Event.{Event};
ghost use Rattle.backend_api.specs.Operations.{IsGate, IsMeasurement};
ghost use Rattle.bit_backend.specs.Bits.{answer_after, fits, state_of, told_events_fit};

use crate::action::action_of;
use crate::table::{Table, answer_to, apply};
use backend_api::{Answer, Backend, Event, Op, Stop, Turned};
use indexmap::IndexMap;
use ir_values::Room;
use std::alloc::Global;
use std::marker::Model;

/// Qubits that are classical bits, each 0 at first.
///
/// It does the operations that have a meaning for bits (QIR specification, 'Quantum Instruction Set').
/// These are known by their names, here without `__quantum__qis__` before and `__body` behind, and have
/// just the arguments that are named, no two of the qubits the same:
///
/// - `x` of a qubit flips it, and `reset` of a qubit sets it to 0.
/// - `swap` of two qubits exchanges them.
/// - `cnot` and `cx` of two qubits flip the second where the first is 1.
/// - `ccx` of three qubits flips the third where both others are 1.
/// - `mz` and `m` of a qubit and a result answer the qubit's bit.
/// - `mresetz` of a qubit and a result answers the qubit's bit and sets it to 0.
///
/// Every other operation is refused as [`Stop::Unsupported`]. One that it can do may be refused as
/// [`Stop::Memory`], since no room is promised, and no other refusal comes. What is refused is handed back
/// and changes nothing. But where the table or the list of events grows, an operation goes over no qubit
/// that it doesn't name and over no event.
///
/// Contracts see the events that it answered. They fit: each is an operation that it can do, with the
/// answer after the events before it.
#[derive(Debug, Drop)]
pub struct Bits {
    table: Table,
    events: Room<Event>,
    ghost fitting: { fits events.items ≡ true },
}

impl Model for Bits {
    ghost use Rattle.std.specs.Prelude.{◌≡◌};
    ghost use Rattle.backend_api.specs.declared.operation.QubitRef.{QubitRef};
    ghost use Rattle.bit_backend.specs.Bits.{History, bit_after};
    ghost use Rattle.bit_backend.specs.code.Table.{bit_in};

    ghost Value = { History };

    ghost view = { λ b. record { events = b.events.items; fitting = b.fitting } };

    ghost invariant = { λ b. (p : QubitRef) → bit_in b.table p ≡ bit_after b.events.items p };
}

impl Bits {
    /// Every qubit is 0, and there is no event. It takes no memory.
    pub fn new(alloc: Global) -> Bits
        ensures { result.events ≡ [] }
    {
        Bits {
            table: IndexMap::new(alloc),
            events: Room::new(alloc),
        }
    }

    /// The events, the oldest first: the operations that were answered, with their answers.
    pub fn events(&self) -> &[Event]
        ensures { result.now ≡ self.now.events }
    {
        self.events.as_slice()
    }

    /// Does an operation and answers it. Memory for the table and the events is made sure of before a
    /// bit changes.
    fn perform(&mut self, op: Op) -> Result<Answer, Turned>
        ensures answered { IfOk result (λ a.
            Answered op a (state_of self.old) (state_of self.new)) }
        ensures answer { IfOk result (λ a. answer_after self.old.events op ≡ Some a) }
        ensures refused { IfErr result (λ turned.
            Refused op turned (state_of self.old) (state_of self.new)) }
    {
        let Some(action) = action_of(&op) else {
            return Err(Turned {
                op,
                why: Stop::Unsupported,
            });
        };
        if self.table.reserve(2).is_err() {
            return Err(Turned {
                op,
                why: Stop::Memory,
            });
        }
        let answer = answer_to(&self.table, action);
        self.events.push(Event { op, answer })?;
        apply(&mut self.table, action);
        Ok(answer)
    }
}

impl Backend for Bits {
    ghost state = { state_of };

    ghost told_fits = { told_events_fit };

    /// Does a gate: an operation without a result.
    fn gate(&mut self, op: Op) -> Result<(), Turned> {
        self.perform(op)?;
        Ok(())
    }

    /// Does a measurement: an operation with a result. It answers the bit of its qubit after the events
    /// before it.
    fn measure(&mut self, op: Op) -> Result<bool, Turned>
        requires { IsMeasurement op }
        ensures answered { IfOk result (λ bit.
            Answered op (answer.Bit bit) (state_of self.old) (state_of self.new)) }
        ensures refused { IfErr result (λ turned.
            Refused op turned (state_of self.old) (state_of self.new)) }
        ensures keeps { Keeps (state_of self.old) (state_of self.new) }
        ensures bit { IfOk result (λ bit. answer_after self.old.events op ≡ Some (answer.Bit bit)) }
    {
        match self.perform(op)? {
            Answer::Bit(bit) => Ok(bit),
            Answer::Done => unreachable!(),
        }
    }
}
