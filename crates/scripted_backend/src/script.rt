//! A backend that answers given bits.
ghost use Rattle.std.specs.Prelude.{◌≡◌, ◌≤◌, [], ◌∷◌, IfOk, IfErr, OnOk, OnErr};
ghost use Rattle.backend_api.specs.declared.operation.Answer.TheVariants as answer;
ghost use Rattle.backend_api.specs.Backend.{Answered, Refused, Keeps};
ghost use Rattle.backend_api.specs.Operations.{IsGate, IsMeasurement};
ghost use Rattle.scripted_backend.specs.Script.{seen, told_fits};

use backend_api::{Answer, Backend, Event, Op, Stop, Turned};
use ir_values::{Memory, Room, Seq};
use std::alloc::Global;
use std::marker::Model;

/// A backend that does every operation and answers measurements with given bits, in order, each once.
/// It has no faults.
///
/// Contracts see the events, the bits left, and for how many events more there is room.
#[derive(Debug, Drop)]
pub struct Script {
    bits: Seq<bool>,
    next: usize,
    events: Room<Event>,
}

impl Model for Script {
    ghost use Rattle.std.specs.Prelude.{◌≤◌, drop, length};
    ghost use Rattle.scripted_backend.specs.Script.{ScriptState};

    ghost Value = { ScriptState };

    ghost view = { λ s. record {
      events = s.events.items;
      left = drop s.next s.bits;
      spare = s.events.spare;
    } };

    ghost invariant = { λ s. s.next ≤ length s.bits };
}

impl Script {
    /// No event, and all of `bits` left. [`Memory`] comes where there is none for them.
    pub fn new(alloc: Global, bits: &[bool]) -> Result<Script, Memory>
        ensures events { IfOk result (λ s. s.events ≡ []) }
        ensures left { IfOk result (λ s. s.left ≡ bits.now) }
    {
        let mut given = Seq::new(alloc);
        given.extend_from_slice(bits)?;
        Ok(Script {
            bits: given,
            next: 0,
            events: Room::new(alloc),
        })
    }

    /// Makes room for `k` events more, so that the next `k` answers need no memory. [`Memory`] leaves
    /// events, bits and the room that there is.
    pub fn reserve(&mut self, k: usize) -> Result<(), Memory>
        ensures room { OnOk result (k ≤ self.new.spare) }
        ensures kept { self.old.spare ≤ self.new.spare }
        ensures events { self.new.events ≡ self.old.events }
        ensures left { self.new.left ≡ self.old.left }
    {
        self.events.reserve(k)
    }

    /// The operations that it answered, the oldest first.
    pub fn events(&self) -> &[Event]
        ensures { result.now ≡ self.now.events }
    {
        self.events.as_slice()
    }

    /// The bits that measurements haven't been answered with yet, in order.
    pub fn left(&self) -> &[bool]
        ensures { result.now ≡ self.now.left }
    {
        &self.bits.as_slice()[self.next..]
    }
}

impl Backend for Script {
    ghost state = { seen };

    ghost told_fits = { told_fits };

    fn gate(&mut self, op: Op) -> Result<(), Turned>
        requires { IsGate op }
        ensures answered { OnOk result (Answered op answer.Done (seen self.old) (seen self.new)) }
        ensures refused { IfErr result (λ turned.
            Refused op turned (seen self.old) (seen self.new)) }
        ensures keeps { Keeps (seen self.old) (seen self.new) }
        ensures left { self.new.left ≡ self.old.left }
    {
        self.events.push(Event {
            op,
            answer: Answer::Done,
        })?;
        Ok(())
    }

    /// Answers the first bit left. [`Stop::Empty`] comes exactly where none is left.
    fn measure(&mut self, op: Op) -> Result<bool, Turned>
        requires { IsMeasurement op }
        ensures answered { IfOk result (λ bit.
            Answered op (answer.Bit bit) (seen self.old) (seen self.new)) }
        ensures refused { IfErr result (λ turned.
            Refused op turned (seen self.old) (seen self.new)) }
        ensures keeps { Keeps (seen self.old) (seen self.new) }
        ensures next { IfOk result (λ bit. self.old.left ≡ bit ∷ self.new.left) }
        ensures left { OnErr result (self.new.left ≡ self.old.left) }
    {
        let Some(&bit) = self.bits.as_slice().get(self.next) else {
            return Err(Turned {
                op,
                why: Stop::Empty,
            });
        };
        self.events.push(Event {
            op,
            answer: Answer::Bit(bit),
        })?;
        self.next += 1;
        Ok(bit)
    }
}
