//! A backend that answers given bits and fails once.
ghost use Rattle.std.specs.Prelude.{◌≡◌, ◌≢◌, ◌↔◌, ◌≤◌, ◌+◌, ◌^◌, true, [], ◌∷◌, IfOk, IfErr, OnOk, OnErr};
ghost use Rattle.backend_api.specs.declared.operation.Answer.TheVariants as answer;
ghost use Rattle.backend_api.specs.Backend.{Answered, Refused, Keeps};
ghost use Rattle.backend_api.specs.Operations.{IsGate, IsMeasurement};
ghost use Rattle.ir_values.specs.Counts.{one_more};
ghost use Rattle.failing_backend.specs.Flaky.{seen, told_fits, fails_next, counted_after, Fails};

use backend_api::{Backend, Event, Op, Stop, Turned};
use scripted_backend::Script;
use std::marker::Model;

/// A backend that does every operation and answers measurements with given bits, as a [`Script`], but fails at one
/// call, before which it has no fault and after which it has one. Later calls work again.
///
/// Calls are counted from 1: those that are answered, and the one that fails. A measurement with no bit left isn't
/// counted, nor a call for which there is no memory. A call after number `u64::MAX` has no number.
///
/// Contracts see what they see of the script, the number of the call that fails, and how many calls were counted.
#[derive(Debug, Drop)]
pub struct Flaky {
    inner: Script,
    fails_at: u64,
    counted: u64,
}

impl Model for Flaky {
    ghost use Rattle.failing_backend.specs.Flaky.{FlakyState};

    ghost Value = { FlakyState };

    ghost view = { λ f. record { script = f.inner; fails_at = f.fails_at; counted = f.counted } };
}

impl Flaky {
    /// The script with no call counted. The call number `fails_at` from here on fails, and none where that is 0. It
    /// takes no memory.
    pub fn new(inner: Script, fails_at: u64) -> Flaky
        ensures { result ≡ record { script = inner; fails_at = fails_at; counted = 0 } }
    {
        Flaky {
            inner,
            fails_at,
            counted: 0,
        }
    }

    /// The operations that it answered, the oldest first.
    pub fn events(&self) -> &[Event]
        ensures { result.now ≡ self.now.script.events }
    {
        self.inner.events()
    }

    /// Whether the next call that is counted fails.
    fn fails_next(&self) -> bool
        ensures { result ≡ fails_next self.now }
    {
        self.counted < u64::MAX && self.counted + 1 == self.fails_at
    }

    /// Counts a call.
    fn count(&mut self)
        ensures counted { self.new ≡ record self.old { counted = one_more self.old.counted } }
        ensures grown { self.old.counted ≤ self.new.counted }
    {
        self.counted = self.counted.saturating_add(1);
    }
}

impl Backend for Flaky {
    ghost state = { seen };

    ghost told_fits = { told_fits };

    /// Fails exactly where this is the call that fails.
    fn gate(&mut self, op: Op) -> Result<(), Turned>
        requires { IsGate op }
        ensures answered { OnOk result (Answered op answer.Done (seen self.old) (seen self.new)) }
        ensures refused { IfErr result (λ turned.
            Refused op turned (seen self.old) (seen self.new)) }
        ensures keeps { Keeps (seen self.old) (seen self.new) }
        ensures fails { Fails result ↔ (fails_next self.old ≡ true) }
        ensures counted { self.new.counted ≡ counted_after result self.old.counted }
        ensures fails_at { self.new.fails_at ≡ self.old.fails_at }
        ensures left { self.new.script.left ≡ self.old.script.left }
    {
        if self.fails_next() {
            self.count();
            return Err(Turned {
                op,
                why: Stop::Failed,
            });
        }
        self.inner.gate(op)?;
        self.count();
        Ok(())
    }

    /// Answers the first bit left. It fails exactly where a bit is left and this is the call that fails.
    fn measure(&mut self, op: Op) -> Result<bool, Turned>
        requires { IsMeasurement op }
        ensures answered { IfOk result (λ bit.
            Answered op (answer.Bit bit) (seen self.old) (seen self.new)) }
        ensures refused { IfErr result (λ turned.
            Refused op turned (seen self.old) (seen self.new)) }
        ensures keeps { Keeps (seen self.old) (seen self.new) }
        ensures fails { Fails result
            ↔ ((fails_next self.old ≡ true) × (self.old.script.left ≢ [])) }
        ensures counted { self.new.counted ≡ counted_after result self.old.counted }
        ensures fails_at { self.new.fails_at ≡ self.old.fails_at }
        ensures next { IfOk result (λ bit.
            self.old.script.left ≡ bit ∷ self.new.script.left) }
        ensures left { OnErr result (self.new.script.left ≡ self.old.script.left) }
    {
        if !self.inner.left().is_empty() && self.fails_next() {
            self.count();
            return Err(Turned {
                op,
                why: Stop::Failed,
            });
        }
        let bit = self.inner.measure(op)?;
        self.count();
        Ok(bit)
    }
}
