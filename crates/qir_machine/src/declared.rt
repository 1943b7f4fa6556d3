//! The declared functions of the runtime.
ghost use Rattle.std.specs.Prelude.{◌≡◌, ◌+◌, ◌<◌, ◌^◌, ℕ, Option, List, [], ◌∷◌, IfOk};
ghost use Rattle.ir_values.specs.Int.{signed};
ghost use Rattle.ir_values.specs.declared.class.Class.TheVariants as class;
ghost use Rattle.ir_values.specs.declared.ty.Ty.{Ty as AnyTy};
ghost use Rattle.ir_values.specs.declared.value.Value.TheVariants as value;
ghost use Rattle.output_records.specs.declared.record.Shown.TheVariants as shown;
ghost use Rattle.qir_machine.specs.code.Machines.{Acts, IsRecord, IsRuntime};
ghost use Rattle.qir_meaning.specs.Effects as spec;
ghost use Rattle.qir_meaning.specs.State.{with_allocation, with_record};

use crate::machine::Machine;
use ir_values::{Cause, Class, Copies, GlobalId, Int, LocalId, Memory, Value};
use machine_frames::{Flow, bit_int, is_one};
use machine_tables::{Reading, read};
use output_records::{Record, Shown};
use std::alloc::Global;

/// What a record of a tuple of so many items shows.
fn tuple_of(count: &Int) -> Shown
    ensures { result ≡ shown.Tuple (signed count.now) }
{
    Shown::Tuple(count.signed())
}

/// What a record of an array of so many items shows.
fn array_of(count: &Int) -> Shown
    ensures { result ≡ shown.Array (signed count.now) }
{
    Shown::Array(count.signed())
}

/// What a record of an integer shows.
fn int_of(i: &Int) -> Shown
    ensures { result ≡ shown.Int (signed i.now) }
{
    Shown::Int(i.signed())
}

impl Machine {
    /// Allocates a qubit.
    fn allocate(&mut self, x: Option<LocalId>) -> Result<Flow, Memory>
        requires { self.old.frames.at.index + 1 < 2 ^ 64 }
        ensures acts { IfOk result (λ flow. Acts self.old self.new flow (λ st.
            spec.gives self.old.frames.at self.old.frames.env x st (value.Alloc st.allocated)
            (with_allocation st))) }
        ensures results { self.new.results ≡ self.old.results }
        ensures measured { self.new.measured ≡ self.old.measured }
    {
        let number = self.allocations.allocate()?;
        Ok(self.frames.give(x, Value::Alloc(number)))
    }

    /// Releases a qubit.
    fn release(&mut self, qubit: &Value) -> Flow
        requires { self.old.frames.at.index + 1 < 2 ^ 64 }
        ensures acts { (x : Option LocalId) → Acts self.old self.new result (λ st.
            spec.releases self.old.frames.at self.old.frames.env x st qubit.now) }
        ensures results { self.new.results ≡ self.old.results }
        ensures measured { self.new.measured ≡ self.old.measured }
    {
        match qubit {
            Value::Id(_) => Flow::traps(Cause::BadRelease),
            Value::Alloc(number) => {
                if !self.allocations.is_held(*number) {
                    return Flow::traps(Cause::Released);
                }
                self.allocations.release(*number);
                self.frames.go_on()
            }
            _ => Flow::Lost,
        }
    }

    /// Reads a result.
    fn read(&mut self, x: Option<LocalId>, v: &Value) -> Flow
        requires { self.old.frames.at.index + 1 < 2 ^ 64 }
        ensures acts { Acts self.old self.new result (λ st. spec.reading st v.now (λ b.
            spec.gives self.old.frames.at self.old.frames.env x st (spec.bit_value b) st)) }
        ensures results { self.new.results ≡ self.old.results }
        ensures measured { self.new.measured ≡ self.old.measured }
    {
        match read(&self.results, v) {
            Reading::Bit(bit) => self.frames.give(x, Value::Int(bit_int(bit))),
            Reading::Unset => Flow::traps(Cause::ReadUnset),
            Reading::Lost => Flow::Lost,
        }
    }

    /// Compares two results.
    fn equal(&mut self, x: Option<LocalId>, v: &Value, w: &Value) -> Flow
        requires { self.old.frames.at.index + 1 < 2 ^ 64 }
        ensures acts { Acts self.old self.new result (λ st. spec.reading st v.now (λ a.
            spec.reading st w.now (λ b. spec.gives self.old.frames.at self.old.frames.env x st
            (spec.bit_value (spec.same_bit a b)) st))) }
        ensures results { self.new.results ≡ self.old.results }
        ensures measured { self.new.measured ≡ self.old.measured }
    {
        match read(&self.results, v) {
            Reading::Bit(a) => match read(&self.results, w) {
                Reading::Bit(b) => self.frames.give(x, Value::Int(bit_int(a == b))),
                Reading::Unset => Flow::traps(Cause::ReadUnset),
                Reading::Lost => Flow::Lost,
            },
            Reading::Unset => Flow::traps(Cause::ReadUnset),
            Reading::Lost => Flow::Lost,
        }
    }

    /// Adds a record.
    fn record(&mut self, shown: Shown, label: &Value) -> Result<Flow, Memory>
        requires { self.old.frames.at.index + 1 < 2 ^ 64 }
        ensures acts { IfOk result (λ flow. (x : Option LocalId) → Acts self.old self.new flow (λ st.
            spec.recorded self.old.frames.at self.old.frames.env x st label.now shown)) }
        ensures results { self.new.results ≡ self.old.results }
        ensures measured { self.new.measured ≡ self.old.measured }
    {
        match label {
            Value::Label(constant) => self.push_record(shown, Some(*constant)),
            Value::NoLabel => self.push_record(shown, None),
            _ => Ok(Flow::Lost),
        }
    }

    fn push_record(&mut self, shown: Shown, label: Option<GlobalId>) -> Result<Flow, Memory>
        requires { self.old.frames.at.index + 1 < 2 ^ 64 }
        ensures acts { IfOk result (λ flow. (x : Option LocalId) → Acts self.old self.new flow (λ st.
            spec.goes_on self.old.frames.at self.old.frames.env x st
            (with_record st (record { shown = shown; label = label })))) }
        ensures results { self.new.results ≡ self.old.results }
        ensures measured { self.new.measured ≡ self.old.measured }
    {
        self.records.push(Record { shown, label })?;
        Ok(self.frames.go_on())
    }

    /// Records the beginning of a tuple.
    fn record_tuple(&mut self, v: &Value, label: &Value) -> Result<Flow, Memory>
        requires { self.old.frames.at.index + 1 < 2 ^ 64 }
        ensures acts { IfOk result (λ flow. (name : List ℕ) (ts : List AnyTy) (x : Option LocalId) →
            Acts self.old self.new flow (λ st. spec.declared_call self.old.frames.at
            self.old.frames.env x st name ts class.Tuple (v.now ∷ label.now ∷ []))) }
        ensures results { self.new.results ≡ self.old.results }
        ensures measured { self.new.measured ≡ self.old.measured }
    {
        match v {
            Value::Int(i) => self.record(tuple_of(i), label),
            _ => Ok(Flow::Lost),
        }
    }

    /// Records the beginning of an array.
    fn record_array(&mut self, v: &Value, label: &Value) -> Result<Flow, Memory>
        requires { self.old.frames.at.index + 1 < 2 ^ 64 }
        ensures acts { IfOk result (λ flow. (name : List ℕ) (ts : List AnyTy) (x : Option LocalId) →
            Acts self.old self.new flow (λ st. spec.declared_call self.old.frames.at
            self.old.frames.env x st name ts class.Array (v.now ∷ label.now ∷ []))) }
        ensures results { self.new.results ≡ self.old.results }
        ensures measured { self.new.measured ≡ self.old.measured }
    {
        match v {
            Value::Int(i) => self.record(array_of(i), label),
            _ => Ok(Flow::Lost),
        }
    }

    /// Records a boolean.
    fn record_bool(&mut self, v: &Value, label: &Value) -> Result<Flow, Memory>
        requires { self.old.frames.at.index + 1 < 2 ^ 64 }
        ensures acts { IfOk result (λ flow. (name : List ℕ) (ts : List AnyTy) (x : Option LocalId) →
            Acts self.old self.new flow (λ st. spec.declared_call self.old.frames.at
            self.old.frames.env x st name ts class.BoolRecord (v.now ∷ label.now ∷ []))) }
        ensures results { self.new.results ≡ self.old.results }
        ensures measured { self.new.measured ≡ self.old.measured }
    {
        match v {
            Value::Int(i) => self.record(Shown::Bool(is_one(*i)), label),
            _ => Ok(Flow::Lost),
        }
    }

    /// Records an integer.
    fn record_int(&mut self, v: &Value, label: &Value) -> Result<Flow, Memory>
        requires { self.old.frames.at.index + 1 < 2 ^ 64 }
        ensures acts { IfOk result (λ flow. (name : List ℕ) (ts : List AnyTy) (x : Option LocalId) →
            Acts self.old self.new flow (λ st. spec.declared_call self.old.frames.at
            self.old.frames.env x st name ts class.IntRecord (v.now ∷ label.now ∷ []))) }
        ensures results { self.new.results ≡ self.old.results }
        ensures measured { self.new.measured ≡ self.old.measured }
    {
        match v {
            Value::Int(i) => self.record(int_of(i), label),
            _ => Ok(Flow::Lost),
        }
    }

    /// Records a double.
    fn record_double(&mut self, alloc: Global, v: &Value, label: &Value) -> Result<Flow, Memory>
        requires { self.old.frames.at.index + 1 < 2 ^ 64 }
        ensures acts { IfOk result (λ flow. (name : List ℕ) (ts : List AnyTy) (x : Option LocalId) →
            Acts self.old self.new flow (λ st. spec.declared_call self.old.frames.at
            self.old.frames.env x st name ts class.DoubleRecord (v.now ∷ label.now ∷ []))) }
        ensures results { self.new.results ≡ self.old.results }
        ensures measured { self.new.measured ≡ self.old.measured }
    {
        match v {
            Value::Double(token) => self.record(Shown::Double(token.copy(alloc)?), label),
            _ => Ok(Flow::Lost),
        }
    }

    /// Records the bit of a result.
    fn record_result(&mut self, v: &Value, label: &Value) -> Result<Flow, Memory>
        requires { self.old.frames.at.index + 1 < 2 ^ 64 }
        ensures acts { IfOk result (λ flow. (name : List ℕ) (ts : List AnyTy) (x : Option LocalId) →
            Acts self.old self.new flow (λ st. spec.declared_call self.old.frames.at
            self.old.frames.env x st name ts class.ResRecord (v.now ∷ label.now ∷ []))) }
        ensures results { self.new.results ≡ self.old.results }
        ensures measured { self.new.measured ≡ self.old.measured }
    {
        match read(&self.results, v) {
            Reading::Bit(bit) => self.record(Shown::Res(bit), label),
            Reading::Unset => Ok(Flow::traps(Cause::ReadUnset)),
            Reading::Lost => Ok(Flow::Lost),
        }
    }

    /// A call of a declared function that asks for no operation, by its class and its arguments.
    pub(crate) fn runtime(
        &mut self,
        alloc: Global,
        x: Option<LocalId>,
        class: Class,
        values: &[Value],
    ) -> Result<Flow, Memory>
        requires place { self.old.frames.at.index + 1 < 2 ^ 64 }
        requires runtime { IsRuntime class }
        ensures acts { IfOk result (λ flow. (name : List ℕ) (ts : List AnyTy) →
            Acts self.old self.new flow (λ st. spec.declared_call self.old.frames.at
            self.old.frames.env x st name ts class values.now)) }
        ensures results { self.new.results ≡ self.old.results }
        ensures measured { self.new.measured ≡ self.old.measured }
    {
        match class {
            Class::Init | Class::Count => Ok(self.frames.go_on()),
            Class::Alloc => self.allocate(x),
            Class::One => Ok(self.frames.give(x, Value::One)),
            Class::Zero => Ok(self.frames.give(x, Value::Zero)),
            Class::Release => Ok(self.release_of(values)),
            Class::Read => Ok(self.read_of(x, values)),
            Class::Equal => Ok(self.equal_of(x, values)),
            Class::Tuple
            | Class::Array
            | Class::ResRecord
            | Class::BoolRecord
            | Class::IntRecord
            | Class::DoubleRecord => self.record_of(alloc, class, values),
            Class::Returning | Class::Measure | Class::Gate => unreachable!(),
        }
    }

    fn release_of(&mut self, values: &[Value]) -> Flow
        requires { self.old.frames.at.index + 1 < 2 ^ 64 }
        ensures acts { (name : List ℕ) (ts : List AnyTy) (x : Option LocalId) →
            Acts self.old self.new result (λ st. spec.declared_call self.old.frames.at
            self.old.frames.env x st name ts class.Release values.now) }
        ensures results { self.new.results ≡ self.old.results }
        ensures measured { self.new.measured ≡ self.old.measured }
    {
        match values {
            [qubit] => self.release(qubit),
            _ => Flow::Lost,
        }
    }

    fn read_of(&mut self, x: Option<LocalId>, values: &[Value]) -> Flow
        requires { self.old.frames.at.index + 1 < 2 ^ 64 }
        ensures acts { (name : List ℕ) (ts : List AnyTy) →
            Acts self.old self.new result (λ st. spec.declared_call self.old.frames.at
            self.old.frames.env x st name ts class.Read values.now) }
        ensures results { self.new.results ≡ self.old.results }
        ensures measured { self.new.measured ≡ self.old.measured }
    {
        match values {
            [v] => self.read(x, v),
            _ => Flow::Lost,
        }
    }

    fn equal_of(&mut self, x: Option<LocalId>, values: &[Value]) -> Flow
        requires { self.old.frames.at.index + 1 < 2 ^ 64 }
        ensures acts { (name : List ℕ) (ts : List AnyTy) →
            Acts self.old self.new result (λ st. spec.declared_call self.old.frames.at
            self.old.frames.env x st name ts class.Equal values.now) }
        ensures results { self.new.results ≡ self.old.results }
        ensures measured { self.new.measured ≡ self.old.measured }
    {
        match values {
            [v, w] => self.equal(x, v, w),
            _ => Flow::Lost,
        }
    }

    fn record_of(&mut self, alloc: Global, class: Class, values: &[Value]) -> Result<Flow, Memory>
        requires place { self.old.frames.at.index + 1 < 2 ^ 64 }
        requires records { IsRecord class }
        ensures acts { IfOk result (λ flow. (name : List ℕ) (ts : List AnyTy) (x : Option LocalId) →
            Acts self.old self.new flow (λ st. spec.declared_call self.old.frames.at
            self.old.frames.env x st name ts class values.now)) }
        ensures results { self.new.results ≡ self.old.results }
        ensures measured { self.new.measured ≡ self.old.measured }
    {
        match values {
            [v, label] => self.record_two(alloc, class, v, label),
            _ => Ok(Flow::Lost),
        }
    }

    fn record_two(
        &mut self,
        alloc: Global,
        class: Class,
        v: &Value,
        label: &Value,
    ) -> Result<Flow, Memory>
        requires place { self.old.frames.at.index + 1 < 2 ^ 64 }
        requires records { IsRecord class }
        ensures acts { IfOk result (λ flow. (name : List ℕ) (ts : List AnyTy) (x : Option LocalId) →
            Acts self.old self.new flow (λ st. spec.declared_call self.old.frames.at
            self.old.frames.env x st name ts class (v.now ∷ label.now ∷ []))) }
        ensures results { self.new.results ≡ self.old.results }
        ensures measured { self.new.measured ≡ self.old.measured }
    {
        match class {
            Class::Tuple => self.record_tuple(v, label),
            Class::Array => self.record_array(v, label),
            Class::ResRecord => self.record_result(v, label),
            Class::BoolRecord => self.record_bool(v, label),
            Class::IntRecord => self.record_int(v, label),
            Class::DoubleRecord => self.record_double(alloc, v, label),
            _ => unreachable!(),
        }
    }
}
