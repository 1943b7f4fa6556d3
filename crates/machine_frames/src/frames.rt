//! The row of frames.
ghost use Rattle.std.specs.Prelude.{◌≡◌, ◌+◌, ◌<◌, ◌^◌, [], IfOk};
ghost use Rattle.machine_frames.specs.declared.flow.Flow.TheVariants as flow;
ghost use Rattle.machine_frames.specs.Frames as spec;
ghost use Rattle.machine_frames.specs.Frames.{Leads, Moves, whole};
ghost use Rattle.qir_meaning.specs.code.Steps.{tick_of, gives_back};
ghost use Rattle.qir_meaning.specs.Moves.{first_point};
ghost use Rattle.qir_meaning.specs.State.{State, Enter, Back, frame};

use crate::flow::Flow;
use crate::values::{Env, Values, bind, bind_given};
use ir_module::{Function, Point};
use ir_values::{BlockId, FuncId, LocalId, Memory, Seq, Value};
use qir_meaning::End;
use std::alloc::Global;
use std::mem;

/// A frame that waits for a call: where it goes on, its values, and the name that takes what comes back.
#[derive(Drop)]
pub struct Waiting {
    pub at: Point,
    pub env: Env,
    pub result: Option<LocalId>,
}

/// The frame that runs, and those that wait, the one that waits for it last.
#[derive(Drop)]
pub struct Frames {
    pub at: Point,
    pub env: Env,
    pub waiting: Seq<Waiting>,
}

/// The first instruction of a function.
fn first_of(number: FuncId) -> Point
    ensures { result ≡ first_point number }
{
    Point {
        func: number,
        block: BlockId(0),
        index: 0,
    }
}

/// A frame begins with the values of the parameters, and no other name has one.
fn open(alloc: Global, f: &Function, values: Values) -> Result<Env, Memory>
    ensures { IfOk result (λ env. env ≡ frame f.now values) }
{
    let others = f.locals.len().saturating_sub(values.len());
    let mut env = Env::new(alloc);
    for value in values.into_vec() {
        env.push(Some(value))?;
    }
    for _other in 0..others {
        env.push(None)?;
    }
    Ok(env)
}

impl Frames {
    /// The frame of the function with which a run begins.
    pub fn first(alloc: Global, number: FuncId, f: &Function) -> Result<Frames, Memory>
        ensures { IfOk result (λ frames. (st : State) → whole frames st
            ≡ record { at = first_point number; env = frame f.now []; waits = []; state = st }) }
    {
        Ok(Frames {
            at: first_of(number),
            env: open(alloc, f, Values::new(alloc))?,
            waiting: Seq::new(alloc),
        })
    }

    /// Goes on at the next instruction.
    pub fn go_on(&mut self) -> Flow
        requires { self.old.at.index + 1 < 2 ^ 64 }
        ensures flow { result ≡ flow.Goes }
        ensures frames { self.new ≡ spec.gone_on self.old }
    {
        self.at.index += 1;
        Flow::Goes
    }

    /// Gives a name, if there is one, a value, and goes on at the next instruction.
    pub fn give(&mut self, x: Option<LocalId>, value: Value) -> Flow
        requires { self.old.at.index + 1 < 2 ^ 64 }
        ensures flow { result ≡ flow.Goes }
        ensures frames { self.new ≡ spec.given self.old x value }
    {
        bind(&mut self.env, x, value);
        self.at.index += 1;
        Flow::Goes
    }

    /// Begins a call of a function with a body. What it gives is the value of the name.
    pub fn enter(
        &mut self,
        alloc: Global,
        x: Option<LocalId>,
        number: FuncId,
        f: &Function,
        values: Values,
    ) -> Result<Flow, Memory>
        requires { self.old.at.index + 1 < 2 ^ 64 }
        ensures { IfOk result (λ flow. Moves self.old self.new flow
            (λ st. Enter (first_point number) (frame f.now values) x st)) }
    {
        let opened = open(alloc, f, values)?;
        let env = mem::replace(&mut self.env, opened);
        let at = Point {
            func: self.at.func,
            block: self.at.block,
            index: self.at.index + 1,
        };
        self.waiting.push(Waiting { at, env, result: x })?;
        self.at = first_of(number);
        Ok(Flow::Goes)
    }

    /// Returns from the frame: to the one that waits for it, or from the run.
    pub fn give_back(&mut self, value: Option<Value>) -> Flow
        ensures { Moves self.old self.new result (λ st. Back value) }
    {
        match self.waiting.pop() {
            Some(waiting) => {
                let Waiting { at, env, result } = waiting;
                self.at = at;
                self.env = env;
                bind_given(&mut self.env, result, value);
                Flow::Goes
            }
            None => ended(&value),
        }
    }
}

/// The end of a run whose entry gave this.
fn ended(value: &Option<Value>) -> Flow
    ensures { (st : State) → spec.Ended value.now st result }
{
    match value {
        None => Flow::Ends(End::Returned(0)),
        Some(Value::Int(i)) => Flow::Ends(End::Returned(i.signed())),
        Some(_) => Flow::Lost,
    }
}
