//! A backend that answers given bits.
ghost use Rattle.std.specs.Prelude.{IfOk};
ghost use Rattle.backend_api.specs.Operations.{IsGate, IsMeasurement};

use backend_api::{Answer, Arg, Args, Backend, Op, QubitRef, ResultRef, Stop};
use ir_values::{Bytes, Exact, Memory};
use scripted_backend::Script;
use std::alloc::Global;
use std::test::Fail;

/// `h` of a qubit.
fn gate(alloc: Global, qubit: u64) -> Result<Op, Memory>
    ensures { IfOk result (λ op. IsGate op) }
{
    let mut name = Bytes::new(alloc);
    name.extend_from_slice(b"__quantum__qis__h__body")?;
    let mut args = Args::new(alloc);
    args.push(Arg::Qubit(QubitRef::Id(qubit)))?;
    Ok(Op { name, args })
}

/// `mz` of a qubit into the result of its number.
fn measurement(alloc: Global, qubit: u64) -> Result<Op, Memory>
    ensures { IfOk result (λ op. IsMeasurement op) }
{
    let mut name = Bytes::new(alloc);
    name.extend_from_slice(b"__quantum__qis__mz__body")?;
    let mut args = Args::new(alloc);
    args.push(Arg::Qubit(QubitRef::Id(qubit)))?;
    args.push(Arg::Res(ResultRef::Id(qubit)))?;
    Ok(Op { name, args })
}

/// What any backend answers to a measurement.
fn answer<B: Backend>(backend: &mut B, op: Op) -> Result<bool, Stop>
    requires { IsMeasurement op }
{
    backend.measure(op).map_err(|turned| turned.why)
}

#[test]
fn bits_are_answered_in_order_and_then_none(rt: HostRuntime) -> Result<(), Fail> {
    let alloc = rt.alloc();
    let mut script = Script::new(alloc, &[true, false, true])?;
    let expected = [
        Ok(true),
        Ok(false),
        Ok(true),
        Err(Stop::Empty),
        Err(Stop::Empty),
    ];
    for expected in expected {
        assert_eq!(rt; answer(&mut script, measurement(alloc, 0)?), expected);
    }
    assert_eq!(rt; script.events().len(), 3);
    Ok(())
}

#[test]
fn two_answers_in_reserved_room_need_no_memory(rt: HostRuntime) -> Result<(), Fail> {
    let alloc = rt.alloc();
    let mut script = Script::new(alloc, &[true])?;
    let first = gate(alloc, 3)?;
    let second = measurement(alloc, 5)?;
    script.reserve(2)?;
    // Neither can fail: there is room for both, and a bit is left.
    script.gate(first).unwrap();
    assert!(rt; script.measure(second).unwrap());
    let [done, measured] = script.events() else {
        return Err(Fail::from("two answers are two events"));
    };
    assert!(rt; done.op.same(&gate(alloc, 3)?));
    assert_eq!(rt; done.answer, Answer::Done);
    assert!(rt; measured.op.same(&measurement(alloc, 5)?));
    assert_eq!(rt; measured.answer, Answer::Bit(true));
    Ok(())
}

#[test]
fn a_refused_measurement_is_handed_back(rt: HostRuntime) -> Result<(), Fail> {
    let alloc = rt.alloc();
    let mut script = Script::new(alloc, &[])?;
    let Err(turned) = script.measure(measurement(alloc, 1)?) else {
        return Err(Fail::from("no bit is left"));
    };
    assert_eq!(rt; turned.why, Stop::Empty);
    assert!(rt; turned.op.same(&measurement(alloc, 1)?));
    assert!(rt; script.events().is_empty());
    Ok(())
}
