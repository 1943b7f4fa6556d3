//! Copies of operations and events.
use backend_api::{Answer, Arg, Args, Event, Events, Op, QubitRef, ResultRef};
use ir_values::{Bytes, Copies, Int, Memory, Token, Width};
use std::alloc::Global;
use std::test::Fail;

fn bytes_of(alloc: Global, text: &[u8]) -> Result<Bytes, Memory> {
    let mut bytes = Bytes::new(alloc);
    bytes.extend_from_slice(text)?;
    Ok(bytes)
}

/// An argument of each kind.
fn every_arg(alloc: Global) -> Result<Args, Fail> {
    let token = Token::new(bytes_of(alloc, b"0.5")?).ok_or("a double")?;
    let int = Int::new(Width::W64, 7).ok_or("an integer")?;
    let mut args = Args::new(alloc);
    for arg in [
        Arg::Qubit(QubitRef::Id(1)),
        Arg::Qubit(QubitRef::Alloc(2)),
        Arg::Res(ResultRef::Id(3)),
        Arg::Res(ResultRef::Measured(4)),
        Arg::Double(token),
        Arg::Int(int),
    ] {
        args.push(arg)?;
    }
    Ok(args)
}

fn event_of(alloc: Global, answer: Answer) -> Result<Event, Fail> {
    let name = bytes_of(alloc, b"__quantum__qis__h__body")?;
    let args = every_arg(alloc)?;
    Ok(Event {
        op: Op { name, args },
        answer,
    })
}

#[test]
fn copies_equal_their_sources(rt: HostRuntime) -> Result<(), Fail> {
    let alloc = rt.alloc();
    let mut events = Events::new(alloc);
    for answer in [Answer::Done, Answer::Bit(false), Answer::Bit(true)] {
        assert_eq!(rt; answer.copy(alloc)?, answer);
        events.push(event_of(alloc, answer)?)?;
    }
    assert_eq!(rt; events.copy(alloc)?, events);
    for qubit in [QubitRef::Id(1), QubitRef::Alloc(2)] {
        assert_eq!(rt; qubit.copy(alloc)?, qubit);
    }
    for result in [ResultRef::Id(3), ResultRef::Measured(4)] {
        assert_eq!(rt; result.copy(alloc)?, result);
    }
    Ok(())
}
