//! Copies of ends of runs.
use backend_api::{Arg, Args, Op, QubitRef};
use ir_values::{Bytes, Cause, Copies, Memory};
use qir_meaning::{Ask, End};
use std::alloc::Global;
use std::test::Fail;

/// `h` of a qubit.
fn gate(alloc: Global) -> Result<Op, Memory> {
    let mut name = Bytes::new(alloc);
    name.extend_from_slice(b"__quantum__qis__h__body")?;
    let mut args = Args::new(alloc);
    args.push(Arg::Qubit(QubitRef::Id(1)))?;
    Ok(Op { name, args })
}

#[test]
fn copies_equal_their_sources(rt: HostRuntime) -> Result<(), Fail> {
    let alloc = rt.alloc();
    for why in [Ask::Unsupported, Ask::Empty, Ask::Failed] {
        assert_eq!(rt; why.copy(alloc)?, why);
        let asks = End::Asks(gate(alloc)?, why);
        assert_eq!(rt; asks.copy(alloc)?, asks);
    }
    for end in [End::Returned(7), End::Trapped(Cause::Poison), End::Cut] {
        assert_eq!(rt; end.copy(alloc)?, end);
    }
    Ok(())
}
