//! Flips qubits of the bit backend as often as asked, to be timed.
//!
//! Each line of standard input has two numbers: of flips, and of the qubits that they go round, each 0
//! at first. The line that is written has the two numbers and the bit of the first qubit behind them.
#![tactic(auto)]

ghost use Rattle.std.specs.Prelude.{IfOk};
ghost use Rattle.backend_api.specs.Operations.{IsGate, IsMeasurement};

use backend_api::{Arg, Args, Backend, Op, QubitRef, ResultRef, Stop};
use bit_backend::Bits;
use ir_values::{Bytes, Memory};
use std::alloc::Global;
use std::io;

fn bytes_of(alloc: Global, text: &[u8]) -> Result<Bytes, Memory> {
    let mut bytes = Bytes::new(alloc);
    bytes.extend_from_slice(text)?;
    Ok(bytes)
}

fn flip(alloc: Global, qubit: u64) -> Result<Op, Memory>
    ensures { IfOk result (λ op. IsGate op) }
{
    let mut args = Args::new(alloc);
    args.push(Arg::Qubit(QubitRef::Id(qubit)))?;
    Ok(Op {
        name: bytes_of(alloc, b"__quantum__qis__x__body")?,
        args,
    })
}

fn measurement(alloc: Global) -> Result<Op, Memory>
    ensures { IfOk result (λ op. IsMeasurement op) }
{
    let mut args = Args::new(alloc);
    args.push(Arg::Qubit(QubitRef::Id(0)))?;
    args.push(Arg::Res(ResultRef::Id(0)))?;
    Ok(Op {
        name: bytes_of(alloc, b"__quantum__qis__mz__body")?,
        args,
    })
}

/// The bit of the first qubit after so many flips that go round so many qubits.
fn first_bit(alloc: Global, flips: u64, qubits: u64) -> Result<bool, Stop> {
    let mut bits = Bits::new(alloc);
    for i in 0..flips {
        let op = flip(alloc, i.checked_rem(qubits).unwrap_or(0)).map_err(|_| Stop::Memory)?;
        bits.gate(op).map_err(|turned| turned.why)?;
    }
    let op = measurement(alloc).map_err(|_| Stop::Memory)?;
    bits.measure(op).map_err(|turned| turned.why)
}

fn numbers(line: &str) -> Option<(u64, u64)> {
    let (flips, qubits) = line.split_once(' ')?;
    Some((flips.parse::<u64>().ok()?, qubits.parse::<u64>().ok()?))
}

fn main(rt: HostRuntime) -> io::Result<()> {
    for line in rt.lines(rt.alloc()) {
        let line = line?;
        let Some((flips, qubits)) = numbers(line.as_str()) else {
            println!(rt; "two numbers are wanted")?;
            continue;
        };
        match first_bit(rt.alloc(), flips, qubits) {
            Ok(bit) => println!(rt; "{flips} {qubits} {}", u8::from(bit))?,
            Err(why) => println!(rt; "{why}")?,
        }
    }
    Ok(())
}
