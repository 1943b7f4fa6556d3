//! What operations do to bits.
ghost use Rattle.std.specs.Prelude.{◌≡◌, List, ℕ, false, MatchOption};
ghost use Rattle.bit_backend.specs.Actions as spec;

use backend_api::{Arg, Op, QubitRef};

/// What an operation does to the bits of qubits.
#[derive(Clone, Copy)]
pub(crate) enum Action {
    Flip(QubitRef),
    Reset(QubitRef),
    Swap(QubitRef, QubitRef),
    FlipIf {
        control: QubitRef,
        target: QubitRef,
    },
    FlipIfBoth {
        first: QubitRef,
        second: QubitRef,
        target: QubitRef,
    },
    Measure(QubitRef),
    MeasureAndReset(QubitRef),
}

/// What an operation does, or None where it isn't one of those that are known by their names and
/// arguments.
pub(crate) fn action_of(op: &Op) -> Option<Action>
    ensures { result ≡ spec.action_of op.now }
{
    let Some(stem) = stem_of(op.name.as_slice()) else {
        return None;
    };
    match op.args.as_slice() {
        [Arg::Qubit(q)] => on_one(stem, *q),
        [Arg::Qubit(q), Arg::Res(_)] => measuring(stem, *q),
        [Arg::Qubit(a), Arg::Qubit(b)] => on_two(stem, *a, *b),
        [Arg::Qubit(a), Arg::Qubit(b), Arg::Qubit(c)] => on_three(stem, *a, *b, *c),
        _ => None,
    }
}

/// The part of a name between `__quantum__qis__` and `__body`.
fn stem_of(name: &[u8]) -> Option<&[u8]>
    ensures { MatchOption result ((stem : List ℕ) → spec.is_named name.now stem ≡ false)
        (λ stem. name.now ≡ spec.named stem.now) }
{
    name.strip_prefix(b"__quantum__qis__")?
        .strip_suffix(b"__body")
}

fn on_one(stem: &[u8], q: QubitRef) -> Option<Action>
    ensures { result ≡ spec.on_one (spec.named stem.now) q }
{
    match stem {
        b"x" => Some(Action::Flip(q)),
        b"reset" => Some(Action::Reset(q)),
        _ => None,
    }
}

fn measuring(stem: &[u8], q: QubitRef) -> Option<Action>
    ensures { result ≡ spec.measuring (spec.named stem.now) q }
{
    match stem {
        b"mresetz" => Some(Action::MeasureAndReset(q)),
        b"mz" | b"m" => Some(Action::Measure(q)),
        _ => None,
    }
}

fn on_two(stem: &[u8], a: QubitRef, b: QubitRef) -> Option<Action>
    ensures { result ≡ spec.on_two (spec.named stem.now) a b }
{
    if a == b {
        return None;
    }
    match stem {
        b"swap" => Some(Action::Swap(a, b)),
        b"cnot" | b"cx" => Some(Action::FlipIf {
            control: a,
            target: b,
        }),
        _ => None,
    }
}

fn on_three(stem: &[u8], a: QubitRef, b: QubitRef, c: QubitRef) -> Option<Action>
    ensures { result ≡ spec.on_three (spec.named stem.now) a b c }
{
    if a == b || a == c || b == c {
        return None;
    }
    match stem {
        b"ccx" => Some(Action::FlipIfBoth {
            first: a,
            second: b,
            target: c,
        }),
        _ => None,
    }
}
