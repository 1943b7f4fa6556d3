//! Whether a lowered module did what its source did.
ghost use Rattle.std.specs.Prelude.{◌≡◌, ◌+◌, ◌↔◌, IsTrue, map};
ghost use Rattle.backend_api.specs.Naming.{Naming, named_arg, named_event, named_events, named_op};
ghost use Rattle.generated_summary.specs.code.Told.{PlaySame, naming};
ghost use Rattle.machine_frames.specs.Frames.{meant};
ghost use Rattle.qir_meaning.specs.Naming.{fixed_qubit, fixed_result, named_end};

use crate::names::Names;
use crate::run::Played;
use backend_api::{Arg, Event, Op, QubitRef, ResultRef};
use ir_values::Exact;
use qir_meaning::End;

/// Whether allocation `i` of a module with so many fixed numbers has the number `j`.
fn follows(fixed: u64, i: u64, j: u64) -> bool
    ensures { IsTrue result ↔ (fixed + i ≡ j) }
{
    fixed <= j && j - fixed == i
}

/// What has other names for its qubits and results in a lowered module.
trait Named {
    ghost named: { Naming → Self → Self };

    /// Whether it is the other one under the names.
    fn is_named(&self, names: &Names, other: &Self) -> bool
        ensures { IsTrue result ↔ (named (naming names.now) self.now ≡ other.now) };
}

impl Named for QubitRef {
    ghost named = { λ N q. N.qubit q };

    fn is_named(&self, names: &Names, other: &QubitRef) -> bool {
        match (self, other) {
            (QubitRef::Id(i), QubitRef::Id(j)) => *i == *j,
            (QubitRef::Alloc(i), QubitRef::Id(j)) => follows(names.qubits, *i, *j),
            (_, QubitRef::Alloc(_)) => false,
        }
    }
}

impl Named for ResultRef {
    ghost named = { λ N r. N.result r };

    fn is_named(&self, names: &Names, other: &ResultRef) -> bool {
        match (self, other) {
            (ResultRef::Id(i), ResultRef::Id(j)) => *i == *j,
            (ResultRef::Measured(i), ResultRef::Id(j)) => follows(names.results, *i, *j),
            (_, ResultRef::Measured(_)) => false,
        }
    }
}

impl Named for Arg {
    ghost named = { named_arg };

    fn is_named(&self, names: &Names, other: &Arg) -> bool {
        match (self, other) {
            (Arg::Qubit(q), Arg::Qubit(p)) => q.is_named(names, p),
            (Arg::Res(r), Arg::Res(s)) => r.is_named(names, s),
            (Arg::Double(t), Arg::Double(u)) => t.same(u),
            (Arg::Int(i), Arg::Int(j)) => i.same(j),
            _ => false,
        }
    }
}

impl Named for Op {
    ghost named = { named_op };

    fn is_named(&self, names: &Names, other: &Op) -> bool {
        self.name.same(&other.name) && are_named(self.args.as_slice(), names, other.args.as_slice())
    }
}

impl Named for Event {
    ghost named = { named_event };

    fn is_named(&self, names: &Names, other: &Event) -> bool {
        self.op.is_named(names, &other.op) && self.answer.same(&other.answer)
    }
}

/// Whether items are the others under the names, one by one.
fn are_named<T: Named>(mut items: &[T], names: &Names, mut others: &[T]) -> bool
    ensures { IsTrue result ↔
        (map (T.named (naming names.now)) items.entry.now ≡ others.entry.now) }
{
    while let Some((item, items_left)) = items.split_first() {
        let Some((other, others_left)) = others.split_first() else {
            return false;
        };
        if !item.is_named(names, other) {
            return false;
        }
        items = items_left;
        others = others_left;
    }
    others.is_empty()
}

/// Whether a run ended as the other did, under the names.
fn ends_named(end: &End, names: &Names, other: &End) -> bool
    ensures { IsTrue result ↔ (named_end (naming names.now) (meant end.now) ≡ meant other.now) }
{
    match (end, other) {
        (End::Returned(code), End::Returned(other)) => *code == *other,
        (End::Trapped(why), End::Trapped(other)) => *why == *other,
        (End::Asks(op, _), End::Asks(other, _)) => op.is_named(names, other),
        (End::Cut, End::Cut) => true,
        _ => false,
    }
}

/// Whether two runs have the same events and ends under the names, and the same records.
pub(crate) fn play_same(names: &Names, source: &Played, lowered: &Played) -> bool
    ensures { IsTrue result ↔ PlaySame names.now source.now lowered.now }
{
    are_named(source.bits.events(), names, lowered.bits.events())
        && source.ended.records.same(&lowered.ended.records)
        && ends_named(&source.ended.end, names, &lowered.ended.end)
}
