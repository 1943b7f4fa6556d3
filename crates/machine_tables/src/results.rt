//! The bits of results.
ghost use Rattle.std.specs.Prelude.{◌≡◌, ◌<◌, Bool, OnOk};
ghost use Rattle.backend_api.specs.declared.operation.ResultRef.{ResultRef};
ghost use Rattle.indexmap.specs.IndexMap.{spare};
ghost use Rattle.machine_tables.specs.code.Reads as spec;
ghost use Rattle.qir_meaning.specs.Effects as effects;
ghost use Rattle.qir_meaning.specs.State.{State, Move};

use backend_api::ResultRef;
use indexmap::IndexMap;
use ir_values::{Memory, Value};

/// The bits of the results that were measured.
pub type Results = IndexMap<ResultRef, bool>;

/// What a read of a result comes to.
pub enum Reading {
    Bit(bool),
    /// It was never measured.
    Unset,
    /// It is no result.
    Lost,
}

/// The bit of a result, if it was measured. It takes no memory.
pub fn bit_of(results: &Results, r: ResultRef) -> Option<bool>
    ensures { result ≡ spec.bit_at results.now r }
{
    results.get(&r).copied()
}

/// Makes room for the bit of one more result.
pub fn make_room(results: &mut Results) -> Result<(), Memory>
    ensures room { OnOk result (0 < spare results.new) }
    ensures bits { (q : ResultRef) → spec.bit_at results.new q ≡ spec.bit_at results.old q }
{
    results.reserve(1)?;
    Ok(())
}

/// Gives a result a bit, in room for one more.
pub fn set_bit(results: &mut Results, r: ResultRef, bit: bool)
    requires { 0 < spare results.old }
    ensures { spec.Sets r bit results.old results.new }
{
    let _ = results.insert(r, bit).unwrap();
}

/// What is known of a result that was looked up.
fn known(bit: Option<bool>) -> Reading
    ensures { (st : State) (go : Bool → Move) → effects.known_bit st bit go ≡ spec.read_as result st go }
{
    match bit {
        Some(bit) => Reading::Bit(bit),
        None => Reading::Unset,
    }
}

/// Reads a result. It takes no memory.
pub fn read(results: &Results, value: &Value) -> Reading
    ensures { (st : State) (go : Bool → Move) → spec.Shows results.now st.bits
        → effects.reading st value.now go ≡ spec.read_as result st go }
{
    match value {
        Value::One => Reading::Bit(true),
        Value::Zero => Reading::Bit(false),
        Value::Id(n) => known(bit_of(results, ResultRef::Id(*n))),
        Value::Measured(n) => known(bit_of(results, ResultRef::Measured(*n))),
        _ => Reading::Lost,
    }
}
