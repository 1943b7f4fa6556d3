//! What a step says, in words.
use ir_values::{Bytes, Cause, LocalId, Memory, Value, push_decimal, push_signed};
use kept_items::{Code, Item, Kind};

fn cause_word(cause: Cause) -> &'static str {
    match cause {
        Cause::DivZero => "division by zero",
        Cause::Overflow => "overflow",
        Cause::Poison => "poison",
        Cause::ReadUnset => "unset",
        Cause::Released => "released",
        Cause::BadRelease => "bad release",
        Cause::ConstResult => "constant result",
        Cause::Unbound => "unbound",
    }
}

/// Why an instruction can't be lowered.
pub fn kind_word(kind: Kind) -> &'static str {
    match kind {
        Kind::Handle => "handle",
        Kind::Target => "target",
        Kind::Loop => "loop",
        Kind::Budget => "budget",
        Kind::Token => "token",
        Kind::Forbidden => "forbidden",
        Kind::Phase => "phase",
        Kind::Capability => "capability",
        Kind::Traps(cause) => cause_word(cause),
    }
}

/// What is kept of an instruction.
pub fn item_word(item: &Option<Item>) -> &'static str {
    match item {
        None => "passes",
        Some(Item::Binary(_, _, _, _, _, _)) => "binary",
        Some(Item::Icmp(_, _, _, _, _)) => "icmp",
        Some(Item::Convert(_, _, _, _, _)) => "convert",
        Some(Item::Select(_, _, _, _, _)) => "select",
        Some(Item::Read(_, _)) => "read",
        Some(Item::Equal(_, _, _)) => "equal",
        Some(Item::Operation(_, _)) => "operation",
        Some(Item::Output(_, _)) => "record",
    }
}

fn push_numbered(line: &mut Bytes, word: &'static str, number: u64) -> Result<(), Memory> {
    line.extend_from_slice(word.as_bytes())?;
    push_decimal(line, u128::from(number))
}

/// Adds a value that a name has: an integer by its bits.
fn push_value(line: &mut Bytes, value: &Value) -> Result<(), Memory> {
    match value {
        Value::Int(i) => push_decimal(line, u128::from(i.bits())),
        Value::Double(_) => line.extend_from_slice(b"double"),
        Value::Id(number) => push_numbered(line, "fixed ", *number),
        Value::Alloc(number) => push_numbered(line, "qubit ", *number),
        Value::Measured(number) => push_numbered(line, "result ", *number),
        Value::One => line.extend_from_slice(b"one"),
        Value::Zero => line.extend_from_slice(b"zero"),
        Value::Label(_) | Value::NoLabel => line.extend_from_slice(b"label"),
        Value::Func(_) => line.extend_from_slice(b"function"),
    }
}

/// Adds what is known of a name: its value, or `?` where it is Dynamic.
fn push_known(line: &mut Bytes, known: &Option<Value>) -> Result<(), Memory> {
    line.extend_from_slice(b" ")?;
    match known {
        Some(value) => push_value(line, value),
        None => line.extend_from_slice(b"?"),
    }
}

/// Adds what is known of names.
pub fn push_names(line: &mut Bytes, names: &[(LocalId, Option<Value>)]) -> Result<(), Memory> {
    for name in names {
        push_known(line, &name.1)?;
    }
    Ok(())
}

/// Adds a code that is returned, and `?` for one that is Dynamic.
pub fn push_code(line: &mut Bytes, code: Code) -> Result<(), Memory> {
    line.extend_from_slice(b"exits ")?;
    match code {
        Code::Known(number) => push_signed(line, i128::from(number)),
        Code::Dynamic(_) => line.extend_from_slice(b"?"),
    }
}
