//! Worked residues: one for Base, one for the Adaptive Profile with integers, and one without capabilities and
//! for each other one.
ghost use Rattle.std.specs.Prelude.{◌≡◌, ◌∷◌, [], IfOk};
ghost use Rattle.residue.specs.declared.parts.Tail.TheVariants as tail;
ghost use Rattle.residue.specs.Functions.{attr};
ghost use Rattle.residue_tests.specs.Worked as spec;

use called_functions::text;
use ir_module::{Attr, Attrs, Constant};
use ir_values::{Bytes, Class, Conv, GlobalId, Int, Memory, Name, Pred, Seq, Ty, Value, Width};
use kept_items::{Dyn, Item, TypedVals, Val};
use residue::{Jump, Line, Lines, Names, Part, Parts, Residue, Tail, Vals};
use std::alloc::Global;

/// The list of these items.
fn list<T: Drop, const N: usize>(alloc: Global, items: [T; N]) -> Result<Seq<T>, Memory>
    ensures { IfOk result (λ l. l ≡ items) }
{
    Ok(Seq::from_vec(Vec::from_array(alloc, items)?))
}

fn int(bits: u64) -> Val
    ensures { result ≡ spec.int bits }
{
    match Int::new(Width::W64, bits) {
        Some(int) => Val::Known(Value::Int(int)),
        None => unreachable!(),
    }
}

fn bit() -> Int
    ensures { result ≡ spec.bit }
{
    match Int::new(Width::W1, 1) {
        Some(int) => int,
        None => unreachable!(),
    }
}

fn one() -> Val
    ensures { result ≡ spec.one }
{
    Val::Known(Value::Int(bit()))
}

fn jump(to: u32, args: Vals) -> Jump
    ensures { result ≡ spec.jump to args }
{
    Jump { to, args }
}

fn qubit(number: u64) -> (Ty, Val)
    ensures { result ≡ spec.qubit number }
{
    (Ty::Qubit, Val::Known(Value::Alloc(number)))
}

fn measured(number: u64) -> (Ty, Val)
    ensures { result ≡ spec.measured number }
{
    (Ty::Res, Val::Known(Value::Measured(number)))
}

fn operation(alloc: Global, name: &[u8], args: TypedVals) -> Result<Line, Memory>
    ensures { IfOk result (λ l. l ≡ spec.operation name.now args) }
{
    Ok(Line::Item(Item::Operation(text(alloc, name)?, args)))
}

fn measurement(alloc: Global) -> Result<Line, Memory>
    ensures { IfOk result (λ l. l ≡ spec.operation spec.measurement (spec.qubit 0 ∷ spec.measured 0 ∷ [])) }
{
    let args = list(alloc, [qubit(0), measured(0)])?;
    operation(alloc, b"__quantum__qis__mz__body", args)
}

fn irreversible(alloc: Global) -> Result<Names, Memory>
    ensures { IfOk result (λ l. l ≡ spec.measurement ∷ []) }
{
    list(alloc, [text(alloc, b"__quantum__qis__mz__body")?])
}

fn attribute(alloc: Global, key: &[u8], value: Option<Bytes>) -> Result<Attr, Memory>
    ensures { IfOk result (λ a. a ≡ attr key.now value) }
{
    Ok(Attr {
        key: text(alloc, key)?,
        value,
    })
}

fn base_attrs(alloc: Global) -> Result<Attrs, Memory>
    ensures { IfOk result (λ l. l ≡ spec.base.attrs) }
{
    let labels = attribute(
        alloc,
        b"output_labeling_schema",
        Some(text(alloc, b"labeled")?),
    )?;
    let entry = attribute(alloc, b"entry_point", None)?;
    let extra = attribute(alloc, b"extra", None)?;
    list(alloc, [labels, entry, extra])
}

fn base_lines(alloc: Global) -> Result<Lines, Memory>
    ensures { IfOk result (λ l. l ≡ spec.base_lines) }
{
    let gate = operation(alloc, b"__quantum__qis__h__body", list(alloc, [qubit(0)])?)?;
    let label = (Ty::Text, Val::Known(Value::Label(GlobalId(0))));
    let args = list(alloc, [measured(0), label])?;
    let record = Line::Item(Item::Output(Class::ResRecord, args));
    list(alloc, [Line::Made(0), gate, measurement(alloc)?, record])
}

fn base_part(alloc: Global) -> Result<Part, Memory>
    ensures { IfOk result (λ p. p ≡ record { params = []; lines = spec.base_lines; tail = tail.Return (spec.int 0) }) }
{
    Ok(Part {
        params: Seq::new(alloc),
        lines: base_lines(alloc)?,
        tail: Tail::Return(int(0)),
    })
}

fn label(alloc: Global) -> Result<Constant, Memory>
    ensures { IfOk result (λ c. c ≡ spec.label) }
{
    Ok(Constant {
        name: Name::Number(0),
        bytes: text(alloc, b"r\0")?,
    })
}

/// One qubit of its own, and an allocation that is measured behind a gate.
pub fn base(alloc: Global) -> Result<Residue, Memory>
    ensures { IfOk result (λ r. r ≡ spec.base) }
{
    let globals = list(alloc, [label(alloc)?])?;
    let attrs = base_attrs(alloc)?;
    let parts = list(alloc, [base_part(alloc)?])?;
    Ok(Residue {
        globals,
        entry: Name::Text(text(alloc, b"main")?),
        attrs,
        irreversible: irreversible(alloc)?,
        own_qubits: 1,
        own_results: 0,
        all_qubits: 2,
        all_results: 1,
        parts,
    })
}

fn first(alloc: Global) -> Result<Part, Memory>
    ensures { IfOk result (λ p. p ≡ spec.first) }
{
    let equal = Line::Item(Item::Equal(Dyn(7), Value::Measured(0), Value::One));
    let around = jump(1, Seq::new(alloc));
    let across = jump(2, list(alloc, [int(5)])?);
    Ok(Part {
        params: Seq::new(alloc),
        lines: list(alloc, [measurement(alloc)?, equal, Line::Freed(0)])?,
        tail: Tail::Branch(Val::Dynamic(Dyn(7)), around, across),
    })
}

fn second(alloc: Global) -> Result<Part, Memory>
    ensures { IfOk result (λ p. p ≡ spec.second) }
{
    let read = Line::Item(Item::Read(Dyn(4), Value::Id(0)));
    let bit = Val::Dynamic(Dyn(4));
    let wide = Line::Item(Item::Convert(Dyn(3), Conv::ZExt, Width::W1, bit, Width::W64));
    let onward = jump(2, list(alloc, [Val::Dynamic(Dyn(3))])?);
    Ok(Part {
        params: Seq::new(alloc),
        lines: list(alloc, [read, wide])?,
        tail: Tail::Jump(onward),
    })
}

fn third(alloc: Global) -> Result<Part, Memory>
    ensures { IfOk result (λ p. p ≡ spec.third) }
{
    let number = (Ty::Int(Width::W64), Val::Dynamic(Dyn(9)));
    let label = (Ty::Text, Val::Known(Value::NoLabel));
    let args = list(alloc, [number, label])?;
    Ok(Part {
        params: list(alloc, [(Dyn(9), Width::W64)])?,
        lines: list(alloc, [Line::Item(Item::Output(Class::IntRecord, args))])?,
        tail: Tail::Return(int(0)),
    })
}

/// A result that is compared with one, a branch on it, and a phi where the two ways meet.
pub fn adaptive(alloc: Global) -> Result<Residue, Memory>
    ensures { IfOk result (λ r. r ≡ spec.adaptive) }
{
    let attrs = list(alloc, [attribute(alloc, b"entry_point", None)?])?;
    let parts = list(alloc, [first(alloc)?, second(alloc)?, third(alloc)?])?;
    Ok(Residue {
        globals: Seq::new(alloc),
        entry: Name::Text(text(alloc, b"main")?),
        attrs,
        irreversible: irreversible(alloc)?,
        own_qubits: 0,
        own_results: 1,
        all_qubits: 1,
        all_results: 2,
        parts,
    })
}

/// A part that reads a result, with other lines behind it.
fn reading(alloc: Global, behind: Option<Line>, tail: Tail) -> Result<Part, Memory>
    ensures { IfOk result (λ p. p ≡ spec.reading (spec.in_list behind) tail) }
{
    let mut lines = list(alloc, [Line::Item(Item::Read(Dyn(0), Value::Id(0)))])?;
    if let Some(line) = behind {
        lines.push(line)?;
    }
    Ok(Part {
        params: Seq::new(alloc),
        lines,
        tail,
    })
}

/// A part that returns a code.
fn ending(alloc: Global, code: u64) -> Part
    ensures { result ≡ spec.ending code }
{
    Part {
        params: Seq::new(alloc),
        lines: Seq::new(alloc),
        tail: Tail::Return(int(code)),
    }
}

/// A part that flips the qubit and goes on in part 2.
fn flipping(alloc: Global, args: Vals) -> Result<Part, Memory>
    ensures { IfOk result (λ p. p ≡ spec.flipping args) }
{
    let flipped = list(alloc, [(Ty::Qubit, Val::Known(Value::Id(0)))])?;
    let gate = operation(alloc, b"__quantum__qis__x__body", flipped)?;
    Ok(Part {
        params: Seq::new(alloc),
        lines: list(alloc, [gate])?,
        tail: Tail::Jump(jump(2, args)),
    })
}

fn made_of(alloc: Global, parts: Parts) -> Result<Residue, Memory>
    ensures { IfOk result (λ r. r ≡ spec.made_of parts) }
{
    Ok(Residue {
        globals: Seq::new(alloc),
        entry: Name::Text(text(alloc, b"main")?),
        attrs: Seq::new(alloc),
        irreversible: Seq::new(alloc),
        own_qubits: 1,
        own_results: 1,
        all_qubits: 1,
        all_results: 1,
        parts,
    })
}

fn recording(alloc: Global) -> Result<Part, Memory>
    ensures { IfOk result (λ p. p ≡ spec.recording) }
{
    let read = (Ty::Int(Width::W1), Val::Dynamic(Dyn(2)));
    let args = list(alloc, [read, (Ty::Text, Val::Known(Value::NoLabel))])?;
    Ok(Part {
        params: list(alloc, [(Dyn(2), Width::W1)])?,
        lines: list(alloc, [Line::Item(Item::Output(Class::BoolRecord, args))])?,
        tail: Tail::Return(int(0)),
    })
}

/// A computation on bits, a branch, and a phi of a bit where the two ways meet.
pub fn plain(alloc: Global) -> Result<Residue, Memory>
    ensures { IfOk result (λ r. r ≡ spec.plain) }
{
    let unset = Item::Icmp(Dyn(1), Pred::Ne, Width::W1, Val::Dynamic(Dyn(0)), one());
    let across = jump(2, list(alloc, [Val::Dynamic(Dyn(0))])?);
    let tail = Tail::Branch(Val::Dynamic(Dyn(1)), jump(1, Seq::new(alloc)), across);
    let first = reading(alloc, Some(Line::Item(unset)), tail)?;
    let second = flipping(alloc, list(alloc, [one()])?)?;
    let parts = list(alloc, [first, second, recording(alloc)?])?;
    made_of(alloc, parts)
}

/// A switch by a bit.
pub fn switching(alloc: Global) -> Result<Residue, Memory>
    ensures { IfOk result (λ r. r ≡ spec.switching) }
{
    let cases = list(alloc, [(bit(), jump(1, Seq::new(alloc)))])?;
    let tail = Tail::Switch(
        Width::W1,
        Val::Dynamic(Dyn(0)),
        jump(2, Seq::new(alloc)),
        cases,
    );
    let first = reading(alloc, None, tail)?;
    let parts = list(
        alloc,
        [first, flipping(alloc, Seq::new(alloc))?, ending(alloc, 0)],
    )?;
    made_of(alloc, parts)
}

fn branching(alloc: Global) -> Result<Part, Memory>
    ensures { IfOk result (λ p. p ≡ spec.branching) }
{
    let there = jump(1, Seq::new(alloc));
    let tail = Tail::Branch(Val::Dynamic(Dyn(0)), there, jump(2, Seq::new(alloc)));
    reading(alloc, None, tail)
}

/// Two codes.
pub fn returning(alloc: Global) -> Result<Residue, Memory>
    ensures { IfOk result (λ r. r ≡ spec.returning) }
{
    let parts = list(
        alloc,
        [branching(alloc)?, ending(alloc, 3), ending(alloc, 0)],
    )?;
    made_of(alloc, parts)
}

/// A part that leads back to itself.
pub fn looping(alloc: Global) -> Result<Residue, Memory>
    ensures { IfOk result (λ r. r ≡ spec.looping) }
{
    let first = Part {
        params: Seq::new(alloc),
        lines: Seq::new(alloc),
        tail: Tail::Jump(jump(1, Seq::new(alloc))),
    };
    let parts = list(alloc, [first, branching(alloc)?, ending(alloc, 0)])?;
    made_of(alloc, parts)
}
