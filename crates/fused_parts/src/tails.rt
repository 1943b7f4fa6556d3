//! How parts end.
ghost use Rattle.std.specs.Prelude.{◌≡◌, map, IfOk};
ghost use Rattle.ir_values.specs.declared.int.Width.TheVariants.{W64};
ghost use Rattle.ir_values.specs.Arithmetic.{modulo};
ghost use Rattle.kept_items.specs.declared.item.Choice.TheVariants as choice;
ghost use Rattle.kept_items.specs.declared.val.Val.TheVariants as vals;
ghost use Rattle.fused_parts.specs.Parts as spec;
ghost use Rattle.fused_parts.specs.Parts.{number_at};
ghost use Rattle.fused_parts.specs.Ranks.{part_number};

use crate::layout::Layout;
use crate::numbers::Numbers;
use ir_values::{Int, Memory, Seq, Value, Width};
use kept_items::{Choice, Code, Dyn, Dyns, Val};
use path_search::Link;
use residue::{Jump, SwitchCases, Tail, Vals};
use std::alloc::Global;
use unroller::Outcome;

/// Links in an order.
pub type Links = Seq<Link<Dyns>>;

/// An integer of 64 bits.
fn word(bits: u64) -> Int
    ensures { result ≡ record { width = W64; bits = bits } }
{
    match Int::new(Width::W64, bits) {
        Some(int) => int,
        None => unreachable!(),
    }
}

/// The integer of 64 bits that is a number in two's complement.
fn modulo(number: i64) -> Int
    ensures { result ≡ modulo W64 number }
{
    word(i128::from(number).rem_euclid(i128::from(u64::MAX) + 1) as u64)
}

/// The value of a code that is returned, by its number.
fn code_val(numbers: &Numbers, code: Code) -> Val
    ensures { result ≡ spec.code_val numbers.now.mine code }
{
    match code {
        Code::Known(number) => Val::Known(Value::Int(modulo(number))),
        Code::Dynamic(d) => Val::Dynamic(numbers.at(d)),
    }
}

/// The end of a part whose configuration returns a code, or goes to the part that exits share.
fn exit_tail(alloc: Global, shared: Option<u32>, numbers: &Numbers, code: Code) -> Tail
    ensures { result ≡ spec.exit_tail shared numbers.now.mine code }
{
    match shared {
        None => Tail::Return(code_val(numbers, code)),
        Some(to) => Tail::Jump(Jump {
            to,
            args: Seq::new(alloc),
        }),
    }
}

/// The end of a part that returns 0.
pub fn nowhere() -> Tail
    ensures { result ≡ spec.nowhere }
{
    Tail::Return(Val::Known(Value::Int(word(0))))
}

/// The values that a part's parameters take, by their numbers.
fn jump_args(alloc: Global, numbers: &Numbers, label: &[Dyn]) -> Result<Vals, Memory>
    ensures { IfOk result (λ args. args ≡ map (λ d. vals.Dynamic (number_at numbers.now.mine d)) label.now) }
{
    let mut args = Seq::new(alloc);
    for d in label {
        args.push(Val::Dynamic(numbers.at(*d)))?;
    }
    Ok(args)
}

/// The jump along a link.
fn jump_to(
    alloc: Global,
    layout: &Layout,
    numbers: &Numbers,
    link: &Link<Dyns>,
) -> Result<Jump, Memory>
    ensures { IfOk result (λ jump. jump ≡ spec.jump_to (part_number layout.now) numbers.now.mine link.now) }
{
    Ok(Jump {
        to: layout.part(link.to),
        args: jump_args(alloc, numbers, link.label.as_slice())?,
    })
}

/// The jumps of the cases of a switch, along as many links.
fn case_jumps(
    alloc: Global,
    layout: &Layout,
    numbers: &Numbers,
    cases: &[Int],
    links: &[Link<Dyns>],
) -> Result<SwitchCases, Memory>
    ensures { IfOk result (λ jumps. jumps ≡ spec.case_jumps (part_number layout.now) numbers.now.mine cases.now links.now) }
{
    let mut jumps = Seq::new(alloc);
    let mut cases = cases;
    let mut links = links;
    while let [case, more @ ..] = cases {
        let [link, behind @ ..] = links else {
            return Ok(jumps);
        };
        jumps.push((*case, jump_to(alloc, layout, numbers, link)?))?;
        cases = more;
        links = behind;
    }
    Ok(jumps)
}

/// The jump along the last link, that of no case.
fn last_jump(
    alloc: Global,
    layout: &Layout,
    numbers: &Numbers,
    links: &Links,
) -> Result<Jump, Memory>
    ensures { IfOk result (λ jump. jump ≡ spec.last_jump (part_number layout.now) numbers.now.mine links.now) }
{
    if links.is_empty() {
        return Ok(Jump {
            to: 0,
            args: Seq::new(alloc),
        });
    }
    jump_to(alloc, layout, numbers, links.at(links.len() - 1))
}

/// The end of a part that goes on along the only link.
fn one_tail(
    alloc: Global,
    layout: &Layout,
    numbers: &Numbers,
    links: &[Link<Dyns>],
) -> Result<Tail, Memory>
    ensures { IfOk result (λ tail. tail ≡ spec.choice_tail (part_number layout.now) numbers.now.mine choice.One links.now) }
{
    match links {
        [] => Ok(nowhere()),
        [link, ..] => Ok(Tail::Jump(jump_to(alloc, layout, numbers, link)?)),
    }
}

/// The end of a part that goes on along the first or the second link, by a value.
fn branch_tail(
    alloc: Global,
    layout: &Layout,
    numbers: &Numbers,
    condition: Dyn,
    links: &[Link<Dyns>],
) -> Result<Tail, Memory>
    ensures { IfOk result (λ tail. tail ≡ spec.choice_tail (part_number layout.now) numbers.now.mine (choice.Branch condition) links.now) }
{
    match links {
        [] => Ok(nowhere()),
        [_] => Ok(nowhere()),
        [first, second, ..] => Ok(Tail::Branch(
            Val::Dynamic(numbers.at(condition)),
            jump_to(alloc, layout, numbers, first)?,
            jump_to(alloc, layout, numbers, second)?,
        )),
    }
}

/// The end of a part that goes on along the link that a choice takes.
fn choice_tail(
    alloc: Global,
    layout: &Layout,
    numbers: &Numbers,
    choice: &Choice,
    links: &Links,
) -> Result<Tail, Memory>
    ensures { IfOk result (λ tail. tail ≡ spec.choice_tail (part_number layout.now) numbers.now.mine choice.now links.now) }
{
    match choice {
        Choice::One => one_tail(alloc, layout, numbers, links.as_slice()),
        Choice::Branch(d) => branch_tail(alloc, layout, numbers, *d, links.as_slice()),
        Choice::Switch(d, width, cases) => Ok(Tail::Switch(
            *width,
            Val::Dynamic(numbers.at(*d)),
            last_jump(alloc, layout, numbers, links)?,
            case_jumps(alloc, layout, numbers, cases.as_slice(), links.as_slice())?,
        )),
    }
}

/// The end of a part by what its last configuration does, with the numbers behind that.
pub fn outcome_tail(
    alloc: Global,
    layout: &Layout,
    shared: Option<u32>,
    numbers: &Numbers,
    outcome: &Outcome,
    links: &Links,
) -> Result<Tail, Memory>
    ensures { IfOk result (λ tail. tail ≡ spec.outcome_tail (part_number layout.now) shared numbers.now.mine outcome.now links.now) }
{
    match outcome {
        Outcome::Goes(_, choice) => choice_tail(alloc, layout, numbers, choice, links),
        Outcome::Exits(code) => Ok(exit_tail(alloc, shared, numbers, *code)),
    }
}
