//! Reading operands.
ghost use Rattle.std.specs.Prelude.{◌≡◌, None, [], ◌∷◌};
ghost use Rattle.grammar.specs.Grammar.{begins_with};
ghost use Rattle.grammar.specs.code.Gives.{Gives};
ghost use Rattle.ir_values.specs.Width.{bits_of};
ghost use Rattle.ir_values.specs.declared.ty.Ty.TheVariants as ty;
ghost use Rattle.ir_tokens.specs.Tokens.{tokens};
ghost use Rattle.ir_tokens.specs.declared.kind.Kind.TheVariants as kind;
ghost use Rattle.ir_grammar.specs.SideRules.{in_range, integer_of};
ghost use Rattle.ir_grammar.specs.Words.{integer};
ghost use Rattle.ir_grammar.specs.Operands as spec;

use crate::Stop;
use crate::side_rules::{InRange, SameNumber, is_negative};
use crate::words::{global, local, local_comes};
use grammar::Cursor;
use ir_grammar::OperandSyntax;
use ir_tokens::{Kind, Token};
use ir_values::{Int, Ty, Width};

// Integers.

/// The integer that a token in range stands for.
fn integer_of(width: Width, token: Token) -> Int
    requires { in_range (bits_of width) token ≡ None }
    ensures { result ≡ integer_of width token }
{
    let number = token.number.value();
    let bits = if !is_negative(token.kind) {
        number as u64
    } else if number == 0 {
        0
    } else {
        (u128::from(width.mask()) + 1 - number) as u64
    };
    match Int::new(width, bits) {
        Some(int) => int,
        None => unreachable!(),
    }
}

/// An integer of the width.
#[tactic(auto, unfolding(ir_grammar::specs::Words::integer))]
fn integer<'a>(width: Width, cursor: &mut Cursor<'a, Token>) -> Result<Int, Stop<'a>>
    ensures { Gives (integer width) cursor.old cursor.new result }
{
    let in_range = InRange {
        width: u128::from(width.bits()),
    };
    let token = cursor.take_ruled(&[Kind::Nat, Kind::Minus], &in_range)?;
    Ok(integer_of(width, token))
}

/// `true` or `false` as an integer; the latter for all other words.
fn truth_of(kind: Kind) -> Int
    ensures { result ≡ spec.truth_of kind }
{
    let bits = match kind {
        Kind::True => 1,
        _ => 0,
    };
    match Int::new(Width::W1, bits) {
        Some(int) => int,
        None => unreachable!(),
    }
}

/// `true` or `false`.
#[tactic(auto, unfolding(ir_grammar::specs::Operands::truth))]
fn truth<'a>(cursor: &mut Cursor<'a, Token>) -> Result<Int, Stop<'a>>
    ensures { Gives spec.truth cursor.old cursor.new result }
{
    let word = cursor.take_one_of(&[Kind::True, Kind::False])?;
    Ok(truth_of(word.kind))
}

/// A constant of an integer type.
#[tactic(auto, unfolding(ir_grammar::specs::Operands::constant, ir_grammar::specs::Operands::truth))]
pub fn constant<'a>(width: Width, cursor: &mut Cursor<'a, Token>) -> Result<Int, Stop<'a>>
    ensures { Gives (spec.constant width) cursor.old cursor.new result }
{
    match width {
        Width::W1 => {
            if cursor.next_is_one_of(&[Kind::True, Kind::False]) {
                truth(cursor)
            } else {
                integer(Width::W1, cursor)
            }
        }
        _ => integer(width, cursor),
    }
}

/// An operand of an integer type.
#[tactic(auto, unfolding(ir_grammar::specs::Operands::integer_operand, ir_grammar::specs::Words::local))]
pub fn integer_operand<'a>(
    width: Width,
    cursor: &mut Cursor<'a, Token>,
) -> Result<OperandSyntax, Stop<'a>>
    ensures { Gives (spec.integer_operand width) cursor.old cursor.new result }
{
    if local_comes(cursor) {
        return Ok(OperandSyntax::Local(local(cursor)?));
    }
    Ok(OperandSyntax::Integer(constant(width, cursor)?))
}

// Doubles, qubits and results.

/// An operand of type `double`.
#[tactic(auto, unfolding(ir_grammar::specs::Operands::double_operand, ir_grammar::specs::Words::local))]
fn double_operand<'a>(cursor: &mut Cursor<'a, Token>) -> Result<OperandSyntax, Stop<'a>>
    ensures { Gives spec.double_operand cursor.old cursor.new result }
{
    if local_comes(cursor) {
        return Ok(OperandSyntax::Local(local(cursor)?));
    }
    Ok(OperandSyntax::Double(cursor.take(Kind::DoubleLiteral)?))
}

/// A number as a qubit or a result, whose type has this name.
#[tactic(auto, unfolding(ir_grammar::specs::Operands::numbered_handle))]
fn numbered_handle<'a>(
    name: Kind,
    cursor: &mut Cursor<'a, Token>,
) -> Result<OperandSyntax, Stop<'a>>
    ensures { Gives (spec.numbered_handle name) cursor.old cursor.new result }
{
    cursor.take(Kind::IntToPtr)?;
    cursor.take(Kind::Open)?;
    cursor.take(Kind::I64)?;
    let number = integer(Width::W64, cursor)?;
    cursor.take(Kind::To)?;
    cursor.take(name)?;
    cursor.take(Kind::Star)?;
    cursor.take(Kind::Close)?;
    Ok(OperandSyntax::Handle(number.bits()))
}

/// An operand of type `%Qubit*` or `%Result*`, whichever has this name.
#[tactic(auto, unfolding(ir_grammar::specs::Operands::handle_operand, ir_grammar::specs::Words::local))]
fn handle_operand<'a>(name: Kind, cursor: &mut Cursor<'a, Token>) -> Result<OperandSyntax, Stop<'a>>
    ensures { Gives (spec.handle_operand name) cursor.old cursor.new result }
{
    if local_comes(cursor) {
        return Ok(OperandSyntax::Local(local(cursor)?));
    }
    if cursor.next_is(Kind::Null) {
        cursor.take(Kind::Null)?;
        return Ok(OperandSyntax::Handle(0));
    }
    numbered_handle(name, cursor)
}

// Labels.

/// A width and 0.
#[tactic(auto, unfolding(ir_grammar::specs::Operands::zero_index, ir_grammar::specs::Words::zero_number))]
fn zero_index<'a>(cursor: &mut Cursor<'a, Token>) -> Result<Token, Stop<'a>>
    ensures { Gives spec.zero_index cursor.old cursor.new result }
{
    cursor.take_one_of(&[Kind::I32, Kind::I64])?;
    cursor.take_ruled(&[Kind::Nat, Kind::Minus], &SameNumber { number: 0 })
}

/// An array type; its number is answered.
#[tactic(auto, unfolding(ir_grammar::specs::Operands::array_type, ir_grammar::specs::Words::nat))]
pub fn array_type<'a>(cursor: &mut Cursor<'a, Token>) -> Result<u128, Stop<'a>>
    ensures { Gives spec.array_type cursor.old cursor.new result }
{
    cursor.take(Kind::OpenSquare)?;
    let length = cursor.take(Kind::Nat)?;
    cursor.take(Kind::X)?;
    cursor.take(Kind::I8)?;
    cursor.take(Kind::CloseSquare)?;
    Ok(length.number.value())
}

/// The array type with this number.
#[tactic(auto, unfolding(ir_grammar::specs::Operands::same_array))]
fn same_array<'a>(number: u128, cursor: &mut Cursor<'a, Token>) -> Result<Token, Stop<'a>>
    ensures { Gives (spec.same_array number) cursor.old cursor.new result }
{
    cursor.take(Kind::OpenSquare)?;
    let again = cursor.take_ruled(&[Kind::Nat], &SameNumber { number })?;
    cursor.take(Kind::X)?;
    cursor.take(Kind::I8)?;
    cursor.take(Kind::CloseSquare)?;
    Ok(again)
}

/// Two array types of one number, which is answered.
#[tactic(auto, unfolding(ir_grammar::specs::Operands::array_types))]
fn array_types<'a>(cursor: &mut Cursor<'a, Token>) -> Result<u128, Stop<'a>>
    ensures { Gives spec.array_types cursor.old cursor.new result }
{
    let number = array_type(cursor)?;
    cursor.take(Kind::Comma)?;
    same_array(number, cursor)?;
    Ok(number)
}

/// The constant and its indices.
#[tactic(auto, unfolding(ir_grammar::specs::Operands::indexed))]
fn indexed<'a>(cursor: &mut Cursor<'a, Token>) -> Result<Token, Stop<'a>>
    ensures { Gives spec.indexed cursor.old cursor.new result }
{
    let constant = global(cursor)?;
    cursor.take(Kind::Comma)?;
    zero_index(cursor)?;
    cursor.take(Kind::Comma)?;
    zero_index(cursor)?;
    Ok(constant)
}

/// A label expression.
#[tactic(auto, unfolding(ir_grammar::specs::Operands::label_operand))]
fn label_operand<'a>(cursor: &mut Cursor<'a, Token>) -> Result<OperandSyntax, Stop<'a>>
    ensures { Gives spec.label_operand cursor.old cursor.new result }
{
    let word = cursor.take(Kind::GetElementPtr)?;
    cursor.take(Kind::InBounds)?;
    cursor.take(Kind::Open)?;
    let length = array_types(cursor)?;
    cursor.take(Kind::Star)?;
    let constant = indexed(cursor)?;
    cursor.take(Kind::Close)?;
    Ok(OperandSyntax::LabelOf(word, length, constant))
}

/// An operand of type `i8*`.
#[tactic(auto, unfolding(ir_grammar::specs::Operands::text_operand, ir_grammar::specs::Words::local))]
fn text_operand<'a>(cursor: &mut Cursor<'a, Token>) -> Result<OperandSyntax, Stop<'a>>
    ensures { Gives spec.text_operand cursor.old cursor.new result }
{
    if local_comes(cursor) {
        return Ok(OperandSyntax::Local(local(cursor)?));
    }
    if cursor.next_is(Kind::Null) {
        cursor.take(Kind::Null)?;
        return Ok(OperandSyntax::NoLabel);
    }
    label_operand(cursor)
}

// Operands of all types.

/// An operand of a function pointer type.
#[tactic(auto, unfolding(ir_grammar::specs::Operands::function_operand, ir_grammar::specs::Words::local))]
fn function_operand<'a>(cursor: &mut Cursor<'a, Token>) -> Result<OperandSyntax, Stop<'a>>
    ensures { Gives spec.function_operand cursor.old cursor.new result }
{
    if local_comes(cursor) {
        return Ok(OperandSyntax::Local(local(cursor)?));
    }
    Ok(OperandSyntax::Function(global(cursor)?))
}

/// What stands for an operand of type `void`, which no production has.
#[tactic(auto, unfolding(ir_grammar::specs::Operands::operand))]
fn void_operand<'a>(cursor: &mut Cursor<'a, Token>) -> Result<OperandSyntax, Stop<'a>>
    ensures { Gives (spec.operand ty.Void) cursor.old cursor.new result }
{
    Ok(OperandSyntax::Local(local(cursor)?))
}

/// An operand of a type.
#[tactic(auto, unfolding(ir_grammar::specs::Operands::operand))]
pub fn operand<'a>(ty: &Ty, cursor: &mut Cursor<'a, Token>) -> Result<OperandSyntax, Stop<'a>>
    ensures { Gives (spec.operand ty.now) cursor.old cursor.new result }
{
    match ty {
        Ty::Int(width) => integer_operand(*width, cursor),
        Ty::Double => double_operand(cursor),
        Ty::Qubit => handle_operand(Kind::QubitName, cursor),
        Ty::Res => handle_operand(Kind::ResultName, cursor),
        Ty::Text => text_operand(cursor),
        Ty::Func(_) => function_operand(cursor),
        Ty::Void => void_operand(cursor),
    }
}
