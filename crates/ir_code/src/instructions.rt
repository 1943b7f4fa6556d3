//! Reading instructions.
ghost use Rattle.std.specs.Prelude.{◌≡◌, true, false, [], ◌∷◌, ◌++◌};
ghost use Rattle.grammar.specs.Grammar.{alt, dep, seq};
ghost use Rattle.grammar.specs.code.Gives.{Gives};
ghost use Rattle.ir_tokens.specs.code.Kinds.{code};
ghost use Rattle.ir_tokens.specs.declared.kind.Kind.TheVariants as kind;
ghost use Rattle.ir_grammar.specs.Words as words;
ghost use Rattle.ir_grammar.specs.Types as types;
ghost use Rattle.ir_grammar.specs.Operands as operands;
ghost use Rattle.ir_grammar.specs.Instructions as spec;
ghost use Rattle.ir_grammar.specs.code.DecidedTypes.{type_firsts};
ghost use Rattle.ir_grammar.specs.code.DecidedInstructions.{wrap_decided, argument_starts, group_starts};

use crate::Stop;
use crate::operands::{integer_operand, operand};
use crate::types::{integer_type, return_type, type_comes, value_type};
use crate::words::{global, group, local};
use grammar::{Cursor, Growth, Listed, Part, grow, repeat, separated};
use ir_grammar::{ArgSyntax, InstSyntax, OperandSyntax, TypeSyntax};
use ir_tokens::{Kind, Rule, Token};
use ir_values::{BinOp, Conv, Flags, Pred, Seq, Ty, Width};
use std::alloc::Global;

// Binary instructions.

/// The binary instruction of this word; `xor` for other words.
fn binary_of(kind: Kind) -> BinOp
    ensures { result ≡ spec.binary_of kind }
{
    match kind {
        Kind::Add => BinOp::Add,
        Kind::Sub => BinOp::Sub,
        Kind::Mul => BinOp::Mul,
        Kind::UDiv => BinOp::UDiv,
        Kind::SDiv => BinOp::SDiv,
        Kind::URem => BinOp::URem,
        Kind::SRem => BinOp::SRem,
        Kind::Shl => BinOp::Shl,
        Kind::LShr => BinOp::LShr,
        Kind::AShr => BinOp::AShr,
        Kind::And => BinOp::And,
        Kind::Or => BinOp::Or,
        _ => BinOp::Xor,
    }
}

/// The flags that haven't stood yet.
fn flags_left(flags: Flags) -> &'static [Kind]
    ensures { result.now ≡ spec.not_yet flags.nuw kind.Nuw ++ spec.not_yet flags.nsw kind.Nsw }
{
    match (flags.nuw, flags.nsw) {
        (false, false) => &[Kind::Nuw, Kind::Nsw],
        (false, true) => &[Kind::Nuw],
        (true, false) => &[Kind::Nsw],
        (true, true) => &[],
    }
}

/// The flags with that of this word.
fn with_flag(flags: Flags, kind: Kind) -> Flags
    ensures { result ≡ spec.with_flag flags kind }
{
    match kind {
        Kind::Nuw => Flags { nuw: true, ..flags },
        Kind::Nsw => Flags { nsw: true, ..flags },
        _ => Flags {
            exact: true,
            ..flags
        },
    }
}

/// Flags `nuw` and `nsw`, each at most once.
struct WrapFlags;

impl Growth for WrapFlags {
    type Token = Token;

    type Kind = Kind;

    type Rule = Rule;

    type Item = Flags;

    ghost kind = { λ t. t.kind };

    ghost code = { code };

    ghost grows = { λ _ f. spec.wrap_flag f };

    ghost extensions = { kind.Nuw ∷ kind.Nsw ∷ [] };

    ghost decided = { λ _ f. wrap_decided f };

    #[tactic(auto, unfolding(ir_grammar::specs::Instructions::wrap_flag))]
    fn begins(&self, item: &Flags, cursor: &Cursor<'_, Token>) -> bool {
        cursor.next_is_one_of(flags_left(*item))
    }

    #[tactic(auto, unfolding(ir_grammar::specs::Instructions::wrap_flag))]
    fn marked(&self, item: &Flags) -> bool {
        let _ = item;
        false
    }

    #[tactic(auto, unfolding(ir_grammar::specs::Instructions::wrap_flag))]
    fn read<'a>(
        &self,
        alloc: Global,
        item: Flags,
        cursor: &mut Cursor<'a, Token>,
    ) -> Result<Flags, Stop<'a>> {
        let _ = alloc;
        let word = cursor.take_one_of(flags_left(item))?;
        Ok(with_flag(item, word.kind))
    }
}

/// No flags but `exact`, if it stands.
fn only_exact(exact: bool) -> Flags
    ensures { result ≡ record { nuw = false; nsw = false; exact = exact } }
{
    Flags {
        nuw: false,
        nsw: false,
        exact,
    }
}

/// The word of a binary instruction with wrap flags, and these.
#[tactic(auto, unfolding(ir_grammar::specs::Instructions::wrapping))]
fn wrapping<'a>(alloc: Global, cursor: &mut Cursor<'a, Token>) -> Result<(Token, Flags), Stop<'a>>
    ensures { Gives spec.wrapping cursor.old cursor.new result }
{
    let word = cursor.take_one_of(&[Kind::Add, Kind::Sub, Kind::Mul, Kind::Shl])?;
    Ok((word, grow(alloc, &WrapFlags, only_exact(false), cursor)?))
}

/// The word of a binary instruction with the flag `exact`, and whether it stands.
#[tactic(auto, unfolding(ir_grammar::specs::Instructions::exacting))]
fn exacting<'a>(cursor: &mut Cursor<'a, Token>) -> Result<(Token, Flags), Stop<'a>>
    ensures { Gives spec.exacting cursor.old cursor.new result }
{
    let word = cursor.take_one_of(&[Kind::UDiv, Kind::SDiv, Kind::LShr, Kind::AShr])?;
    if !cursor.next_is(Kind::Exact) {
        return Ok((word, only_exact(false)));
    }
    cursor.take(Kind::Exact)?;
    Ok((word, only_exact(true)))
}

/// The word of a binary instruction without flags.
#[tactic(auto, unfolding(ir_grammar::specs::Instructions::flagless))]
fn flagless<'a>(cursor: &mut Cursor<'a, Token>) -> Result<(Token, Flags), Stop<'a>>
    ensures { Gives spec.flagless cursor.old cursor.new result }
{
    let word = cursor.take_one_of(&[Kind::URem, Kind::SRem, Kind::And, Kind::Or, Kind::Xor])?;
    Ok((word, only_exact(false)))
}

/// The word of a binary instruction, and its flags.
#[tactic(auto, unfolding(ir_grammar::specs::Instructions::wrapping, ir_grammar::specs::Instructions::exacting))]
fn flagged<'a>(alloc: Global, cursor: &mut Cursor<'a, Token>) -> Result<(Token, Flags), Stop<'a>>
    ensures { Gives (alt spec.wrapping (alt spec.exacting spec.flagless)) cursor.old cursor.new result }
{
    if cursor.next_is_one_of(&[Kind::Add, Kind::Sub, Kind::Mul, Kind::Shl]) {
        wrapping(alloc, cursor)
    } else if cursor.next_is_one_of(&[Kind::UDiv, Kind::SDiv, Kind::LShr, Kind::AShr]) {
        exacting(cursor)
    } else {
        flagless(cursor)
    }
}

/// Two operands of an integer type, between which a comma stands.
#[tactic(auto, unfolding(ir_grammar::specs::Instructions::operand_pair))]
fn operand_pair<'a>(
    width: Width,
    cursor: &mut Cursor<'a, Token>,
) -> Result<(OperandSyntax, OperandSyntax), Stop<'a>>
    ensures { Gives (spec.operand_pair width) cursor.old cursor.new result }
{
    let left = integer_operand(width, cursor)?;
    cursor.take(Kind::Comma)?;
    Ok((left, integer_operand(width, cursor)?))
}

/// An integer type and two operands of it.
#[tactic(auto, unfolding(ir_grammar::specs::Instructions::operand_pairs))]
fn operand_pairs<'a>(
    cursor: &mut Cursor<'a, Token>,
) -> Result<(Width, (OperandSyntax, OperandSyntax)), Stop<'a>>
    ensures { Gives spec.operand_pairs cursor.old cursor.new result }
{
    let width = integer_type(cursor)?;
    Ok((width, operand_pair(width, cursor)?))
}

/// A binary instruction.
#[tactic(auto, unfolding(ir_grammar::specs::Instructions::binary))]
pub fn binary<'a>(alloc: Global, cursor: &mut Cursor<'a, Token>) -> Result<InstSyntax, Stop<'a>>
    ensures { Gives spec.binary cursor.old cursor.new result }
{
    let (word, flags) = flagged(alloc, cursor)?;
    let (width, (left, right)) = operand_pairs(cursor)?;
    Ok(InstSyntax::Binary(binary_of(word.kind), flags, Ty::Int(width), left, right))
}

// Comparisons, conversions and selections.

/// The predicate of this word; `sle` for other words.
fn predicate_of(kind: Kind) -> Pred
    ensures { result ≡ spec.predicate_of kind }
{
    match kind {
        Kind::Eq => Pred::Eq,
        Kind::Ne => Pred::Ne,
        Kind::Ugt => Pred::Ugt,
        Kind::Uge => Pred::Uge,
        Kind::Ult => Pred::Ult,
        Kind::Ule => Pred::Ule,
        Kind::Sgt => Pred::Sgt,
        Kind::Sge => Pred::Sge,
        Kind::Slt => Pred::Slt,
        _ => Pred::Sle,
    }
}

/// A predicate.
#[tactic(auto, unfolding(ir_grammar::specs::Instructions::predicate))]
fn predicate<'a>(cursor: &mut Cursor<'a, Token>) -> Result<Pred, Stop<'a>>
    ensures { Gives spec.predicate cursor.old cursor.new result }
{
    let word = cursor.take_one_of(&[
        Kind::Eq,
        Kind::Ne,
        Kind::Ugt,
        Kind::Uge,
        Kind::Ult,
        Kind::Ule,
        Kind::Sgt,
        Kind::Sge,
        Kind::Slt,
        Kind::Sle,
    ])?;
    Ok(predicate_of(word.kind))
}

/// `icmp`.
#[tactic(auto, unfolding(ir_grammar::specs::Instructions::compare))]
pub fn compare<'a>(cursor: &mut Cursor<'a, Token>) -> Result<InstSyntax, Stop<'a>>
    ensures { Gives spec.compare cursor.old cursor.new result }
{
    cursor.take(Kind::Icmp)?;
    let predicate = predicate(cursor)?;
    let (width, (left, right)) = operand_pairs(cursor)?;
    Ok(InstSyntax::Icmp(predicate, Ty::Int(width), left, right))
}

/// The conversion of this word; `trunc` for other words.
fn conversion_of(kind: Kind) -> Conv
    ensures { result ≡ spec.conversion_of kind }
{
    match kind {
        Kind::ZExt => Conv::ZExt,
        Kind::SExt => Conv::SExt,
        _ => Conv::Trunc,
    }
}

/// An integer type and an operand of it.
pub fn typed_integer<'a>(cursor: &mut Cursor<'a, Token>) -> Result<(Width, OperandSyntax), Stop<'a>>
    ensures { Gives (dep types.integer_type [] operands.integer_operand) cursor.old cursor.new result }
{
    let width = integer_type(cursor)?;
    Ok((width, integer_operand(width, cursor)?))
}

/// A conversion.
#[tactic(auto, unfolding(ir_grammar::specs::Instructions::convert))]
pub fn convert<'a>(cursor: &mut Cursor<'a, Token>) -> Result<InstSyntax, Stop<'a>>
    ensures { Gives spec.convert cursor.old cursor.new result }
{
    let word = cursor.take_one_of(&[Kind::ZExt, Kind::SExt, Kind::Trunc])?;
    let (from, value) = typed_integer(cursor)?;
    cursor.take(Kind::To)?;
    let to = integer_type(cursor)?;
    Ok(InstSyntax::Convert(conversion_of(word.kind), Ty::Int(from), value, Ty::Int(to)))
}

/// A type and an operand of it.
#[tactic(auto, unfolding(ir_grammar::specs::Instructions::typed_operand))]
fn typed_operand<'a>(
    alloc: Global,
    cursor: &mut Cursor<'a, Token>,
) -> Result<(TypeSyntax, OperandSyntax), Stop<'a>>
    ensures { Gives spec.typed_operand cursor.old cursor.new result }
{
    let ty = value_type(alloc, cursor)?;
    let value = operand(&ty.ty, cursor)?;
    Ok((ty, value))
}

/// An operand of type `i1`, with its type and a comma.
#[tactic(auto, unfolding(ir_grammar::specs::Instructions::condition))]
pub fn condition<'a>(cursor: &mut Cursor<'a, Token>) -> Result<OperandSyntax, Stop<'a>>
    ensures { Gives spec.condition cursor.old cursor.new result }
{
    cursor.take(Kind::I1)?;
    let value = integer_operand(Width::W1, cursor)?;
    cursor.take(Kind::Comma)?;
    Ok(value)
}

/// `select`.
#[tactic(auto, unfolding(ir_grammar::specs::Instructions::select))]
pub fn select<'a>(alloc: Global, cursor: &mut Cursor<'a, Token>) -> Result<InstSyntax, Stop<'a>>
    ensures { Gives spec.select cursor.old cursor.new result }
{
    cursor.take(Kind::Select)?;
    let condition = condition(cursor)?;
    let (left, yes) = typed_operand(alloc, cursor)?;
    cursor.take(Kind::Comma)?;
    let (right, no) = typed_operand(alloc, cursor)?;
    Ok(InstSyntax::Select(condition, left.ty, yes, right.ty, no))
}

// Calls.

/// A type and the words of a parameter.
#[tactic(auto, unfolding(ir_grammar::specs::Instructions::worded_type))]
pub fn worded_type<'a>(
    alloc: Global,
    cursor: &mut Cursor<'a, Token>,
) -> Result<TypeSyntax, Stop<'a>>
    ensures { Gives spec.worded_type cursor.old cursor.new result }
{
    let ty = value_type(alloc, cursor)?;
    cursor.ignore(&[Kind::WriteOnly, Kind::ReadOnly, Kind::NoCapture])?;
    Ok(ty)
}

/// The arguments of a call.
struct ArgumentList;

impl Part for ArgumentList {
    type Token = Token;

    type Kind = Kind;

    type Rule = Rule;

    type Item = ArgSyntax;

    ghost kind = { λ t. t.kind };

    ghost code = { code };

    ghost grammar = { λ _. spec.argument };

    ghost kinds = { λ _. type_firsts };

    ghost mark = { true };

    ghost starts = { λ _. argument_starts };

    fn begins(&self, cursor: &Cursor<'_, Token>) -> bool {
        type_comes(cursor)
    }

    fn marked(&self) -> bool {
        true
    }

    #[tactic(auto, unfolding(ir_grammar::specs::Instructions::argument))]
    fn read<'a>(
        &self,
        alloc: Global,
        cursor: &mut Cursor<'a, Token>,
    ) -> Result<ArgSyntax, Stop<'a>> {
        let ty = worded_type(alloc, cursor)?.ty;
        let value = operand(&ty, cursor)?;
        Ok(ArgSyntax { ty, value })
    }
}

impl Listed for ArgumentList {
    ghost separator = { kind.Comma };

    fn separates(&self, cursor: &Cursor<'_, Token>) -> bool {
        cursor.next_is(Kind::Comma)
    }
}

/// The arguments of a call, with their parentheses.
#[tactic(auto, unfolding(ir_grammar::specs::Instructions::arguments))]
fn arguments<'a>(alloc: Global, cursor: &mut Cursor<'a, Token>) -> Result<Seq<ArgSyntax>, Stop<'a>>
    ensures { Gives spec.arguments cursor.old cursor.new result }
{
    cursor.take(Kind::Open)?;
    let arguments = separated(alloc, &ArgumentList, cursor)?;
    cursor.take(Kind::Close)?;
    Ok(arguments)
}

/// The names of groups.
struct GroupNames;

impl Part for GroupNames {
    type Token = Token;

    type Kind = Kind;

    type Rule = Rule;

    type Item = Token;

    ghost kind = { λ t. t.kind };

    ghost code = { code };

    ghost grammar = { λ _. words.group };

    ghost kinds = { λ _. kind.Group ∷ [] };

    ghost mark = { false };

    ghost starts = { λ _. group_starts };

    fn begins(&self, cursor: &Cursor<'_, Token>) -> bool {
        cursor.next_is(Kind::Group)
    }

    fn marked(&self) -> bool {
        false
    }

    fn read<'a>(&self, alloc: Global, cursor: &mut Cursor<'a, Token>) -> Result<Token, Stop<'a>> {
        let _ = alloc;
        group(cursor)
    }
}

/// The names of groups, or none.
#[tactic(auto, unfolding(ir_grammar::specs::Instructions::groups))]
pub fn groups<'a>(alloc: Global, cursor: &mut Cursor<'a, Token>) -> Result<Seq<Token>, Stop<'a>>
    ensures { Gives spec.groups cursor.old cursor.new result }
{
    repeat(alloc, &GroupNames, cursor)
}

/// A function by its name, or a local that holds one.
#[tactic(auto, unfolding(ir_grammar::specs::Instructions::callee, ir_grammar::specs::Words::global))]
fn callee<'a>(cursor: &mut Cursor<'a, Token>) -> Result<Token, Stop<'a>>
    ensures { Gives spec.callee cursor.old cursor.new result }
{
    if cursor.next_is(Kind::Global) {
        return global(cursor);
    }
    local(cursor)
}

/// The words of a call; the first of them is answered.
#[tactic(auto, unfolding(ir_grammar::specs::Instructions::call_word))]
fn call_word<'a>(cursor: &mut Cursor<'a, Token>) -> Result<Token, Stop<'a>>
    ensures { Gives spec.call_word cursor.old cursor.new result }
{
    if cursor.next_is(Kind::Call) {
        return cursor.take(Kind::Call);
    }
    let word = cursor.take_one_of(&[Kind::Tail, Kind::NoTail])?;
    cursor.take(Kind::Call)?;
    Ok(word)
}

/// What is called: the type that it gives, its name, the arguments and the groups.
fn called<'a>(
    alloc: Global,
    cursor: &mut Cursor<'a, Token>,
) -> Result<(TypeSyntax, (Token, (Seq<ArgSyntax>, Seq<Token>))), Stop<'a>>
    ensures { Gives (seq types.return_type (seq spec.callee (seq spec.arguments spec.groups))) cursor.old cursor.new result }
{
    let ret = return_type(alloc, cursor)?;
    let callee = callee(cursor)?;
    let arguments = arguments(alloc, cursor)?;
    let groups = groups(alloc, cursor)?;
    Ok((ret, (callee, (arguments, groups))))
}

/// A call, and its first token.
#[tactic(auto, unfolding(ir_grammar::specs::Instructions::call))]
pub fn call<'a>(
    alloc: Global,
    cursor: &mut Cursor<'a, Token>,
) -> Result<(Token, InstSyntax), Stop<'a>>
    ensures { Gives spec.call cursor.old cursor.new result }
{
    let first = call_word(cursor)?;
    let (ret, (callee, (arguments, groups))) = called(alloc, cursor)?;
    Ok((first, InstSyntax::Call(ret.ty, callee, arguments, groups)))
}
