//! Reading types.
ghost use Rattle.std.specs.Prelude.{◌≡◌, ◌+◌, ◌<◌, ◌≤◌, [], ◌∷◌, ◌++◌, map, IfOk};
ghost use Rattle.grammar.specs.Grammar.{begins_with, as_tree, rep, alt, dep, second, grow, preceded, listed};
ghost use Rattle.grammar.specs.LookAhead.{firsts};
ghost use Rattle.grammar.specs.code.Gives.{Gives};
ghost use Rattle.ir_values.specs.declared.ty.Ty.TheVariants as ty;
ghost use Rattle.ir_tokens.specs.Tokens.{tokens};
ghost use Rattle.ir_tokens.specs.declared.kind.Kind.TheVariants as kind;
ghost use Rattle.ir_grammar.specs.Forms.{one, ◌◂◌};
ghost use Rattle.ir_grammar.specs.Types as spec;
ghost use Rattle.ir_grammar.specs.code.DecidedTypes.{type_firsts};

use crate::Stop;
use grammar::{Cursor, SideRule};
use ir_grammar::TypeSyntax;
use ir_tokens::{Kind, Rule, Token};
use ir_values::{Memory, Seq, Sig, Ty, Tys, Width};
use std::alloc::Global;

// Integer types.

/// The width of the integer type that is this word; 64 for other words.
fn width_of(kind: Kind) -> Width
    ensures { result ≡ spec.width_of kind }
{
    match kind {
        Kind::I1 => Width::W1,
        Kind::I8 => Width::W8,
        Kind::I16 => Width::W16,
        Kind::I32 => Width::W32,
        _ => Width::W64,
    }
}

/// The width of an integer type.
#[tactic(auto, unfolding(ir_grammar::specs::Types::integer_type))]
pub fn integer_type<'a>(cursor: &mut Cursor<'a, Token>) -> Result<Width, Stop<'a>>
    ensures { Gives spec.integer_type cursor.old cursor.new result }
{
    cursor.marked = true;
    let word = cursor.take_one_of(&[Kind::I1, Kind::I8, Kind::I16, Kind::I32, Kind::I64])?;
    Ok(width_of(word.kind))
}

// Types other than function pointers.

/// The type that is this word.
fn word_type(kind: Kind) -> Ty
    ensures { result ≡ spec.word_type kind }
{
    match kind {
        Kind::DoubleType => Ty::Double,
        _ => Ty::Int(width_of(kind)),
    }
}

/// A type that is no function pointer, with its first token.
fn typed(ty: Ty, first: Token) -> TypeSyntax
    ensures { result ≡ spec.typed ty first }
{
    TypeSyntax {
        first,
        ty,
        nesting: 0,
    }
}

/// Whether a type that is one word, other than `i8` and `void`, comes next.
fn plain_comes(cursor: &Cursor<'_, Token>) -> bool
    ensures { result ≡ begins_with tokens (kind.I1 ∷ kind.I16 ∷ kind.I32 ∷ kind.I64 ∷ kind.DoubleType ∷ []) cursor.now.rest.now }
{
    cursor.next_is_one_of(&[Kind::I1, Kind::I16, Kind::I32, Kind::I64, Kind::DoubleType])
}

/// A type that is one word, other than `i8` and `void`.
#[tactic(auto, unfolding(ir_grammar::specs::Types::plain_type))]
fn plain_type<'a>(cursor: &mut Cursor<'a, Token>) -> Result<TypeSyntax, Stop<'a>>
    ensures { Gives spec.plain_type cursor.old cursor.new result }
{
    let first = cursor.take_one_of(&[Kind::I1, Kind::I16, Kind::I32, Kind::I64, Kind::DoubleType])?;
    Ok(typed(word_type(first.kind), first))
}

/// `i8` or `i8*`.
#[tactic(auto, unfolding(ir_grammar::specs::Types::byte_type))]
fn byte_type<'a>(cursor: &mut Cursor<'a, Token>) -> Result<TypeSyntax, Stop<'a>>
    ensures { Gives spec.byte_type cursor.old cursor.new result }
{
    let first = cursor.take(Kind::I8)?;
    if !cursor.next_is(Kind::Star) {
        return Ok(typed(Ty::Int(Width::W8), first));
    }
    cursor.take(Kind::Star)?;
    Ok(typed(Ty::Text, first))
}

/// `%Qubit*` or `%Result*`.
fn handle_type<'a>(
    name: Kind,
    ty: Ty,
    cursor: &mut Cursor<'a, Token>,
) -> Result<TypeSyntax, Stop<'a>>
    ensures { Gives (as_tree (spec.typed ty) (one name ◂ kind.Star)) cursor.old cursor.new result }
{
    let first = cursor.take(name)?;
    cursor.take(Kind::Star)?;
    Ok(typed(ty, first))
}

/// `void`.
#[tactic(auto, unfolding(ir_grammar::specs::Types::void_type))]
fn void_type<'a>(cursor: &mut Cursor<'a, Token>) -> Result<TypeSyntax, Stop<'a>>
    ensures { Gives spec.void_type cursor.old cursor.new result }
{
    let first = cursor.take(Kind::Void)?;
    Ok(typed(Ty::Void, first))
}

/// A type that is no function pointer, and not `void`.
#[tactic(auto, unfolding(ir_grammar::specs::Types::base_type, ir_grammar::specs::Types::plain_type, ir_grammar::specs::Types::byte_type, ir_grammar::specs::Types::qubit_type, ir_grammar::specs::Types::result_type))]
fn base_type<'a>(cursor: &mut Cursor<'a, Token>) -> Result<TypeSyntax, Stop<'a>>
    ensures { Gives spec.base_type cursor.old cursor.new result }
{
    if plain_comes(cursor) {
        plain_type(cursor)
    } else if cursor.next_is(Kind::I8) {
        byte_type(cursor)
    } else if cursor.next_is(Kind::QubitName) {
        handle_type(Kind::QubitName, Ty::Qubit, cursor)
    } else {
        handle_type(Kind::ResultName, Ty::Res, cursor)
    }
}

/// Whether a type that is no function pointer, and not `void`, begins here.
#[tactic(auto, unfolding(ir_grammar::specs::Types::base_type, ir_grammar::specs::Types::plain_type, ir_grammar::specs::Types::byte_type, ir_grammar::specs::Types::qubit_type, ir_grammar::specs::Types::result_type))]
fn base_comes(cursor: &Cursor<'_, Token>) -> bool
    ensures { result ≡ begins_with tokens (firsts spec.base_type) cursor.now.rest.now }
{
    cursor.next_is_one_of(&[
        Kind::I1,
        Kind::I16,
        Kind::I32,
        Kind::I64,
        Kind::DoubleType,
        Kind::I8,
        Kind::QubitName,
        Kind::ResultName,
    ])
}

/// Whether a type begins here.
pub fn type_comes(cursor: &Cursor<'_, Token>) -> bool
    ensures { result ≡ begins_with tokens type_firsts cursor.now.rest.now }
{
    cursor.next_is_one_of(&[
        Kind::I1,
        Kind::I16,
        Kind::I32,
        Kind::I64,
        Kind::DoubleType,
        Kind::I8,
        Kind::QubitName,
        Kind::ResultName,
        Kind::Void,
    ])
}

// Function pointer types.

/// `(` stands behind a type of this nesting, where so many may still be open.
#[derive(Drop)]
struct Shallow {
    left: u64,
    nesting: u64,
}

impl SideRule<Token> for Shallow {
    ghost broken = { λ s. spec.shallow s.left s.nesting };

    fn broken_by(&self, _token: &Token) -> Option<Rule> {
        if self.nesting < self.left {
            None
        } else {
            Some(Rule::TooDeep)
        }
    }
}

/// The greatest nesting among these types, at least `least`.
fn deepest(least: u64, mut params: &[TypeSyntax]) -> u64
    ensures { result ≡ spec.deepest least params.entry.now }
{
    let mut deepest = least;
    while let [param, rest @ ..] = params {
        if deepest < param.nesting {
            deepest = param.nesting;
        }
        params = rest;
    }
    deepest
}

/// The types alone.
fn types_of(alloc: Global, params: Seq<TypeSyntax>) -> Result<Tys, Memory>
    ensures { IfOk result (λ tys. tys ≡ map (λ p. p.ty) params) }
{
    let mut types = Tys::new(alloc);
    for param in params.into_vec() {
        types.push(param.ty)?;
    }
    Ok(types)
}

/// The type of pointers to functions that give the one and take the others. A nesting of 2^64, or as many as 2^32 types to
/// take, are a want of memory; no text is long enough for either.
fn function_pointer(
    alloc: Global,
    gives: TypeSyntax,
    params: Seq<TypeSyntax>,
) -> Result<TypeSyntax, Memory>
    ensures { IfOk result (λ x. x ≡ spec.function_pointer gives params) }
{
    let Some(nesting) = deepest(gives.nesting, params.as_slice()).checked_add(1) else {
        return Err(Memory);
    };
    let types = types_of(alloc, params)?;
    if types.len() > u32::MAX as usize {
        return Err(Memory);
    }
    let sig = Sig::new(alloc, &gives.ty, &types)?;
    Ok(TypeSyntax {
        first: gives.first,
        ty: Ty::Func(sig),
        nesting,
    })
}

/// What a function pointer type has behind the type that it gives, where no `(` may be open any more.
#[tactic(auto, unfolding(ir_grammar::specs::Types::suffix_at))]
fn no_suffix<'a>(gives: TypeSyntax, cursor: &mut Cursor<'a, Token>) -> Result<TypeSyntax, Stop<'a>>
    ensures { Gives (spec.suffix_at 0 gives) cursor.old cursor.new result }
{
    let _ = gives;
    Err(cursor.refuse(Kind::Open, Rule::TooDeep))
}

/// What a function pointer type has behind the type that it gives.
#[cycle(types)]
fn suffix<'a>(
    alloc: Global,
    left: u64,
    gives: TypeSyntax,
    cursor: &mut Cursor<'a, Token>,
) -> Result<TypeSyntax, Stop<'a>>
    requires { left ≤ 64 }
    ensures { Gives (spec.suffix_at left gives) cursor.old cursor.new result }
{
    if left == 0 {
        return no_suffix(gives, cursor);
    }
    members(alloc, left - 1, gives, cursor)
}

/// The types that a function takes, in parentheses, and `*`.
#[cycle(types)]
fn members<'a>(
    alloc: Global,
    inner: u64,
    gives: TypeSyntax,
    cursor: &mut Cursor<'a, Token>,
) -> Result<TypeSyntax, Stop<'a>>
    requires { inner < 64 }
    ensures { Gives (spec.suffix_of (spec.value_type_at inner) (inner + 1) gives) cursor.old cursor.new result }
{
    let shallow = Shallow {
        left: inner + 1,
        nesting: gives.nesting,
    };
    cursor.take_ruled(&[Kind::Open], &shallow)?;
    let params = types_at(alloc, inner, cursor)?;
    cursor.take(Kind::Close)?;
    cursor.take(Kind::Star)?;
    Ok(function_pointer(alloc, gives, params)?)
}

/// Types between commas, or none. They contain one another, so the loop stands here.
#[cycle(types)]
fn types_at<'a>(
    alloc: Global,
    left: u64,
    cursor: &mut Cursor<'a, Token>,
) -> Result<Seq<TypeSyntax>, Stop<'a>>
    requires { left ≤ 64 }
    ensures { Gives (listed (kind.Comma ∷ []) (spec.value_type_at left)) cursor.old cursor.new result }
{
    if !type_comes(cursor) {
        cursor.skip(true);
        return Ok(Seq::new(alloc));
    }
    let first = value_type_at(alloc, left, cursor)?;
    let mut types = Seq::new(alloc);
    types.push(first)?;
    types_after(alloc, left, cursor, types)
}

/// A comma and a type any number of times, added to the types that stand before.
#[cycle(types)]
fn types_after<'a>(
    alloc: Global,
    left: u64,
    cursor: &mut Cursor<'a, Token>,
    types: Seq<TypeSyntax>,
) -> Result<Seq<TypeSyntax>, Stop<'a>>
    requires { left ≤ 64 }
    ensures { Gives (as_tree (λ more. types ++ more) (rep (preceded (kind.Comma ∷ []) (spec.value_type_at left)))) cursor.old cursor.new result }
{
    let mut all = types;
    while cursor.next_is(Kind::Comma) {
        let ty = comma_type(alloc, left, cursor)?;
        all.push(ty)?;
    }
    Ok(all)
}

/// A comma and a type.
#[cycle(types)]
#[tactic(auto, unfolding(grammar::specs::Grammar::preceded))]
fn comma_type<'a>(
    alloc: Global,
    left: u64,
    cursor: &mut Cursor<'a, Token>,
) -> Result<TypeSyntax, Stop<'a>>
    requires { left ≤ 64 }
    ensures { Gives (preceded (kind.Comma ∷ []) (spec.value_type_at left)) cursor.old cursor.new result }
{
    cursor.take(Kind::Comma)?;
    value_type_at(alloc, left, cursor)
}

/// A type other than `void`, where so many `(` may still be open.
#[cycle(types)]
#[tactic(auto, unfolding(ir_grammar::specs::Types::value_type_at))]
fn value_type_at<'a>(
    alloc: Global,
    left: u64,
    cursor: &mut Cursor<'a, Token>,
) -> Result<TypeSyntax, Stop<'a>>
    requires { left ≤ 64 }
    ensures { Gives (spec.value_type_at left) cursor.old cursor.new result }
{
    cursor.marked = true;
    let gives = value_base(alloc, left, cursor)?;
    suffixes(alloc, left, gives, cursor)
}

/// A type that is no function pointer, or a function pointer of functions that give nothing.
#[cycle(types)]
#[tactic(auto, unfolding(ir_grammar::specs::Types::base_type, ir_grammar::specs::Types::plain_type, ir_grammar::specs::Types::byte_type, ir_grammar::specs::Types::qubit_type, ir_grammar::specs::Types::result_type))]
fn value_base<'a>(
    alloc: Global,
    left: u64,
    cursor: &mut Cursor<'a, Token>,
) -> Result<TypeSyntax, Stop<'a>>
    requires { left ≤ 64 }
    ensures { Gives (alt spec.base_type (as_tree second (dep spec.void_type [] (spec.suffix_at left)))) cursor.old cursor.new result }
{
    if base_comes(cursor) {
        return base_type(cursor);
    }
    let void = void_type(cursor)?;
    suffix(alloc, left, void, cursor)
}

/// Any number of function pointer types, each of functions that give the one before.
#[cycle(types)]
fn suffixes<'a>(
    alloc: Global,
    left: u64,
    start: TypeSyntax,
    cursor: &mut Cursor<'a, Token>,
) -> Result<TypeSyntax, Stop<'a>>
    requires { left ≤ 64 }
    ensures { Gives (grow start spec.type_kinds (spec.suffix_at left)) cursor.old cursor.new result }
{
    let mut ty = start;
    while cursor.next_is(Kind::Open) {
        ty = suffix(alloc, left, ty, cursor)?;
    }
    Ok(ty)
}

/// A type other than `void`.
pub fn value_type<'a>(alloc: Global, cursor: &mut Cursor<'a, Token>) -> Result<TypeSyntax, Stop<'a>>
    ensures { Gives spec.value_type cursor.old cursor.new result }
{
    value_type_at(alloc, 64, cursor)
}

/// A type, or `void`.
#[tactic(auto, unfolding(ir_grammar::specs::Types::return_type, ir_grammar::specs::Types::base_type, ir_grammar::specs::Types::plain_type, ir_grammar::specs::Types::byte_type, ir_grammar::specs::Types::qubit_type, ir_grammar::specs::Types::result_type))]
pub fn return_type<'a>(
    alloc: Global,
    cursor: &mut Cursor<'a, Token>,
) -> Result<TypeSyntax, Stop<'a>>
    ensures { Gives spec.return_type cursor.old cursor.new result }
{
    cursor.marked = true;
    let gives = if base_comes(cursor) {
        base_type(cursor)?
    } else {
        void_type(cursor)?
    };
    suffixes(alloc, 64, gives, cursor)
}
