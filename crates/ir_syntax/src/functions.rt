//! Reading declarations and definitions.
ghost use Rattle.std.specs.Prelude.{◌≡◌, true, [], ◌∷◌};
ghost use Rattle.grammar.specs.Grammar.{opt};
ghost use Rattle.grammar.specs.code.Gives.{Gives};
ghost use Rattle.ir_tokens.specs.code.Kinds.{code};
ghost use Rattle.ir_tokens.specs.declared.kind.Kind.TheVariants as kind;
ghost use Rattle.ir_grammar.specs.Words as words;
ghost use Rattle.ir_grammar.specs.Functions as spec;
ghost use Rattle.ir_grammar.specs.code.DecidedTypes.{type_firsts};
ghost use Rattle.ir_grammar.specs.code.DecidedItems.{declared_param_starts, param_starts};

use grammar::{Cursor, Listed, Part, separated};
use ir_code::{
    Stop, blocks, global, groups, local, local_comes, return_type, type_comes, worded_type,
};
use ir_grammar::{FunctionSyntax, ParamSyntax, TypeSyntax};
use ir_tokens::{Kind, Rule, Token};
use ir_values::Seq;
use std::alloc::Global;

/// The words before a function, the type that it gives, and its name.
#[tactic(auto, unfolding(ir_grammar::specs::Functions::head))]
fn head<'a>(alloc: Global, cursor: &mut Cursor<'a, Token>) -> Result<(TypeSyntax, Token), Stop<'a>>
    ensures { Gives spec.head cursor.old cursor.new result }
{
    cursor.ignore(&[Kind::Internal, Kind::Private, Kind::DsoLocal])?;
    let gives = return_type(alloc, cursor)?;
    Ok((gives, global(cursor)?))
}

/// The words behind the parameters of a function, and the names of its groups, which are answered.
#[tactic(auto, unfolding(ir_grammar::specs::Functions::tail))]
fn tail<'a>(alloc: Global, cursor: &mut Cursor<'a, Token>) -> Result<Seq<Token>, Stop<'a>>
    ensures { Gives spec.tail cursor.old cursor.new result }
{
    cursor.ignore(&[Kind::UnnamedAddr, Kind::LocalUnnamedAddr])?;
    groups(alloc, cursor)
}

/// The name of a parameter, if it has one.
#[tactic(auto, unfolding(ir_grammar::specs::Words::local))]
fn maybe_local<'a>(cursor: &mut Cursor<'a, Token>) -> Result<Option<Token>, Stop<'a>>
    ensures { Gives (opt words.local) cursor.old cursor.new result }
{
    if !local_comes(cursor) {
        return Ok(None);
    }
    Ok(Some(local(cursor)?))
}

/// The parameters of a declaration, which have no names.
struct DeclaredParams;

impl Part for DeclaredParams {
    type Token = Token;

    type Kind = Kind;

    type Rule = Rule;

    type Item = ParamSyntax;

    ghost kind = { λ t. t.kind };

    ghost code = { code };

    ghost grammar = { λ _. spec.declared_param };

    ghost kinds = { λ _. type_firsts };

    ghost mark = { true };

    ghost starts = { λ _. declared_param_starts };

    fn begins(&self, cursor: &Cursor<'_, Token>) -> bool {
        type_comes(cursor)
    }

    fn marked(&self) -> bool {
        true
    }

    #[tactic(auto, unfolding(ir_grammar::specs::Functions::declared_param))]
    fn read<'a>(
        &self,
        alloc: Global,
        cursor: &mut Cursor<'a, Token>,
    ) -> Result<ParamSyntax, Stop<'a>> {
        let TypeSyntax { first, ty, .. } = worded_type(alloc, cursor)?;
        Ok(ParamSyntax {
            first,
            ty,
            name: None,
        })
    }
}

impl Listed for DeclaredParams {
    ghost separator = { kind.Comma };

    fn separates(&self, cursor: &Cursor<'_, Token>) -> bool {
        cursor.next_is(Kind::Comma)
    }
}

/// The parameters of a definition, which may have names.
struct DefinedParams;

impl Part for DefinedParams {
    type Token = Token;

    type Kind = Kind;

    type Rule = Rule;

    type Item = ParamSyntax;

    ghost kind = { λ t. t.kind };

    ghost code = { code };

    ghost grammar = { λ _. spec.param };

    ghost kinds = { λ _. type_firsts };

    ghost mark = { true };

    ghost starts = { λ _. param_starts };

    fn begins(&self, cursor: &Cursor<'_, Token>) -> bool {
        type_comes(cursor)
    }

    fn marked(&self) -> bool {
        true
    }

    #[tactic(auto, unfolding(ir_grammar::specs::Functions::param))]
    fn read<'a>(
        &self,
        alloc: Global,
        cursor: &mut Cursor<'a, Token>,
    ) -> Result<ParamSyntax, Stop<'a>> {
        let TypeSyntax { first, ty, .. } = worded_type(alloc, cursor)?;
        let name = maybe_local(cursor)?;
        Ok(ParamSyntax { first, ty, name })
    }
}

impl Listed for DefinedParams {
    ghost separator = { kind.Comma };

    fn separates(&self, cursor: &Cursor<'_, Token>) -> bool {
        cursor.next_is(Kind::Comma)
    }
}

/// The parameters of a declaration, with their parentheses.
#[tactic(auto, unfolding(ir_grammar::specs::Functions::params_of))]
fn declared_params<'a>(
    alloc: Global,
    cursor: &mut Cursor<'a, Token>,
) -> Result<Seq<ParamSyntax>, Stop<'a>>
    ensures { Gives (spec.params_of spec.declared_param) cursor.old cursor.new result }
{
    cursor.take(Kind::Open)?;
    let params = separated(alloc, &DeclaredParams, cursor)?;
    cursor.take(Kind::Close)?;
    Ok(params)
}

/// The parameters of a definition, with their parentheses.
#[tactic(auto, unfolding(ir_grammar::specs::Functions::params_of))]
fn defined_params<'a>(
    alloc: Global,
    cursor: &mut Cursor<'a, Token>,
) -> Result<Seq<ParamSyntax>, Stop<'a>>
    ensures { Gives (spec.params_of spec.param) cursor.old cursor.new result }
{
    cursor.take(Kind::Open)?;
    let params = separated(alloc, &DefinedParams, cursor)?;
    cursor.take(Kind::Close)?;
    Ok(params)
}

/// A declaration.
#[tactic(auto, unfolding(ir_grammar::specs::Functions::declaration))]
pub(crate) fn declaration<'a>(
    alloc: Global,
    cursor: &mut Cursor<'a, Token>,
) -> Result<FunctionSyntax, Stop<'a>>
    ensures { Gives spec.declaration cursor.old cursor.new result }
{
    cursor.take(Kind::Declare)?;
    let (gives, name) = head(alloc, cursor)?;
    let params = declared_params(alloc, cursor)?;
    let groups = tail(alloc, cursor)?;
    Ok(FunctionSyntax {
        name,
        ret: gives.ty,
        params,
        groups,
        blocks: None,
    })
}

/// A definition.
#[tactic(auto, unfolding(ir_grammar::specs::Functions::definition))]
pub(crate) fn definition<'a>(
    alloc: Global,
    cursor: &mut Cursor<'a, Token>,
) -> Result<FunctionSyntax, Stop<'a>>
    ensures { Gives spec.definition cursor.old cursor.new result }
{
    cursor.take(Kind::Define)?;
    let (gives, name) = head(alloc, cursor)?;
    let params = defined_params(alloc, cursor)?;
    let groups = tail(alloc, cursor)?;
    let blocks = blocks(alloc, cursor)?;
    Ok(FunctionSyntax {
        name,
        ret: gives.ty,
        params,
        groups,
        blocks: Some(blocks),
    })
}
