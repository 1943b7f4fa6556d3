//! Reading nodes and lists of nodes.
ghost use Rattle.std.specs.Prelude.{◌≡◌, false, [], ◌∷◌, ◌++◌};
ghost use Rattle.grammar.specs.Grammar.{begins_with, alt, as_tree};
ghost use Rattle.grammar.specs.code.Gives.{Gives};
ghost use Rattle.ir_tokens.specs.Tokens.{tokens};
ghost use Rattle.ir_tokens.specs.code.Kinds.{code};
ghost use Rattle.ir_tokens.specs.declared.kind.Kind.TheVariants as kind;
ghost use Rattle.ir_grammar.specs.declared.tree.ElemSyntax.TheVariants as elem_tree;
ghost use Rattle.ir_grammar.specs.Forms.{one, one_of};
ghost use Rattle.ir_grammar.specs.Words as words;
ghost use Rattle.ir_grammar.specs.Metadata as spec;
ghost use Rattle.ir_grammar.specs.code.DecidedItems.{integer_part_firsts, part_starts, elem_starts, node_starts};

use grammar::{Cursor, Listed, Part, separated};
use ir_code::{InRange, Stop, is_negative, node};
use ir_grammar::{ElemSyntax, ItemSyntax, PartSyntax};
use ir_tokens::{Kind, Rule, Token};
use ir_values::Seq;
use std::alloc::Global;

// Integers and strings.

/// An integer of a width from 1 to 128.
#[tactic(auto, unfolding(ir_grammar::specs::Metadata::in_width))]
fn in_width<'a>(width: u128, cursor: &mut Cursor<'a, Token>) -> Result<PartSyntax, Stop<'a>>
    ensures { Gives (spec.in_width width) cursor.old cursor.new result }
{
    let token = cursor.take_ruled(&[Kind::Nat, Kind::Minus], &InRange { width })?;
    let negative = is_negative(token.kind);
    Ok(PartSyntax::Integer(width, negative, token.number.value()))
}

/// `true` or `false` as an integer; the latter for all other words.
fn bit_of(kind: Kind) -> PartSyntax
    ensures { result ≡ spec.bit_of kind }
{
    match kind {
        Kind::True => PartSyntax::Integer(1, false, 1),
        _ => PartSyntax::Integer(1, false, 0),
    }
}

/// An integer of width 1, where the width is written `i1`.
#[tactic(auto, unfolding(ir_grammar::specs::Metadata::bit_part, ir_grammar::specs::Metadata::in_width))]
fn bit_part<'a>(cursor: &mut Cursor<'a, Token>) -> Result<PartSyntax, Stop<'a>>
    ensures { Gives spec.bit_part cursor.old cursor.new result }
{
    cursor.take(Kind::I1)?;
    if cursor.next_is_one_of(&[Kind::Nat, Kind::Minus]) {
        return in_width(1, cursor);
    }
    let word = cursor.take_one_of(&[Kind::True, Kind::False])?;
    Ok(bit_of(word.kind))
}

/// A width that isn't written `i1`.
fn width<'a>(cursor: &mut Cursor<'a, Token>) -> Result<Token, Stop<'a>>
    ensures { Gives (one_of spec.width_kinds) cursor.old cursor.new result }
{
    cursor.take_one_of(&[
        Kind::I8,
        Kind::I16,
        Kind::I32,
        Kind::I64,
        Kind::SameWidth,
        Kind::OddWidth,
    ])
}

/// An integer, where the width isn't written `i1`.
#[tactic(auto, unfolding(ir_grammar::specs::Metadata::width_part))]
fn width_part<'a>(cursor: &mut Cursor<'a, Token>) -> Result<PartSyntax, Stop<'a>>
    ensures { Gives spec.width_part cursor.old cursor.new result }
{
    let word = width(cursor)?;
    in_width(word.number.value(), cursor)
}

/// An integer with its width.
#[tactic(auto, unfolding(ir_grammar::specs::Metadata::integer_part, ir_grammar::specs::Metadata::bit_part))]
fn integer_part<'a>(cursor: &mut Cursor<'a, Token>) -> Result<PartSyntax, Stop<'a>>
    ensures { Gives spec.integer_part cursor.old cursor.new result }
{
    if cursor.next_is(Kind::I1) {
        return bit_part(cursor);
    }
    width_part(cursor)
}

/// Whether an integer with its width comes next.
fn integer_comes(cursor: &Cursor<'_, Token>) -> bool
    ensures { result ≡ begins_with tokens integer_part_firsts cursor.now.rest.now }
{
    cursor.next_is_one_of(&[
        Kind::I1,
        Kind::I8,
        Kind::I16,
        Kind::I32,
        Kind::I64,
        Kind::SameWidth,
        Kind::OddWidth,
    ])
}

/// The integers and strings of a node that is written in place.
struct NodeParts;

impl Part for NodeParts {
    type Token = Token;

    type Kind = Kind;

    type Rule = Rule;

    type Item = PartSyntax;

    ghost kind = { λ t. t.kind };

    ghost code = { code };

    ghost grammar = { λ _. spec.part };

    ghost kinds = { λ _. integer_part_firsts ++ kind.Bang ∷ [] };

    ghost mark = { false };

    ghost starts = { λ _. part_starts };

    fn begins(&self, cursor: &Cursor<'_, Token>) -> bool {
        cursor.next_is_one_of(&[
            Kind::I1,
            Kind::I8,
            Kind::I16,
            Kind::I32,
            Kind::I64,
            Kind::SameWidth,
            Kind::OddWidth,
            Kind::Bang,
        ])
    }

    fn marked(&self) -> bool {
        false
    }

    #[tactic(auto, unfolding(ir_grammar::specs::Metadata::part, ir_grammar::specs::Metadata::integer_part, ir_grammar::specs::Metadata::bit_part, ir_grammar::specs::Metadata::width_part))]
    fn read<'a>(
        &self,
        alloc: Global,
        cursor: &mut Cursor<'a, Token>,
    ) -> Result<PartSyntax, Stop<'a>> {
        let _ = alloc;
        if integer_comes(cursor) {
            return integer_part(cursor);
        }
        cursor.take(Kind::Bang)?;
        Ok(PartSyntax::Text(cursor.take(Kind::Str)?))
    }
}

impl Listed for NodeParts {
    ghost separator = { kind.Comma };

    fn separates(&self, cursor: &Cursor<'_, Token>) -> bool {
        cursor.next_is(Kind::Comma)
    }
}

/// Integers and strings, with their braces.
#[tactic(auto, unfolding(ir_grammar::specs::Metadata::parts))]
fn parts<'a>(alloc: Global, cursor: &mut Cursor<'a, Token>) -> Result<Seq<PartSyntax>, Stop<'a>>
    ensures { Gives spec.parts cursor.old cursor.new result }
{
    cursor.take(Kind::OpenBrace)?;
    let parts = separated(alloc, &NodeParts, cursor)?;
    cursor.take(Kind::CloseBrace)?;
    Ok(parts)
}

// Elements of nodes.

/// An element that begins with `!`: a string, or a node that is written in place.
#[tactic(auto, unfolding(ir_grammar::specs::Metadata::bang_elem))]
fn bang_elem<'a>(alloc: Global, cursor: &mut Cursor<'a, Token>) -> Result<ElemSyntax, Stop<'a>>
    ensures { Gives spec.bang_elem cursor.old cursor.new result }
{
    cursor.take(Kind::Bang)?;
    if cursor.next_is(Kind::Str) {
        let text = cursor.take(Kind::Str)?;
        return Ok(ElemSyntax::Part(PartSyntax::Text(text)));
    }
    Ok(ElemSyntax::Parts(parts(alloc, cursor)?))
}

/// An integer as an element.
fn integer_elem<'a>(cursor: &mut Cursor<'a, Token>) -> Result<ElemSyntax, Stop<'a>>
    ensures { Gives (as_tree elem_tree.Part spec.integer_part) cursor.old cursor.new result }
{
    Ok(ElemSyntax::Part(integer_part(cursor)?))
}

/// An element that is no integer.
#[tactic(auto, unfolding(ir_grammar::specs::Words::node))]
fn other_elem<'a>(alloc: Global, cursor: &mut Cursor<'a, Token>) -> Result<ElemSyntax, Stop<'a>>
    ensures { Gives (alt (as_tree elem_tree.Node words.node) (alt (as_tree (λ t. elem_tree.Null) (one kind.Null)) spec.bang_elem)) cursor.old cursor.new result }
{
    if cursor.next_is(Kind::Node) {
        return Ok(ElemSyntax::Node(node(cursor)?));
    }
    if cursor.next_is(Kind::Null) {
        cursor.take(Kind::Null)?;
        return Ok(ElemSyntax::Null);
    }
    bang_elem(alloc, cursor)
}

/// The elements of a node.
struct Elements;

impl Part for Elements {
    type Token = Token;

    type Kind = Kind;

    type Rule = Rule;

    type Item = ElemSyntax;

    ghost kind = { λ t. t.kind };

    ghost code = { code };

    ghost grammar = { λ _. spec.elem };

    ghost kinds = { λ _. integer_part_firsts ++ kind.Node ∷ kind.Null ∷ kind.Bang ∷ [] };

    ghost mark = { false };

    ghost starts = { λ _. elem_starts };

    fn begins(&self, cursor: &Cursor<'_, Token>) -> bool {
        cursor.next_is_one_of(&[
            Kind::I1,
            Kind::I8,
            Kind::I16,
            Kind::I32,
            Kind::I64,
            Kind::SameWidth,
            Kind::OddWidth,
            Kind::Node,
            Kind::Null,
            Kind::Bang,
        ])
    }

    fn marked(&self) -> bool {
        false
    }

    #[tactic(auto, unfolding(ir_grammar::specs::Metadata::elem))]
    fn read<'a>(
        &self,
        alloc: Global,
        cursor: &mut Cursor<'a, Token>,
    ) -> Result<ElemSyntax, Stop<'a>> {
        if integer_comes(cursor) {
            integer_elem(cursor)
        } else {
            other_elem(alloc, cursor)
        }
    }
}

impl Listed for Elements {
    ghost separator = { kind.Comma };

    fn separates(&self, cursor: &Cursor<'_, Token>) -> bool {
        cursor.next_is(Kind::Comma)
    }
}

// Lines.

/// The names of nodes.
struct NodeNames;

impl Part for NodeNames {
    type Token = Token;

    type Kind = Kind;

    type Rule = Rule;

    type Item = Token;

    ghost kind = { λ t. t.kind };

    ghost code = { code };

    ghost grammar = { λ _. words.node };

    ghost kinds = { λ _. kind.Node ∷ [] };

    ghost mark = { false };

    ghost starts = { λ _. node_starts };

    fn begins(&self, cursor: &Cursor<'_, Token>) -> bool {
        cursor.next_is(Kind::Node)
    }

    fn marked(&self) -> bool {
        false
    }

    fn read<'a>(&self, alloc: Global, cursor: &mut Cursor<'a, Token>) -> Result<Token, Stop<'a>> {
        let _ = alloc;
        node(cursor)
    }
}

impl Listed for NodeNames {
    ghost separator = { kind.Comma };

    fn separates(&self, cursor: &Cursor<'_, Token>) -> bool {
        cursor.next_is(Kind::Comma)
    }
}

/// The names of nodes, with `!` and their braces.
#[tactic(auto, unfolding(ir_grammar::specs::Metadata::nodes))]
fn nodes<'a>(alloc: Global, cursor: &mut Cursor<'a, Token>) -> Result<Seq<Token>, Stop<'a>>
    ensures { Gives spec.nodes cursor.old cursor.new result }
{
    cursor.take(Kind::Bang)?;
    cursor.take(Kind::OpenBrace)?;
    let nodes = separated(alloc, &NodeNames, cursor)?;
    cursor.take(Kind::CloseBrace)?;
    Ok(nodes)
}

/// The elements of a node, with `!` and their braces.
#[tactic(auto, unfolding(ir_grammar::specs::Metadata::elems))]
fn elems<'a>(alloc: Global, cursor: &mut Cursor<'a, Token>) -> Result<Seq<ElemSyntax>, Stop<'a>>
    ensures { Gives spec.elems cursor.old cursor.new result }
{
    cursor.take(Kind::Bang)?;
    cursor.take(Kind::OpenBrace)?;
    let elems = separated(alloc, &Elements, cursor)?;
    cursor.take(Kind::CloseBrace)?;
    Ok(elems)
}

/// A list of nodes with its name.
#[tactic(auto, unfolding(ir_grammar::specs::Metadata::list_line))]
pub(crate) fn list_line<'a>(
    alloc: Global,
    cursor: &mut Cursor<'a, Token>,
) -> Result<ItemSyntax, Stop<'a>>
    ensures { Gives spec.list_line cursor.old cursor.new result }
{
    let name = cursor.take(Kind::MetaName)?;
    cursor.take(Kind::Equals)?;
    Ok(ItemSyntax::List(name, nodes(alloc, cursor)?))
}

/// A node with its number.
#[tactic(auto, unfolding(ir_grammar::specs::Metadata::node_line))]
pub(crate) fn node_line<'a>(
    alloc: Global,
    cursor: &mut Cursor<'a, Token>,
) -> Result<ItemSyntax, Stop<'a>>
    ensures { Gives spec.node_line cursor.old cursor.new result }
{
    let name = node(cursor)?;
    cursor.take(Kind::Equals)?;
    Ok(ItemSyntax::Node(name, elems(alloc, cursor)?))
}
