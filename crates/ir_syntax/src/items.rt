//! Reading the items of a module text.
ghost use Rattle.std.specs.Prelude.{◌≡◌, false, List, [], ◌∷◌, ◌++◌};
ghost use Rattle.grammar.specs.Grammar.{alt};
ghost use Rattle.grammar.specs.Answers.{Answers};
ghost use Rattle.grammar.specs.code.Gives.{Gives};
ghost use Rattle.ir_tokens.specs.code.Kinds.{code};
ghost use Rattle.ir_tokens.specs.declared.kind.Kind.TheVariants as kind;
ghost use Rattle.ir_grammar.specs.Module as spec;
ghost use Rattle.ir_grammar.specs.code.DecidedItems.{item_firsts, item_starts, module_starts};

use crate::attributes::attribute_group;
use crate::constants::{constant_line, header, header_comes};
use crate::functions::{declaration, definition};
use crate::metadata::{list_line, node_line};
use grammar::{Cursor, Part, Refusal, read_all, repeat};
use ir_code::Stop;
use ir_grammar::ItemSyntax;
use ir_tokens::{Kind, Rule, Token};
use ir_values::Seq;
use std::alloc::Global;

/// A function.
#[tactic(auto, unfolding(ir_grammar::specs::Module::function, ir_grammar::specs::Functions::declaration))]
fn function<'a>(alloc: Global, cursor: &mut Cursor<'a, Token>) -> Result<ItemSyntax, Stop<'a>>
    ensures { Gives spec.function cursor.old cursor.new result }
{
    let function = if cursor.next_is(Kind::Declare) {
        declaration(alloc, cursor)?
    } else {
        definition(alloc, cursor)?
    };
    Ok(ItemSyntax::Function(function))
}

/// A group of attributes, a list of nodes or a node.
#[tactic(auto, unfolding(ir_grammar::specs::Module::metadata, ir_grammar::specs::Module::attribute_group, ir_grammar::specs::Metadata::list_line))]
fn metadata<'a>(alloc: Global, cursor: &mut Cursor<'a, Token>) -> Result<ItemSyntax, Stop<'a>>
    ensures { Gives spec.metadata cursor.old cursor.new result }
{
    if cursor.next_is(Kind::Attributes) {
        attribute_group(alloc, cursor)
    } else if cursor.next_is(Kind::MetaName) {
        list_line(alloc, cursor)
    } else {
        node_line(alloc, cursor)
    }
}

/// A function or metadata.
#[tactic(auto, unfolding(ir_grammar::specs::Module::function, ir_grammar::specs::Functions::declaration, ir_grammar::specs::Functions::definition))]
fn function_or_metadata<'a>(
    alloc: Global,
    cursor: &mut Cursor<'a, Token>,
) -> Result<ItemSyntax, Stop<'a>>
    ensures { Gives (alt spec.function spec.metadata) cursor.old cursor.new result }
{
    if cursor.next_is_one_of(&[Kind::Declare, Kind::Define]) {
        function(alloc, cursor)
    } else {
        metadata(alloc, cursor)
    }
}

/// An item that is no header and no type line.
#[tactic(auto, unfolding(ir_grammar::specs::Module::constant_line, ir_grammar::specs::Words::global))]
fn other_item<'a>(alloc: Global, cursor: &mut Cursor<'a, Token>) -> Result<ItemSyntax, Stop<'a>>
    ensures { Gives (alt spec.constant_line (alt spec.function spec.metadata)) cursor.old cursor.new result }
{
    if cursor.next_is(Kind::Global) {
        constant_line(cursor)
    } else {
        function_or_metadata(alloc, cursor)
    }
}

/// The items of a module text.
struct Items;

impl Part for Items {
    type Token = Token;

    type Kind = Kind;

    type Rule = Rule;

    type Item = ItemSyntax;

    ghost kind = { λ t. t.kind };

    ghost code = { code };

    ghost grammar = { λ _. spec.item };

    ghost kinds = { λ _. item_firsts };

    ghost mark = { false };

    ghost starts = { λ _. item_starts };

    fn begins(&self, cursor: &Cursor<'_, Token>) -> bool {
        cursor.next_is_one_of(&[
            Kind::SourceFilename,
            Kind::Target,
            Kind::Local,
            Kind::QubitName,
            Kind::ResultName,
            Kind::Global,
            Kind::Declare,
            Kind::Define,
            Kind::Attributes,
            Kind::MetaName,
            Kind::Node,
        ])
    }

    fn marked(&self) -> bool {
        false
    }

    #[tactic(auto, unfolding(ir_grammar::specs::Module::item))]
    fn read<'a>(
        &self,
        alloc: Global,
        cursor: &mut Cursor<'a, Token>,
    ) -> Result<ItemSyntax, Stop<'a>> {
        if header_comes(cursor) {
            header(cursor)
        } else {
            other_item(alloc, cursor)
        }
    }
}

/// A module text.
struct ModuleItems;

impl Part for ModuleItems {
    type Token = Token;

    type Kind = Kind;

    type Rule = Rule;

    type Item = Seq<ItemSyntax>;

    ghost kind = { λ t. t.kind };

    ghost code = { code };

    ghost grammar = { λ _. spec.module_text };

    ghost kinds = { λ _. item_firsts ++ kind.End ∷ [] };

    ghost mark = { false };

    ghost starts = { λ _. module_starts };

    fn begins(&self, cursor: &Cursor<'_, Token>) -> bool {
        Items.begins(cursor) || cursor.next_is(Kind::End)
    }

    fn marked(&self) -> bool {
        false
    }

    #[tactic(auto, unfolding(ir_grammar::specs::Module::module_text))]
    fn read<'a>(
        &self,
        alloc: Global,
        cursor: &mut Cursor<'a, Token>,
    ) -> Result<Seq<ItemSyntax>, Stop<'a>> {
        let items = repeat(alloc, &Items, cursor)?;
        cursor.take(Kind::End)?;
        Ok(items)
    }
}

/// The items that the tokens of a module text spell, or their first fault and how many tokens stand before it.
pub(crate) fn read_items(alloc: Global, tokens: &[Token]) -> Result<Seq<ItemSyntax>, Refusal<Rule>>
    ensures { Answers spec.module_text tokens.now result }
{
    read_all(alloc, &ModuleItems, tokens)
}
