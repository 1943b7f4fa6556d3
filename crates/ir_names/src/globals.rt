//! The names that hold in the whole text.
ghost use Rattle.std.specs.Prelude.{◌≡◌, ◌++◌, ◌∷◌, [], List, map, IfOk, OnOk};
ghost use Rattle.std.specs.List.{filter_map, cons_option};
ghost use Rattle.ir_values.specs.declared.name.Name.{Name};
ghost use Rattle.ir_names.specs.declared.numbers.Written.{Written};
ghost use Rattle.ir_names.specs.Items as item_spec;
ghost use Rattle.ir_names.specs.Metadata.{listed, flag_nodes};
ghost use Rattle.ir_names.specs.Module as spec;
ghost use Rattle.ir_tokens.specs.Spelled.{name_at, spelling_at, string_at};
ghost use Rattle.ir_names.specs.code.Held.{HoldsConstants, HoldsNodes};
ghost use Rattle.ir_names.specs.code.Names.{same_name, same_written};
ghost use Rattle.ir_names.specs.code.Tables as table_spec;

use crate::name::written;
use crate::numbers::{Numbers, Written};
use ir_grammar::ItemSyntax;
use ir_module::{Constant, Constants};
use ir_tokens::{Token, name_at, spelling, string_at};
use ir_values::{Copies, Memory, Name, Seq};
use std::alloc::Global;

/// The constants of a text in order, and the number of each name.
#[derive(Drop)]
pub struct Defined {
    pub table: Numbers<Name>,
    pub list: Constants,
}

/// The names that hold in the whole text. A group or a node has the place of its item.
#[derive(Drop)]
pub struct Globals {
    pub constants: Defined,
    pub functions: Numbers<Name>,
    pub groups: Numbers<Written>,
    pub nodes: Numbers<Written>,
    /// The nodes that are listed as flags.
    pub listed: Listed,
}

impl Defined {
    /// Adds a constant.
    fn define(&mut self, alloc: Global, constant: Constant) -> Result<(), Memory>
        requires { HoldsConstants self.old }
        ensures holds { OnOk result (HoldsConstants self.new) }
        ensures list { OnOk result (self.new.list ≡ self.old.list ++ constant ∷ []) }
    {
        self.table.add(constant.name.copy(alloc)?)?;
        self.list.push(constant)?;
        Ok(())
    }
}

impl Defined {
    /// Adds what an item defines.
    fn item(&mut self, alloc: Global, text: &[u8], item: &ItemSyntax) -> Result<(), Memory>
        requires { HoldsConstants self.old }
        ensures holds { OnOk result (HoldsConstants self.new) }
        ensures list { OnOk result (self.new.list ≡ self.old.list ++ cons_option (item_spec.constant_in (name_at text.now) (string_at text.now) item.now) []) }
    {
        match item {
            ItemSyntax::Constant(name, bytes) => {
                let name = name_at(alloc, text, *name)?;
                let bytes = string_at(alloc, text, *bytes)?;
                self.define(alloc, Constant { name, bytes })
            }
            _ => Ok(()),
        }
    }

    /// The constants of items.
    #[tactic(auto, using(crate::proofs::Lists::one_more))]
    fn of(alloc: Global, text: &[u8], mut items: &[ItemSyntax]) -> Result<Defined, Memory>
        ensures holds { IfOk result (λ d. HoldsConstants d) }
        ensures list { IfOk result (λ d. d.list ≡ spec.constants_of text.now items.entry.now) }
    {
        let mut defined = Defined {
            table: Numbers::new(alloc),
            list: Seq::new(alloc),
        };
        while let [item, rest @ ..] = items {
            defined.item(alloc, text, item)?;
            items = rest;
        }
        Ok(defined)
    }
}

/// The nodes that are listed as flags, and the number of each.
#[derive(Drop)]
pub struct Listed {
    pub table: Numbers<Written>,
    pub list: Seq<Token>,
}

impl Listed {
    /// Adds nodes.
    fn nodes(&mut self, mut nodes: &[Token]) -> Result<(), Memory>
        requires { HoldsNodes self.old }
        ensures holds { OnOk result (HoldsNodes self.new) }
        ensures list { OnOk result (self.new.list ≡ self.old.list ++ nodes.entry.now) }
    {
        while let [node, rest @ ..] = nodes {
            self.table.add(written(node))?;
            self.list.push(*node)?;
            nodes = rest;
        }
        Ok(())
    }

    /// Adds the nodes that an item lists as flags.
    fn item(&mut self, text: &[u8], item: &ItemSyntax) -> Result<(), Memory>
        requires { HoldsNodes self.old }
        ensures holds { OnOk result (HoldsNodes self.new) }
        ensures list { OnOk result (self.new.list ≡ self.old.list ++ flag_nodes (λ t. spelling_at text.now t.place) item.now) }
    {
        match item {
            ItemSyntax::List(name, nodes) => {
                if spelling(text, name.place) == b"!llvm.module.flags".as_slice() {
                    self.nodes(nodes.as_slice())
                } else {
                    Ok(())
                }
            }
            _ => Ok(()),
        }
    }

    /// The nodes that items list as flags.
    fn of(alloc: Global, text: &[u8], mut items: &[ItemSyntax]) -> Result<Listed, Memory>
        ensures holds { IfOk result (λ l. HoldsNodes l) }
        ensures list { IfOk result (λ l. l.list ≡ listed (λ t. spelling_at text.now t.place) items.entry.now) }
    {
        let mut listed = Listed {
            table: Numbers::new(alloc),
            list: Seq::new(alloc),
        };
        while let [item, rest @ ..] = items {
            listed.item(text, item)?;
            items = rest;
        }
        Ok(listed)
    }
}

/// The number of the group that an item is.
fn group_in(item: &ItemSyntax) -> Written
    ensures { result ≡ spec.group_in item.now }
{
    match item {
        ItemSyntax::Group(token, _) => written(token),
        _ => Written(None),
    }
}

/// The number of the node that an item is.
fn node_in(item: &ItemSyntax) -> Written
    ensures { result ≡ spec.node_in item.now }
{
    match item {
        ItemSyntax::Node(token, _) => written(token),
        _ => Written(None),
    }
}

fn groups(alloc: Global, mut items: &[ItemSyntax]) -> Result<Numbers<Written>, Memory>
    ensures { IfOk result (λ t. table_spec.Numbers same_written t (map spec.group_in items.entry.now)) }
{
    let mut table = Numbers::new(alloc);
    while let [item, rest @ ..] = items {
        table.add(group_in(item))?;
        items = rest;
    }
    Ok(table)
}

fn nodes(alloc: Global, mut items: &[ItemSyntax]) -> Result<Numbers<Written>, Memory>
    ensures { IfOk result (λ t. table_spec.Numbers same_written t (map spec.node_in items.entry.now)) }
{
    let mut table = Numbers::new(alloc);
    while let [item, rest @ ..] = items {
        table.add(node_in(item))?;
        items = rest;
    }
    Ok(table)
}

/// Adds the name of a function.
fn add_function(
    alloc: Global,
    text: &[u8],
    table: &mut Numbers<Name>,
    item: &ItemSyntax,
) -> Result<(), Memory>
    ensures { OnOk result ((names : List Name) → table_spec.Numbers same_name table.old names → table_spec.Numbers same_name table.new (names ++ cons_option (item_spec.function_name_in (name_at text.now) item.now) [])) }
{
    match item {
        ItemSyntax::Function(function) => table.add(name_at(alloc, text, function.name)?),
        _ => Ok(()),
    }
}

#[tactic(auto, using(crate::proofs::Lists::one_more))]
fn functions(alloc: Global, text: &[u8], mut items: &[ItemSyntax]) -> Result<Numbers<Name>, Memory>
    ensures { IfOk result (λ t. table_spec.Numbers same_name t (filter_map (item_spec.function_name_in (name_at text.now)) items.entry.now)) }
{
    let mut table = Numbers::new(alloc);
    while let [item, rest @ ..] = items {
        add_function(alloc, text, &mut table, item)?;
        items = rest;
    }
    Ok(table)
}

impl Globals {
    /// The names that items define.
    pub(crate) fn of(alloc: Global, text: &[u8], items: &[ItemSyntax]) -> Result<Globals, Memory>
        ensures constants { IfOk result (λ g. HoldsConstants g.constants) }
        ensures list { IfOk result (λ g. g.constants.list ≡ spec.constants_of text.now items.now) }
        ensures functions { IfOk result (λ g. table_spec.Numbers same_name g.functions (filter_map (item_spec.function_name_in (name_at text.now)) items.now)) }
        ensures groups { IfOk result (λ g. table_spec.Numbers same_written g.groups (map spec.group_in items.now)) }
        ensures nodes { IfOk result (λ g. table_spec.Numbers same_written g.nodes (map spec.node_in items.now)) }
        ensures listed { IfOk result (λ g. HoldsNodes g.listed) }
        ensures flags { IfOk result (λ g. g.listed.list ≡ listed (λ t. spelling_at text.now t.place) items.now) }
    {
        Ok(Globals {
            constants: Defined::of(alloc, text, items)?,
            functions: functions(alloc, text, items)?,
            groups: groups(alloc, items)?,
            nodes: nodes(alloc, items)?,
            listed: Listed::of(alloc, text, items)?,
        })
    }
}
