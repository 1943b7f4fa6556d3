//! The table of the functions that a lowered program calls.
ghost use Rattle.std.specs.Prelude.{◌≡◌, ℕ, ◌+◌, ◌<◌, ◌^◌, List, [], ◌∷◌, ◌++◌, Bool, true, length, map, IfOk, OnOk, flat_map};
ghost use Rattle.std.specs.List.{list_all};
ghost use Rattle.ir_module.specs.Numbered.{are_few};
ghost use Rattle.ir_values.specs.declared.ty.Ty.TheVariants as ty;
ghost use Rattle.residue.specs.Functions as spec;
ghost use Rattle.residue.specs.Scopes.{item_uses, items_of};
ghost use Rattle.called_functions.specs.code.Tables as code;

use crate::declarations::{declaration, record_name, text, types_of};
use indexmap::IndexSet;
use ir_module::Functions;
use ir_values::{Bytes, Copies, FuncId, Memory, Seq, Ty, Tys, Value, Width};
use kept_items::{Item, TypedVals};
use residue::{Line, Part, Residue};
use std::alloc::Global;

/// A set of names.
pub type NameSet = IndexSet<Bytes>;

/// The set of these names.
pub fn name_set(alloc: Global, mut names: &[Bytes]) -> Result<NameSet, Memory>
    ensures { IfOk result (λ s. code.Marks names.entry.now s.keys) }
{
    let mut set = IndexSet::new(alloc);
    while let Some((name, rest)) = names.split_first() {
        set.insert(name.copy(alloc)?)?;
        names = rest;
    }
    Ok(set)
}

/// Whether the set has this name. It takes no memory.
pub fn has_name(set: &NameSet, name: &Bytes) -> bool
    ensures { result ≡ spec.is_named set.now.keys name.now }
{
    set.contains(name)
}

/// The declared functions in the order in which they were added, with a table of their names.
#[derive(Drop)]
pub struct Table {
    pub names: NameSet,
    pub functions: Functions,
}

impl Table {
    fn new(alloc: Global) -> Table
        ensures { (names : List (List ℕ)) → code.Lists names [] result }
    {
        Table {
            names: IndexSet::new(alloc),
            functions: Seq::new(alloc),
        }
    }

    /// Adds a function, if none of its name is there.
    fn declare(
        &mut self,
        alloc: Global,
        irreversible: &NameSet,
        name: Bytes,
        ret: Ty,
        params: &Tys,
    ) -> Result<(), Memory>
        requires { length params.now < 2 ^ 32 }
        ensures { OnOk result (code.Declares irreversible.now.keys self.old self.new (λ cs. code.with_call cs (spec.called name ret params.now))) }
    {
        if has_name(&self.names, &name) {
            return Ok(());
        }
        let marked = has_name(irreversible, &name);
        let function = declaration(alloc, marked, name.copy(alloc)?, ret, params)?;
        self.names.insert(name)?;
        self.functions.push(function)?;
        Ok(())
    }

    /// The number of the function of this name, which follows all others where it isn't there.
    pub fn number(&self, name: &Bytes) -> FuncId
        requires { length self.now.names.keys + 1 < 2 ^ 32 }
        ensures { result ≡ code.function_named self.now.names.keys name.now }
    {
        match self.names.get_index_of(name) {
            Some(place) => FuncId(place as u32 + 1),
            None => FuncId(self.names.len() as u32 + 1),
        }
    }
}

/// Adds the function that reads results.
fn declare_read(alloc: Global, table: &mut Table, irreversible: &NameSet) -> Result<(), Memory>
    ensures { OnOk result (code.Declares irreversible.now.keys table.old table.new (λ cs. code.with_call cs spec.read_result)) }
{
    let mut params = Seq::new(alloc);
    params.push(Ty::Res)?;
    let name = text(alloc, b"__quantum__rt__read_result")?;
    table.declare(alloc, irreversible, name, Ty::Int(Width::W1), &params)
}

/// Adds it where the result isn't one or zero.
fn declare_reading(
    alloc: Global,
    table: &mut Table,
    irreversible: &NameSet,
    value: &Value,
) -> Result<(), Memory>
    ensures { OnOk result (code.Declares irreversible.now.keys table.old table.new (λ cs. spec.first_uses cs (spec.reading value.now))) }
{
    match value {
        Value::One => Ok(()),
        Value::Zero => Ok(()),
        _ => declare_read(alloc, table, irreversible),
    }
}

/// Adds the function of an item that gives nothing.
fn declare_void(
    alloc: Global,
    table: &mut Table,
    irreversible: &NameSet,
    name: Bytes,
    args: &TypedVals,
) -> Result<(), Memory>
    requires { length args.now < 2 ^ 32 }
    ensures { OnOk result (code.Declares irreversible.now.keys table.old table.new (λ cs. code.with_call cs (spec.called name ty.Void (spec.types_of args.now)))) }
{
    let params = types_of(alloc, args.as_slice())?;
    table.declare(alloc, irreversible, name, Ty::Void, &params)
}

/// Adds the functions that a comparison of two results calls.
fn declare_sides(
    alloc: Global,
    table: &mut Table,
    irreversible: &NameSet,
    left: &Value,
    right: &Value,
) -> Result<(), Memory>
    ensures { OnOk result (code.Declares irreversible.now.keys table.old table.new (λ cs. spec.first_uses cs (spec.reading left.now ++ spec.reading right.now))) }
{
    declare_reading(alloc, table, irreversible, left)?;
    declare_reading(alloc, table, irreversible, right)
}

/// Adds the functions that an item calls.
fn declare_item(
    alloc: Global,
    table: &mut Table,
    irreversible: &NameSet,
    item: &Item,
) -> Result<(), Memory>
    requires { are_few (item_uses item.now) ≡ true }
    ensures { OnOk result (code.Declares irreversible.now.keys table.old table.new (λ cs. spec.first_uses cs (spec.calls_of item.now))) }
{
    match item {
        Item::Read(_, _) => declare_read(alloc, table, irreversible),
        Item::Equal(_, left, right) => declare_sides(alloc, table, irreversible, left, right),
        Item::Operation(name, args) => {
            let name = name.copy(alloc)?;
            declare_void(alloc, table, irreversible, name, args)
        }
        Item::Output(class, args) => {
            let name = record_name(alloc, *class)?;
            declare_void(alloc, table, irreversible, name, args)
        }
        Item::Binary(_, _, _, _, _, _) => Ok(()),
        Item::Icmp(_, _, _, _, _) => Ok(()),
        Item::Convert(_, _, _, _, _) => Ok(()),
        Item::Select(_, _, _, _, _) => Ok(()),
    }
}

/// Adds the functions that lines call.
fn declare_lines(
    alloc: Global,
    table: &mut Table,
    irreversible: &NameSet,
    mut lines: &[Line],
) -> Result<(), Memory>
    requires { list_all (λ x. are_few (item_uses x)) (items_of lines.now) ≡ true }
    ensures { OnOk result (code.Declares irreversible.now.keys table.old table.new (λ cs. spec.first_uses cs (flat_map spec.calls_of (items_of lines.entry.now)))) }
{
    while let Some((line, rest)) = lines.split_first() {
        if let Line::Item(item) = line {
            declare_item(alloc, table, irreversible, item)?;
        }
        lines = rest;
    }
    Ok(())
}

/// Adds the functions that parts call.
fn declare_parts(
    alloc: Global,
    table: &mut Table,
    irreversible: &NameSet,
    mut parts: &[Part],
) -> Result<(), Memory>
    requires { list_all (λ x. are_few (item_uses x)) (code.items_in parts.now) ≡ true }
    ensures { OnOk result (code.Declares irreversible.now.keys table.old table.new (λ cs. spec.first_uses cs (flat_map spec.calls_of (code.items_in parts.entry.now)))) }
{
    while let Some((part, rest)) = parts.split_first() {
        declare_lines(alloc, table, irreversible, part.lines.as_slice())?;
        parts = rest;
    }
    Ok(())
}

/// Adds the function that each lowered program calls first.
fn declare_initialize(
    alloc: Global,
    table: &mut Table,
    irreversible: &NameSet,
) -> Result<(), Memory>
    ensures { OnOk result (code.Declares irreversible.now.keys table.old table.new (λ cs. code.with_call cs spec.initialize)) }
{
    let mut params = Seq::new(alloc);
    params.push(Ty::Text)?;
    let name = text(alloc, b"__quantum__rt__initialize")?;
    table.declare(alloc, irreversible, name, Ty::Void, &params)
}

/// The functions that a residue calls, initialize first and the others in the order of first use. It
/// needs a residue whose items have fewer than 2^32 arguments.
pub fn table_of(alloc: Global, residue: &Residue) -> Result<Table, Memory>
    requires { list_all (λ x. are_few (item_uses x)) (spec.all_items residue.now) ≡ true }
    ensures { IfOk result (λ t. code.Lists residue.now.irreversible (spec.declared_of residue.now) t) }
{
    let irreversible = name_set(alloc, residue.irreversible.as_slice())?;
    let mut table = Table::new(alloc);
    declare_initialize(alloc, &mut table, &irreversible)?;
    declare_parts(alloc, &mut table, &irreversible, residue.parts.as_slice())?;
    Ok(table)
}
