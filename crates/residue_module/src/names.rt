//! The local names of the printed entry.
ghost use Rattle.std.specs.Prelude.{◌≡◌, ◌++◌, ◌∷◌, [], ℕ, Some, None, nat_eq, if◌then◌else◌, IfOk, OnOk};
ghost use Rattle.std.specs.Option.{option_or};
ghost use Rattle.indexmap.specs.IndexMap.{get};
ghost use Rattle.ir_values.specs.declared.int.Width.TheVariants.{W1};
ghost use Rattle.ir_values.specs.declared.ty.Ty.TheVariants as ty;
ghost use Rattle.residue.specs.Instructions.{local, names_of_item, names_of_reading};
ghost use Rattle.residue.specs.Printed.{is_of, names_of, names_of_items, names_of_params, names_of_part};
ghost use Rattle.residue.specs.Scopes.{items_of};
ghost use Rattle.residue_module.specs.code.Lines.{line_item, line_names};
ghost use Rattle.residue_module.specs.code.Names as code;

use crate::texts::numbered;
use indexmap::IndexMap;
use ir_module::Locals;
use ir_values::{LocalId, Memory, Seq, Ty, Value, Width};
use kept_items::{Dyn, Item};
use residue::{Line, Part};
use std::alloc::Global;

/// The local names in text order, each with its type, and the number of the first one that has each
/// Dynamic value.
#[derive(Drop)]
pub(crate) struct LocalNames {
    pub(crate) locals: Locals,
    pub(crate) firsts: IndexMap<u64, u64>,
}

/// Notes the name that has a Dynamic value, unless one has it already.
fn note(firsts: &mut IndexMap<u64, u64>, value: u64, name: u64) -> Result<(), Memory>
    ensures { OnOk result ((d : ℕ) → get nat_eq firsts.new d ≡ option_or (get nat_eq firsts.old d) (if is_of d (Some value) then Some name else None)) }
{
    if firsts.contains_key(&value) {
        return Ok(());
    }
    firsts.insert(value, name)?;
    Ok(())
}

impl LocalNames {
    /// No name. It takes no memory.
    fn new(alloc: Global) -> LocalNames
        ensures { code.Holds [] result }
    {
        LocalNames {
            locals: Seq::new(alloc),
            firsts: IndexMap::new(alloc),
        }
    }

    /// The name that has a Dynamic value, or the number behind the last where none has. It takes no
    /// memory.
    pub(crate) fn local(&self, value: Dyn) -> LocalId
        ensures { result ≡ local (code.number_of self.now value.0) }
    {
        match self.firsts.get(&value.0) {
            Some(number) => LocalId(*number),
            None => LocalId(self.locals.len() as u64),
        }
    }

    /// Adds the name of an integer that is no Dynamic value.
    fn add_bit(&mut self, alloc: Global) -> Result<(), Memory>
        ensures { OnOk result (code.Adds ((None, ty.Int W1) ∷ []) self.old self.new) }
    {
        let name = numbered(alloc, b"v", self.locals.len() as u64)?;
        self.locals.push((name, Ty::Int(Width::W1)))
    }

    /// Adds the name that has a Dynamic value.
    fn add_value(&mut self, alloc: Global, value: Dyn, width: Width) -> Result<(), Memory>
        ensures { OnOk result (code.Adds ((Some value.0, ty.Int width) ∷ []) self.old self.new) }
    {
        let number = self.locals.len() as u64;
        let name = numbered(alloc, b"v", number)?;
        note(&mut self.firsts, value.0, number)?;
        self.locals.push((name, Ty::Int(width)))
    }

    /// Adds the name of what is read of one side of a comparison.
    fn add_reading(&mut self, alloc: Global, value: &Value) -> Result<(), Memory>
        ensures { OnOk result (code.Adds (names_of_reading value.now) self.old self.new) }
    {
        match value {
            Value::One => Ok(()),
            Value::Zero => Ok(()),
            _ => self.add_bit(alloc),
        }
    }

    /// Adds the names of a comparison of two results.
    fn add_equal(
        &mut self,
        alloc: Global,
        value: Dyn,
        left: &Value,
        right: &Value,
    ) -> Result<(), Memory>
        ensures { OnOk result (code.Adds (names_of_reading left.now ++ (names_of_reading right.now ++ (Some value.0, ty.Int W1) ∷ [])) self.old self.new) }
    {
        self.add_reading(alloc, left)?;
        self.add_reading(alloc, right)?;
        self.add_value(alloc, value, Width::W1)
    }

    /// Adds the names that an item defines.
    fn add_item(&mut self, alloc: Global, item: &Item) -> Result<(), Memory>
        ensures { OnOk result (code.Adds (names_of_item item.now) self.old self.new) }
    {
        match item {
            Item::Binary(d, _, _, width, _, _) => self.add_value(alloc, *d, *width),
            Item::Icmp(d, _, _, _, _) => self.add_value(alloc, *d, Width::W1),
            Item::Convert(d, _, _, _, to) => self.add_value(alloc, *d, *to),
            Item::Select(d, width, _, _, _) => self.add_value(alloc, *d, *width),
            Item::Read(d, _) => self.add_value(alloc, *d, Width::W1),
            Item::Equal(d, left, right) => self.add_equal(alloc, *d, left, right),
            Item::Operation(_, _) => Ok(()),
            Item::Output(_, _) => Ok(()),
        }
    }

    /// Adds the names that a line defines.
    fn add_line(&mut self, alloc: Global, line: &Line) -> Result<(), Memory>
        ensures { OnOk result (code.Adds (line_names (line_item line.now)) self.old self.new) }
    {
        match line {
            Line::Item(item) => self.add_item(alloc, item),
            Line::Made(_) => Ok(()),
            Line::Freed(_) => Ok(()),
        }
    }

    /// Adds the names of parameters.
    fn add_params(&mut self, alloc: Global, mut params: &[(Dyn, Width)]) -> Result<(), Memory>
        ensures { OnOk result (code.Adds (names_of_params params.entry.now) self.old self.new) }
    {
        while let Some((param, rest)) = params.split_first() {
            self.add_value(alloc, param.0, param.1)?;
            params = rest;
        }
        Ok(())
    }

    /// Adds the names that lines define.
    fn add_lines(&mut self, alloc: Global, mut lines: &[Line]) -> Result<(), Memory>
        ensures { OnOk result (code.Adds (names_of_items (items_of lines.entry.now)) self.old self.new) }
    {
        while let Some((line, rest)) = lines.split_first() {
            self.add_line(alloc, line)?;
            lines = rest;
        }
        Ok(())
    }

    /// Adds the names of a part.
    fn add_part(&mut self, alloc: Global, part: &Part) -> Result<(), Memory>
        ensures { OnOk result (code.Adds (names_of_part part.now) self.old self.new) }
    {
        self.add_params(alloc, part.params.as_slice())?;
        self.add_lines(alloc, part.lines.as_slice())
    }
}

/// The local names of parts, in the order of their places in the text.
pub(crate) fn names_of_parts(alloc: Global, mut parts: &[Part]) -> Result<LocalNames, Memory>
    ensures { IfOk result (λ t. code.Holds (names_of parts.entry.now) t) }
{
    let mut names = LocalNames::new(alloc);
    while let Some((part, rest)) = parts.split_first() {
        names.add_part(alloc, part)?;
        parts = rest;
    }
    Ok(names)
}
