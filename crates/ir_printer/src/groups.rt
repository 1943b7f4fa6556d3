//! Attribute groups.
ghost use Rattle.std.specs.Prelude.{◌≡◌, ◌∷◌, ◌++◌, [], IfOk, OnOk};
ghost use Rattle.ir_parts.specs.Parts.{text_of};
ghost use Rattle.ir_printer.specs.Canonical.{section};
ghost use Rattle.ir_printer.specs.Groups as spec;

use crate::writer::Writer;
use indexmap::IndexSet;
use ir_module::{Attr, Attrs, Module};
use ir_values::{Copies, Memory};
use std::alloc::Global;
use std::marker::Model;

/// The distinct attribute lists that aren't empty, in order of their first use, seen by contracts as their list.
#[derive(Drop)]
pub(crate) struct Groups {
    lists: IndexSet<Attrs>,
}

impl Model for Groups {
    ghost use Rattle.std.specs.Prelude.{List};
    ghost use Rattle.ir_module.specs.declared.tree.Attr.{Attr};

    ghost Value = { List (List Attr) };

    ghost view = { λ g. g.lists.keys };
}

impl Groups {
    /// The groups of a module.
    pub(crate) fn of(alloc: Global, m: &Module) -> Result<Groups, Memory>
        ensures { IfOk result (λ g. g ≡ spec.groups_of m.now) }
    {
        let mut groups = Groups {
            lists: IndexSet::new(alloc),
        };
        let mut functions = m.funcs.as_slice();
        while let [f, rest @ ..] = functions {
            groups.add(f.attrs.copy(alloc)?)?;
            functions = rest;
        }
        Ok(groups)
    }

    /// Adds a list last, if it isn't empty and isn't there.
    fn add(&mut self, attrs: Attrs) -> Result<(), Memory>
        ensures { OnOk result (self.new ≡ spec.with_list self.old attrs (spec.number_from 0 attrs self.old)) }
    {
        if !attrs.is_empty() {
            self.lists.insert(attrs)?;
        }
        Ok(())
    }

    /// The number of a list. An empty one has none.
    pub(crate) fn number(&self, attrs: &Attrs) -> Option<usize>
        ensures { result ≡ spec.number_from 0 attrs.now self.now }
    {
        self.lists.get_index_of(attrs)
    }

    /// The lists in order.
    pub(crate) fn as_slice(&self) -> &[Attrs]
        ensures { result.now ≡ self.now }
    {
        self.lists.as_slice()
    }
}

impl Writer {
    /// Adds the lines of the groups, if there is one, behind an empty line.
    pub(crate) fn groups(&mut self, groups: &[Attrs]) -> Result<(), Memory>
        ensures { OnOk result (self.new ≡ self.old ++ text_of (section (spec.group_lines 0) groups.now)) }
    {
        if groups.is_empty() {
            return Ok(());
        }
        self.byte(b'\n')?;
        self.group_lines(groups)
    }

    fn group_lines(&mut self, mut groups: &[Attrs]) -> Result<(), Memory>
        ensures { OnOk result (self.new ≡ self.old ++ text_of (spec.group_lines 0 groups.entry.now)) }
    {
        let mut number: u128 = 0;
        while let [attrs, rest @ ..] = groups {
            self.group(number, attrs)?;
            number += 1;
            groups = rest;
        }
        Ok(())
    }

    /// Adds the line of a group.
    fn group(&mut self, number: u128, attrs: &Attrs) -> Result<(), Memory>
        ensures { OnOk result (self.new ≡ self.old ++ text_of (spec.group_line number attrs.now)) }
    {
        self.group_begin(number)?;
        self.attrs(attrs.as_slice())?;
        self.write(b" }\n")
    }

    /// Adds `attributes #0 = {`.
    #[tactic(auto, unfolding(crate::specs::Groups::group_begin))]
    fn group_begin(&mut self, number: u128) -> Result<(), Memory>
        ensures { OnOk result (self.new ≡ self.old ++ text_of (spec.group_begin number)) }
    {
        self.write(b"attributes #")?;
        self.number(number)?;
        self.write(b" = {")
    }

    /// Adds attributes, each behind a blank.
    fn attrs(&mut self, mut attrs: &[Attr]) -> Result<(), Memory>
        ensures { OnOk result (self.new ≡ self.old ++ text_of (spec.attrs_parts attrs.entry.now)) }
    {
        while let [attr, rest @ ..] = attrs {
            self.byte(b' ')?;
            self.attr(attr)?;
            attrs = rest;
        }
        Ok(())
    }

    fn attr(&mut self, attr: &Attr) -> Result<(), Memory>
        ensures { OnOk result (self.new ≡ self.old ++ text_of (spec.attr_parts attr.now)) }
    {
        self.quoted(attr.key.as_slice())?;
        if let Some(value) = &attr.value {
            self.byte(b'=')?;
            self.quoted(value.as_slice())?;
        }
        Ok(())
    }

    /// Adds the number of a function's group, if it has one, behind a blank.
    pub(crate) fn group_use(&mut self, number: Option<usize>) -> Result<(), Memory>
        ensures { OnOk result (self.new ≡ self.old ++ text_of (spec.group_use number)) }
    {
        if let Some(number) = number {
            self.write(b" #")?;
            self.number(number as u128)?;
        }
        Ok(())
    }
}
