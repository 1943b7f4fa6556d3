//! What is known of the whole text.
ghost use Rattle.std.specs.Prelude.{◌≡◌, IfOk};
ghost use Rattle.ir_names.specs.Items as spec;
ghost use Rattle.ir_names.specs.Sense as sense;
ghost use Rattle.std.specs.Option.{option_copied};
ghost use Rattle.ir_names.specs.code.Answers.{Gives};
ghost use Rattle.ir_names.specs.code.Seen.{outside};

use crate::before::Before;
use crate::fault::{NameCode, Stop};
use crate::globals::Globals;
use crate::lines::is_before;
use crate::name::written;
use ir_grammar::ItemSyntax;
use ir_tokens::{Token, name_at, string_at};
use ir_values::{Bytes, Memory};
use std::alloc::Global;

/// A text, its items, and the names that hold in the whole of it.
#[derive(Clone, Copy)]
pub struct Outer<'a> {
    pub alloc: Global,
    pub text: &'a [u8],
    pub items: &'a [ItemSyntax],
    pub globals: &'a Globals,
}

impl Outer<'_> {
    /// A constant or a function has a new name.
    pub(crate) fn new_global(&self, before: Before, token: &Token) -> Result<(), Stop>
        ensures { Gives (spec.global_duplicate (outside self.now) before token.now) tt result }
    {
        let name = name_at(self.alloc, self.text, *token)?;
        let globals = self.globals;
        let constant = is_before(globals.constants.table.number(&name), before.constants);
        let function = is_before(globals.functions.number(&name), before.functions);
        if constant || function {
            Err(Stop::at(NameCode::Duplicate, token))
        } else {
            Ok(())
        }
    }

    /// A group has a new number.
    pub(crate) fn new_group(&self, before: Before, token: &Token) -> Result<(), Stop>
        ensures { Gives (spec.group_duplicate (outside self.now) before token.now) tt result }
    {
        if is_before(self.globals.groups.number(&written(token)), before.items) {
            Err(Stop::at(NameCode::Duplicate, token))
        } else {
            Ok(())
        }
    }

    /// The bytes that a string stands for.
    pub(crate) fn string(&self, token: &Token) -> Result<Bytes, Memory>
        ensures { IfOk result (λ s. s ≡ (outside self.now).string token.now) }
    {
        string_at(self.alloc, self.text, *token)
    }

    /// The item of a place.
    fn item_at(&self, place: Option<u64>) -> Option<&ItemSyntax>
        ensures { option_copied result ≡ sense.item_at (outside self.now) place }
    {
        match place {
            None => None,
            Some(place) => self.items.get(place as usize),
        }
    }

    /// The first group of a token's number.
    pub(crate) fn group(&self, token: &Token) -> Option<&ItemSyntax>
        ensures { let s = outside self.now in option_copied result ≡ sense.item_at s (s.group token.now) }
    {
        self.item_at(self.globals.groups.number(&written(token)))
    }

    /// The first node of a token's number.
    pub(crate) fn node(&self, token: &Token) -> Option<&ItemSyntax>
        ensures { let s = outside self.now in option_copied result ≡ sense.item_at s (s.node token.now) }
    {
        self.item_at(self.globals.nodes.number(&written(token)))
    }
}
