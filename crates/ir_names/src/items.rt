//! The functions of a text, with the first fault of its items.
#![tactic(auto, using(crate::proofs::Parts::fails_front, crate::proofs::Parts::fails_behind, crate::proofs::Parts::clean, crate::proofs::Lists::one_more))]

ghost use Rattle.std.specs.Prelude.{◌≡◌};
ghost use Rattle.std.specs.List.{filter_map};
ghost use Rattle.ir_names.specs.Functions.{function_of};
ghost use Rattle.ir_names.specs.Items as spec;
ghost use Rattle.ir_names.specs.code.Answers.{Gives};
ghost use Rattle.ir_names.specs.code.Seen.{outside};

use crate::before::Before;
use crate::fault::Stop;
use crate::functions::push_some;
use crate::outer::Outer;
use ir_grammar::{FunctionSyntax, ItemSyntax};
use ir_module::{Function, Functions};
use ir_values::Seq;

impl Outer<'_> {
    /// A function with a new name.
    fn named_function(&self, before: Before, function: &FunctionSyntax) -> Result<Function, Stop>
        ensures { let g = outside self.now in Gives (spec.named_faults g before function.now) (function_of g function.now) result }
    {
        self.new_global(before, &function.name)?;
        self.function(function)
    }

    /// An item, and its function if it is one.
    fn item(&self, before: Before, item: &ItemSyntax) -> Result<Option<Function>, Stop>
        ensures { let g = outside self.now in Gives (spec.item_faults g before item.now) (spec.function_in g item.now) result }
    {
        match item {
            ItemSyntax::Aside => {}
            ItemSyntax::Constant(token, _) => self.new_global(before, token)?,
            ItemSyntax::Function(function) => {
                return Ok(Some(self.named_function(before, function)?));
            }
            ItemSyntax::Group(token, _) => self.new_group(before, token)?,
            ItemSyntax::List(_, nodes) => self.node_uses(nodes.as_slice())?,
            ItemSyntax::Node(token, elems) => {
                self.node_item(before.items, token, elems.as_slice())?;
            }
        }
        Ok(None)
    }

    /// The functions of items behind others.
    pub(crate) fn functions(
        &self,
        mut before: Before,
        mut items: &[ItemSyntax],
    ) -> Result<Functions, Stop>
        ensures { let g = outside self.now in Gives (spec.items_faults g before items.entry.now) (filter_map (spec.function_in g) items.entry.now) result }
    {
        let mut out = Seq::new(self.alloc);
        while let [item, rest @ ..] = items {
            push_some(&mut out, self.item(before, item)?)?;
            before = before.behind(item)?;
            items = rest;
        }
        Ok(out)
    }
}
