//! How much is defined before an item.
ghost use Rattle.std.specs.Prelude.{◌≡◌, IfOk};
ghost use Rattle.ir_names.specs.Items as spec;

use crate::lines::next;
use ir_grammar::ItemSyntax;
use ir_values::Memory;

/// How many constants, functions and items stand before an item.
#[derive(Clone, Copy)]
pub struct Before {
    pub constants: u64,
    pub functions: u64,
    pub items: u64,
}

impl Before {
    /// The same behind an item.
    pub(crate) fn behind(self, item: &ItemSyntax) -> Result<Before, Memory>
        ensures { IfOk result (λ b. b ≡ spec.behind self item.now) }
    {
        let items = next(self.items)?;
        match item {
            ItemSyntax::Constant(_, _) => Ok(Before {
                constants: next(self.constants)?,
                functions: self.functions,
                items,
            }),
            ItemSyntax::Function(_) => Ok(Before {
                constants: self.constants,
                functions: next(self.functions)?,
                items,
            }),
            ItemSyntax::Aside
            | ItemSyntax::Group(_, _)
            | ItemSyntax::List(_, _)
            | ItemSyntax::Node(_, _) => Ok(Before {
                constants: self.constants,
                functions: self.functions,
                items,
            }),
        }
    }
}
