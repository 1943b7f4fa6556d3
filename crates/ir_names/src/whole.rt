//! Whole texts.
ghost use Rattle.std.specs.Prelude.{◌≡◌, List};
ghost use Rattle.std.specs.List.{filter_map};
ghost use Rattle.ir_module.specs.declared.tree.Flag.{Flag};
ghost use Rattle.ir_module.specs.declared.tree.Function.{Function};
ghost use Rattle.ir_names.specs.declared.fault.Fault.{Fault};
ghost use Rattle.ir_names.specs.Items.{items_faults, function_in};
ghost use Rattle.ir_names.specs.Metadata.{listed, flags_of};
ghost use Rattle.ir_names.specs.Module.{start, faults_of, module_of};
ghost use Rattle.ir_names.specs.code.Answers.{Gives};
ghost use Rattle.ir_names.specs.code.Seen.{outside};

use crate::before::Before;
use crate::fault::Stop;
use crate::globals::Globals;
use crate::outer::Outer;
use ir_grammar::ItemSyntax;
use ir_module::{Functions, Module, ModuleFlags};
use std::alloc::Global;

impl Outer<'_> {
    /// The functions and flags of a text.
    fn resolved(&self) -> Result<(Functions, ModuleFlags), Stop>
        requires { self.now.globals.now.listed.list ≡ listed (outside self.now).spelling self.now.items.now }
        ensures { let s = outside self.now in Gives (items_faults s start self.now.items.now) (filter_map (function_in s) self.now.items.now, flags_of s) result }
    {
        let before = Before {
            constants: 0,
            functions: 0,
            items: 0,
        };
        let functions = self.functions(before, self.items)?;
        Ok((functions, self.flags()?))
    }
}

/// The module of constants, functions and flags.
fn module_with(
    globals: Globals,
    parts: Result<(Functions, ModuleFlags), Stop>,
) -> Result<Module, Stop>
    ensures { (fs : List Fault) (x : List Function × List Flag) → Gives fs x parts → Gives fs (record { globals = globals.constants.list; funcs = x.0; flags = x.1 }) result }
{
    let Globals { constants, .. } = globals;
    let (funcs, flags) = parts?;
    Ok(Module {
        globals: constants.list,
        funcs,
        flags,
    })
}

/// The module that the items of a text spell, or the first fault of its names in text order: a
/// second definition of a name, a name without a definition of the sort that its use needs, a
/// label expression with another length than its constant's, or a listed flag of another shape.
pub fn resolve(alloc: Global, text: &[u8], items: &[ItemSyntax]) -> Result<Module, Stop>
    ensures { Gives (faults_of text.now items.now) (module_of text.now items.now) result }
{
    let globals = Globals::of(alloc, text, items)?;
    let outer = Outer {
        alloc,
        text,
        items,
        globals: &globals,
    };
    let parts = outer.resolved();
    module_with(globals, parts)
}
