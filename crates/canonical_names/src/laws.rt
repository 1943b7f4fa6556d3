//! What the canonical text of a function is for the grammar.
ghost use Rattle.std.specs.Prelude.{◌≡◌, ℕ, Some, List, slice_get};
ghost use Rattle.ir_grammar.specs.Forms.{◌or◌};
ghost use Rattle.ir_grammar.specs.Functions.{declaration, definition};
ghost use Rattle.ir_module.specs.Printable.{IsPrintable};
ghost use Rattle.ir_module.specs.declared.tree.Function.{Function};
ghost use Rattle.ir_module.specs.declared.tree.Module.{Module};
ghost use Rattle.ir_printer.specs.Functions.{function_parts};
ghost use Rattle.ir_tokens.specs.declared.token.Token.{Token};
ghost use Rattle.canonical_syntax.specs.Builds.{Builds};
ghost use Rattle.canonical_names.specs.Functions.{MeansFunction};

/// The canonical text of a function of a printable module is a sentence of the grammar. Wherever names and groups stand for
/// what has them in the module, no name in it is at fault, and its tree is that of the function, locals and blocks included
/// (LLVM Language Reference, 'Functions').
pub fn canonical_functions_are_sentences()
    ensures { (spelling : Token → List ℕ) (m : Module) → IsPrintable m →
        (k : ℕ) (f : Function) → slice_get m.funcs k ≡ Some f →
        Builds spelling (declaration or definition) (function_parts m f) (MeansFunction spelling m f) }
{}
