//! What canonical texts are for the grammar.
ghost use Rattle.std.specs.Prelude.{◌≡◌, ℕ, true, Some, List, slice_get};
ghost use Rattle.ir_grammar.specs.Blocks.{valued, terminator};
ghost use Rattle.ir_grammar.specs.Types.{value_type, return_type};
ghost use Rattle.ir_module.specs.Printable.{IsPrintable, type_fits, value_type_fits};
ghost use Rattle.ir_module.specs.Steps.{InstAt, TermAt, steps_of};
ghost use Rattle.ir_module.specs.declared.tree.Function.{Function};
ghost use Rattle.ir_module.specs.declared.tree.Inst.{Inst};
ghost use Rattle.ir_module.specs.declared.tree.Module.{Module};
ghost use Rattle.ir_module.specs.declared.tree.Term.{Term};
ghost use Rattle.ir_printer.specs.Instructions.{kind_parts, term_parts};
ghost use Rattle.ir_printer.specs.Types.{type_parts};
ghost use Rattle.ir_tokens.specs.declared.token.Token.{Token};
ghost use Rattle.ir_values.specs.declared.ty.Ty.{Ty};
ghost use Rattle.canonical_syntax.specs.Builds.{Builds};
ghost use Rattle.canonical_syntax.specs.Tells.{MeansKind, MeansTerm};

/// The canonical text of a type is a sentence of the grammar, and its tree has that type.
pub fn canonical_types_are_sentences()
    // Where an operand stands behind the type.
    ensures values { (spelling : Token → List ℕ) (t : Ty) → value_type_fits t ≡ true →
        Builds spelling value_type (type_parts t) (λ x. x.ty ≡ t) }
    // Where a function gives it: `void` too.
    ensures returned { (spelling : Token → List ℕ) (t : Ty) → type_fits t ≡ true →
        Builds spelling return_type (type_parts t) (λ x. x.ty ≡ t) }
{}

/// The canonical text of an instruction or a terminator of a printable module is a sentence of the grammar, and its tree
/// stands for it wherever names stand for what has them (LLVM Language Reference, 'Instruction Reference').
pub fn canonical_steps_are_sentences()
    ensures instructions { (spelling : Token → List ℕ) (m : Module) → IsPrintable m →
        (k : ℕ) (f : Function) → slice_get m.funcs k ≡ Some f →
        (n : ℕ) (i : Inst) → slice_get (steps_of f) n ≡ Some (InstAt i) →
        Builds spelling valued (kind_parts m f i.what) (MeansKind spelling m f i.what) }
    ensures terminators { (spelling : Token → List ℕ) (m : Module) → IsPrintable m →
        (k : ℕ) (f : Function) → slice_get m.funcs k ≡ Some f →
        (n : ℕ) (t : Term) → slice_get (steps_of f) n ≡ Some (TermAt t) →
        Builds spelling terminator (term_parts m f t) (λ p. MeansTerm spelling m f t p.1) }
{}
