//! What holds of the places of a text.
ghost use Rattle.std.specs.Prelude.{◌≡◌, ℕ, List, map};
ghost use Rattle.ir_grammar.specs.declared.tree.ItemSyntax.{ItemSyntax};
ghost use Rattle.ir_module.specs.Spots.{spots};
ghost use Rattle.ir_names.specs.Module.{module_of};
ghost use Rattle.ir_names.specs.Places.{places_of};

/// The places of a text are those of the spots of its module, in order.
pub fn places_are_of_spots()
    ensures { (text : List ℕ) (items : List ItemSyntax) → map (λ p. p.0) (places_of text items) ≡ spots (module_of text items) }
{}
