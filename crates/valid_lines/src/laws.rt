//! Laws of lowered programs. Each function does nothing: what it ensures is the law.
ghost use Rattle.valid_lines.specs.Laws.{ItemsAreValid};

/// The items of parts that are made of steps as modules without faults have them keep the rules of a valid
/// residue that speak of items.
pub fn items_are_valid()
    ensures { ItemsAreValid }
{}
