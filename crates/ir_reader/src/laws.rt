//! Laws of reading, each as the contract of a function that does nothing.
ghost use Rattle.ir_reader.specs.Laws.{OneAnswer, PlacesAreOfSpots};

/// Every text spells one module with its places, or is refused for one reason at one place, and never both.
pub fn one_answer()
    ensures { OneAnswer }
{
    ir_syntax::each_text_has_one_answer();
}

/// The places of a text are those of the spots of its module, in order.
pub fn places_are_of_spots()
    ensures { PlacesAreOfSpots }
{
    ir_syntax::each_text_has_one_answer();
    ir_names::places_are_of_spots();
}
