//! Laws of printing and reading.
ghost use Rattle.std.specs.Prelude.{◌≡◌, Result, Ok, Err};
ghost use Rattle.ir_module.specs.Printable.{IsPrintable};
ghost use Rattle.ir_module.specs.declared.places.Place.{Place};
ghost use Rattle.ir_module.specs.declared.tree.Module.{Module};
ghost use Rattle.ir_printer.specs.Canonical.{canonical};
ghost use Rattle.ir_reader.specs.Laws.{Reads};
ghost use Rattle.ir_reader.specs.Spelling.{Spells};
ghost use Rattle.ir_reader.specs.declared.parsed.Parsed.{Parsed};
ghost use Rattle.ir_reader.specs.declared.parsed.ReadCode.{ReadCode};

use canonical_modules::canonical_text_is_of_its_module;
use ir_reader::one_answer;
use ir_syntax::each_text_has_one_answer;

/// The canonical text of a module that canonical text can hold spells that module.
pub fn canonical_text_spells_its_module()
    ensures { (m : Module) → IsPrintable m → Spells m (canonical m) }
{
    canonical_text_is_of_its_module();
}

/// So it is read back: what is said of the canonical text is that module, with the places of its spots, and no refusal.
pub fn printed_modules_read_back()
    ensures read { (m : Module) → IsPrintable m → (parsed : Parsed) → Reads (canonical m) (Ok parsed) → parsed.module ≡ m }
    ensures never_refused { (m : Module) → IsPrintable m → (why : ReadCode × Place) → Reads (canonical m) (Err why) → ⊥ }
{
    canonical_text_spells_its_module();
    one_answer();
    each_text_has_one_answer();
}

/// Two modules with one canonical text are one.
pub fn equal_texts_are_of_equal_modules()
    ensures { (m n : Module) → IsPrintable m → IsPrintable n → canonical m ≡ canonical n → m ≡ n }
{
    canonical_text_spells_its_module();
    each_text_has_one_answer();
}
