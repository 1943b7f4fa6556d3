//! Types.
ghost use Rattle.std.specs.Prelude.{◌≡◌, ◌∷◌, [], ◌++◌, IsTrue, OnOk, MatchOption};
ghost use Rattle.ir_parts.specs.Parts.{text_of};
ghost use Rattle.ir_values.specs.Words.{IsSig};
ghost use Rattle.ir_printer.specs.Types as spec;
ghost use Rattle.ir_printer.specs.code.OpenTypes as code;

use crate::open::Open;
use crate::writer::Writer;
use ir_values::{Memory, Seq, Sig, Ty, TyWord, Width};
use std::alloc::Global;
use std::marker::Model;

/// The function pointer types that are being written, seen by contracts with the innermost first.
#[derive(Drop)]
struct OpenTypes {
    types: Seq<Open>,
}

impl Model for OpenTypes {
    ghost use Rattle.std.specs.Prelude.{List, reverse};
    ghost use Rattle.ir_printer.specs.declared.open.Open.{Open};

    ghost Value = { List Open };

    ghost view = { λ o. reverse o.types };
}

impl OpenTypes {
    fn new(alloc: Global) -> OpenTypes
        ensures { result ≡ [] }
    {
        OpenTypes {
            types: Seq::new(alloc),
        }
    }

    fn push(&mut self, last: Open) -> Result<(), Memory>
        ensures { OnOk result (self.new ≡ last ∷ self.old) }
    {
        self.types.push(last)
    }

    fn pop(&mut self) -> Option<Open>
        ensures { MatchOption result ((self.old ≡ []) × (self.new ≡ [])) (λ last. self.old ≡ last ∷ self.new) }
    {
        self.types.pop()
    }
}

impl Writer {
    /// Adds a type last.
    pub(crate) fn ty(&mut self, ty: &Ty) -> Result<(), Memory>
        ensures { OnOk result (self.new ≡ self.old ++ text_of (spec.type_parts ty.now)) }
    {
        match ty {
            Ty::Void => self.word(TyWord::Void),
            Ty::Int(width) => self.word(TyWord::Int(*width)),
            Ty::Double => self.word(TyWord::Double),
            Ty::Qubit => self.word(TyWord::Qubit),
            Ty::Res => self.word(TyWord::Res),
            Ty::Text => self.word(TyWord::Text),
            Ty::Func(sig) => self.pointer(sig),
        }
    }

    /// Adds a type that is one word.
    fn word(&mut self, word: TyWord) -> Result<(), Memory>
        ensures { OnOk result (self.new ≡ self.old ++ text_of (spec.word_parts word)) }
    {
        match word {
            TyWord::Void => self.write(b"void"),
            TyWord::Int(width) => self.width(width),
            TyWord::Double => self.write(b"double"),
            TyWord::Qubit => self.write(b"%Qubit*"),
            TyWord::Res => self.write(b"%Result*"),
            TyWord::Text => self.write(b"i8*"),
            TyWord::Func(_) => Ok(()),
        }
    }

    fn width(&mut self, width: Width) -> Result<(), Memory>
        ensures { OnOk result (self.new ≡ self.old ++ text_of (spec.width_part width ∷ [])) }
    {
        match width {
            Width::W1 => self.write(b"i1"),
            Width::W8 => self.write(b"i8"),
            Width::W16 => self.write(b"i16"),
            Width::W32 => self.write(b"i32"),
            Width::W64 => self.write(b"i64"),
        }
    }

    /// Adds a function pointer type.
    fn pointer(&mut self, sig: &Sig) -> Result<(), Memory>
        ensures { OnOk result (self.new ≡ self.old ++ text_of (spec.first_type (spec.types_parts sig.now))) }
    {
        self.words(sig.words().as_slice())
    }

    /// Adds the types that the words spell.
    fn words(&mut self, mut words: &[TyWord]) -> Result<(), Memory>
        ensures { OnOk result (self.new ≡ self.old ++ text_of (code.words_parts [] words.entry.now)) }
    {
        let mut opened = OpenTypes::new(self.alloc());
        while let [word, rest @ ..] = words {
            self.next_word(&mut opened, *word)?;
            words = rest;
        }
        Ok(())
    }

    /// Adds a word, and what stands behind it where it makes a type whole.
    fn next_word(&mut self, opened: &mut OpenTypes, word: TyWord) -> Result<(), Memory>
        ensures { OnOk result ((self.new ≡ self.old ++ text_of (code.next opened.old word).parts)
            × (opened.new ≡ (code.next opened.old word).open_types)) }
    {
        if let TyWord::Func(params) = word {
            opened.push(Open::Returning(params))
        } else {
            self.word(word)?;
            self.close(opened)
        }
    }

    /// Adds what stands behind a type that is whole.
    fn close(&mut self, opened: &mut OpenTypes) -> Result<(), Memory>
        ensures { OnOk result ((self.new ≡ self.old ++ text_of (code.behind opened.old).parts)
            × (opened.new ≡ (code.behind opened.old).open_types)) }
    {
        while let Some(last) = opened.pop() {
            match last {
                Open::Returning(0) => self.write(b" ()*")?,
                Open::Listing(0) => self.write(b")*")?,
                Open::Returning(params) => {
                    self.write(b" (")?;
                    return opened.push(Open::Listing(params - 1));
                }
                Open::Listing(params) => {
                    self.write(b", ")?;
                    return opened.push(Open::Listing(params - 1));
                }
            }
        }
        Ok(())
    }
}
