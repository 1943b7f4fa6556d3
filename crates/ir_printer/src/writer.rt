//! A text that is being written.
ghost use Rattle.std.specs.Prelude.{◌≡◌, ◌++◌, ◌∷◌, [], decimal, OnOk};
ghost use Rattle.std.specs.Fmt.{signed_decimal};

use ir_values::{Bytes, Memory, push_decimal, push_signed};
use std::alloc::Global;
use std::marker::Model;

/// A text that is being written, seen by contracts as its bytes.
#[derive(Drop)]
pub(crate) struct Writer {
    alloc: Global,
    text: Bytes,
}

impl Model for Writer {
    ghost use Rattle.std.specs.Prelude.{List, ℕ};

    ghost Value = { List ℕ };

    ghost view = { λ w. w.text };
}

impl Writer {
    /// The empty text.
    pub(crate) fn new(alloc: Global) -> Writer
        ensures { result ≡ [] }
    {
        Writer {
            alloc,
            text: Bytes::new(alloc),
        }
    }

    /// The bytes of the text.
    pub(crate) fn into_bytes(self) -> Bytes
        ensures { result ≡ self }
    {
        self.text
    }

    pub(crate) fn alloc(&self) -> Global {
        self.alloc
    }

    /// Adds bytes last.
    pub(crate) fn write(&mut self, bytes: &[u8]) -> Result<(), Memory>
        ensures { OnOk result (self.new ≡ self.old ++ bytes.now) }
    {
        self.text.extend_from_slice(bytes)
    }

    /// Adds a byte last.
    pub(crate) fn byte(&mut self, byte: u8) -> Result<(), Memory>
        ensures { OnOk result (self.new ≡ self.old ++ byte ∷ []) }
    {
        self.text.push(byte)
    }

    /// Adds the decimal digits of `n` last.
    pub(crate) fn number(&mut self, n: u128) -> Result<(), Memory>
        ensures { OnOk result (self.new ≡ self.old ++ decimal n) }
    {
        push_decimal(&mut self.text, n)
    }

    /// Adds the decimal digits of `n` last, behind a `-` where it is below zero.
    pub(crate) fn signed(&mut self, n: i128) -> Result<(), Memory>
        ensures { OnOk result (self.new ≡ self.old ++ signed_decimal n) }
    {
        push_signed(&mut self.text, n)
    }
}
