//! What contracts see of the bytes of a text.
ghost use Rattle.std.specs.Prelude.{◌≡◌, true};
ghost use Rattle.ir_module.specs.Printable.{are_bytes};

/// Sees that each byte of a text is below 256, which a contract knows of a byte only where it was read.
pub(crate) fn see_bytes(mut text: &[u8])
    ensures { are_bytes text.entry.now ≡ true }
{
    while let [byte, rest @ ..] = text {
        let _byte = *byte;
        text = rest;
    }
}
