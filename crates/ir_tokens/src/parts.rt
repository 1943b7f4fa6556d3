//! The parts of a token's spelling.
ghost use Rattle.std.specs.Prelude.{◌≡◌};
ghost use Rattle.ir_text.specs.Forms as form;
ghost use Rattle.ir_tokens.specs.Decoded as spec;

/// The bytes behind the first.
pub(crate) fn behind_first(bytes: &[u8]) -> &[u8]
    ensures { result.now ≡ spec.behind_first bytes.now }
{
    match bytes {
        [_, rest @ ..] => rest,
        [] => bytes,
    }
}

/// All bytes but the last.
pub(crate) fn but_last(bytes: &[u8]) -> &[u8]
    ensures { result.now ≡ spec.but_last bytes.now }
{
    bytes.split_at(bytes.len().saturating_sub(1)).0
}

/// The bytes between the first and the last.
pub(crate) fn between(bytes: &[u8]) -> &[u8]
    ensures { result.now ≡ spec.between bytes.now }
{
    but_last(behind_first(bytes))
}

/// The bytes behind a `-`, if there is one.
pub(crate) fn after_minus(bytes: &[u8]) -> &[u8]
    ensures { result.now ≡ form.after_minus bytes.now }
{
    match bytes {
        [b'-', rest @ ..] => rest,
        _ => bytes,
    }
}
