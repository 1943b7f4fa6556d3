//! The words that name capabilities.
ghost use Rattle.std.specs.Prelude.{◌≡◌};
ghost use Rattle.capability_words.specs.Words as spec;

use kept_items::Caps;

/// No capability.
const NO_CAPABILITY: Caps = Caps {
    ints: false,
    switch: false,
    returns: false,
    loops: false,
};

/// The capabilities that a word names: none where it is `-`, otherwise those of `ints`, `switch`, `returns` and
/// `loops` that it writes with commas between, in any order. None where it is no such word, as where a
/// name comes twice or the word is empty.
pub fn caps_of(word: &[u8]) -> Option<Caps>
    ensures { result ≡ spec.caps_of word.now }
{
    if word == b"-".as_slice() {
        return Some(NO_CAPABILITY);
    }
    let mut caps = NO_CAPABILITY;
    for name in word.split(|byte| *byte == b',') {
        caps = with_cap(caps, name)?;
    }
    Some(caps)
}

/// With the capability of this name, where there is such a name and it was not named before.
fn with_cap(caps: Caps, name: &[u8]) -> Option<Caps>
    ensures { result ≡ spec.with_cap name.now caps }
{
    if name == b"ints".as_slice() {
        (!caps.ints).then_some(Caps { ints: true, ..caps })
    } else if name == b"switch".as_slice() {
        (!caps.switch).then_some(Caps {
            switch: true,
            ..caps
        })
    } else if name == b"returns".as_slice() {
        (!caps.returns).then_some(Caps {
            returns: true,
            ..caps
        })
    } else if name == b"loops".as_slice() {
        (!caps.loops).then_some(Caps {
            loops: true,
            ..caps
        })
    } else {
        None
    }
}
