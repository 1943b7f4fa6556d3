//! How many Dynamic names there are.
ghost use Rattle.std.specs.Prelude.{◌≡◌, ◌-◌, ◌^◌, min};
ghost use Rattle.static_steps.specs.Values.{dynamics};
ghost use Rattle.static_steps.specs.Works.{dynamics_of};

use ir_values::{LocalId, Value};
use static_steps::Config;

/// How many of a frame's names are Dynamic.
pub(crate) fn count(names: &[(LocalId, Option<Value>)]) -> u64
    ensures { result ≡ dynamics names.now }
{
    let mut n: u64 = 0;
    let mut rest = names;
    while let [name, behind @ ..] = rest {
        if name.1.is_none() {
            n += 1;
        }
        rest = behind;
    }
    n
}

/// The number of a configuration's Dynamic names, or the greatest `u64` where there are more. It takes no
/// memory.
pub fn dynamics(config: &Config) -> u64
    ensures { result ≡ min (dynamics_of config.now) (2 ^ 64 - 1) }
{
    let mut n = count(config.top.names.as_slice());
    let mut rest = config.below.as_slice();
    while let [frame, behind @ ..] = rest {
        n = n.saturating_add(count(frame.names.as_slice()));
        rest = behind;
    }
    n
}
