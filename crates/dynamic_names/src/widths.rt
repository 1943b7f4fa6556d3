//! How wide Dynamic names are.
ghost use Rattle.std.specs.Prelude.{◌≡◌, ◌<◌, Some, slice_get};
ghost use Rattle.fused_parts.specs.Nodes.{frame_widths, widths_of};
ghost use Rattle.static_steps.specs.Values.{dynamics};
ghost use Rattle.static_steps.specs.Works.{dynamics_of};

use crate::counting::count;
use fused_parts::width_in;
use ir_module::Module;
use ir_values::Width;
use kept_items::Dyn;
use static_steps::{Config, Frame};

/// The width of Dynamic name number `k` of a frame, counted from 0.
fn frame_width(m: &Module, frame: &Frame, k: u64) -> Width
    requires { k < dynamics frame.now.names }
    ensures { slice_get (frame_widths m.now frame.now) k ≡ Some result }
{
    let mut left = k;
    let mut rest = frame.names.as_slice();
    while let [(name, value), behind @ ..] = rest {
        if value.is_none() {
            if left == 0 {
                return width_in(m, frame.at.func, *name);
            }
            left -= 1;
        }
        rest = behind;
    }
    unreachable!()
}

/// The width of the Dynamic name of this number. The names are numbered from the bottom frame up, and in a frame
/// by local number. It takes no memory.
pub fn width(m: &Module, config: &Config, name: Dyn) -> Width
    requires { name.0 < dynamics_of config.now }
    ensures { slice_get (widths_of m.now config.now) name.0 ≡ Some result }
{
    let mut left = name.0;
    let mut at = config.below.len();
    while at > 0 {
        at -= 1;
        let frame = config.below.at(at);
        let own = count(frame.names.as_slice());
        if left < own {
            return frame_width(m, frame, left);
        }
        left -= own;
    }
    frame_width(m, &config.top, left)
}
