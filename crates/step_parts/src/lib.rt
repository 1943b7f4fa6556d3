//! What the static step of every kind of instruction is made of: what it looks at, the values of operands, and the
//! configurations to which it leads.
#![tactic(auto)]

mod arguments;
mod counts;
mod draft;
mod frames;
mod moves;
mod names;
mod places;
mod scene;

pub use arguments::typed_args;
pub use draft::Draft;
pub use frames::open_frame;
pub use names::{drop_name, number, put, put_result};
pub use places::{Found, block_in, standing};
pub use scene::{Scene, classes_of};
