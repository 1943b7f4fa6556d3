//! The widths of Dynamic names.
ghost use Rattle.std.specs.Prelude.{◌≡◌, ◌++◌, Some, slice_get, IfOk, OnOk};
ghost use Rattle.fused_parts.specs.Nodes.{frame_widths, type_in, width_of, widths_of};

use ir_module::Module;
use ir_values::{FuncId, LocalId, Memory, Seq, Ty, Width};
use static_steps::{Config, Frame};
use std::alloc::Global;

/// Widths in an order.
pub type Widths = Seq<Width>;

/// The width of an integer type.
fn width_of(ty: &Ty) -> Width
    ensures { result ≡ width_of (Some ty.now) }
{
    match ty {
        Ty::Int(width) => *width,
        _ => Width::W1,
    }
}

/// The width of a local name that is an integer; of another, and where there's none, it is 1. It takes no memory.
pub fn width_in(m: &Module, func: FuncId, name: LocalId) -> Width
    ensures { result ≡ width_of (type_in (slice_get m.now.funcs func.0) name) }
{
    let number = func.0 as usize;
    if number >= m.funcs.len() {
        return Width::W1;
    }
    let function = m.funcs.at(number);
    let place = name.0 as usize;
    if place >= function.locals.len() {
        return Width::W1;
    }
    width_of(&function.locals.at(place).1)
}

/// Adds the widths of a frame's Dynamic names.
fn push_frame(widths: &mut Widths, m: &Module, frame: &Frame) -> Result<(), Memory>
    ensures { OnOk result (widths.new ≡ widths.old ++ frame_widths m.now frame.now) }
{
    let mut rest = frame.names.as_slice();
    while let [(name, value), behind @ ..] = rest {
        if value.is_none() {
            widths.push(width_in(m, frame.at.func, *name))?;
        }
        rest = behind;
    }
    Ok(())
}

/// The widths of a configuration's Dynamic names, in the order of their numbers.
pub fn widths_of(alloc: Global, m: &Module, config: &Config) -> Result<Widths, Memory>
    ensures { IfOk result (λ ws. ws ≡ widths_of m.now config.now) }
{
    let mut widths = Seq::new(alloc);
    let mut left = config.below.len();
    while left > 0 {
        left -= 1;
        push_frame(&mut widths, m, config.below.at(left))?;
    }
    push_frame(&mut widths, m, &config.top)?;
    Ok(widths)
}
