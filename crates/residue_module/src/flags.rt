//! The flags of the printed module.
ghost use Rattle.std.specs.Prelude.{◌≡◌, ◌++◌, ◌∷◌, [], IfOk, OnOk};
ghost use Rattle.kept_items.specs.declared.target.Target.TheVariants as target;
ghost use Rattle.residue.specs.Printed as spec;

use called_functions::text;
use ir_module::{Flag, FlagPart, FlagValue, ModuleFlags};
use ir_values::{Memory, Seq};
use kept_items::{Caps, Target};
use std::alloc::Global;

/// Adds a flag last, an integer of this width.
fn add(
    alloc: Global,
    flags: &mut ModuleFlags,
    behaviour: u32,
    key: &[u8],
    width: u32,
    bits: u128,
) -> Result<(), Memory>
    ensures { OnOk result (flags.new ≡ flags.old ++ spec.flag_of behaviour key.now width bits ∷ []) }
{
    flags.push(Flag {
        behaviour,
        key: text(alloc, key)?,
        value: FlagValue::One(FlagPart::Int { width, bits }),
    })
}

/// The flags that each module has.
fn own_flags(alloc: Global) -> Result<ModuleFlags, Memory>
    ensures { IfOk result (λ l. l ≡ spec.own_flags) }
{
    let mut flags = Seq::new(alloc);
    add(alloc, &mut flags, 1, b"qir_major_version", 32, 1)?;
    add(alloc, &mut flags, 7, b"qir_minor_version", 32, 0)?;
    add(alloc, &mut flags, 1, b"dynamic_qubit_management", 1, 0)?;
    add(alloc, &mut flags, 1, b"dynamic_result_management", 1, 0)?;
    Ok(flags)
}

/// Adds the flag of a capability, where the target names it.
fn add_capability(
    alloc: Global,
    flags: &mut ModuleFlags,
    named: bool,
    key: &[u8],
) -> Result<(), Memory>
    ensures { OnOk result (flags.new ≡ flags.old ++ spec.flag_on named key.now) }
{
    if named {
        add(alloc, flags, 1, key, 1, 1)
    } else {
        Ok(())
    }
}

/// Adds the flags of capabilities.
fn add_capabilities(alloc: Global, flags: &mut ModuleFlags, caps: Caps) -> Result<(), Memory>
    ensures { OnOk result (flags.new ≡ flags.old ++ spec.flags_of (target.Adaptive caps)) }
{
    add_capability(alloc, flags, caps.ints, b"int_computations")?;
    add_capability(alloc, flags, caps.switch, b"multiple_target_branching")?;
    add_capability(alloc, flags, caps.returns, b"multiple_return_points")?;
    add_capability(alloc, flags, caps.loops, b"backwards_branching")
}

/// The flags of the printed module.
pub(crate) fn module_flags(alloc: Global, target: Target) -> Result<ModuleFlags, Memory>
    ensures { IfOk result (λ l. l ≡ spec.own_flags ++ spec.flags_of target) }
{
    let mut flags = own_flags(alloc)?;
    match target {
        Target::Base => Ok(flags),
        Target::Adaptive(caps) => {
            add_capabilities(alloc, &mut flags, caps)?;
            Ok(flags)
        }
    }
}
