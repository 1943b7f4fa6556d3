//! Calls.
ghost use Rattle.std.specs.Prelude.{◌≡◌};
ghost use Rattle.std.specs.Option.{option_map};
ghost use Rattle.profile_rules.specs.Calls.{call_of_kind};
ghost use Rattle.findings.specs.code.Shown.{shown};

use ir_module::{Callee, Inst, InstKind, Operand};
use ir_values::Ty;

/// What a call calls, and its arguments with their types.
#[derive(Clone, Copy)]
pub struct Call<'a> {
    pub callee: Callee,
    pub args: &'a [(Ty, Operand)],
}

/// The call that an instruction is. It takes no memory.
pub fn call_of(inst: &Inst) -> Option<Call<'_>>
    ensures { option_map shown result ≡ call_of_kind inst.now.what }
{
    match &inst.what {
        InstKind::Call(_, callee, args) => Some(Call {
            callee: *callee,
            args: args.as_slice(),
        }),
        InstKind::Binary(_, _, _, _, _)
        | InstKind::Icmp(_, _, _, _)
        | InstKind::Convert(_, _, _, _)
        | InstKind::Select(_, _, _, _, _) => None,
    }
}
