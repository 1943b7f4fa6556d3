//! Calls.
ghost use Rattle.std.specs.Prelude.{◌≡◌};
ghost use Rattle.ir_names.specs.code.Answers.{Gives};
ghost use Rattle.std.specs.Prelude.{map};
ghost use Rattle.std.specs.List.{flat_map};
ghost use Rattle.ir_names.specs.Instructions.{arg_faults, arg_of, callee_faults, callee_of, group_faults, call_faults, call_of};
ghost use Rattle.ir_names.specs.code.Seen.{seen};

use crate::fault::Stop;
use crate::scope::Scope;
use ir_grammar::ArgSyntax;
use ir_module::{CallArgs, Callee, InstKind};
use ir_tokens::{Kind, Token};
use ir_values::{Copies, Seq, Ty};

impl Scope<'_> {
    /// Arguments with their types.
    #[tactic(auto, using(crate::proofs::Parts::fails_front, crate::proofs::Parts::fails_behind, crate::proofs::Parts::clean))]
    pub(crate) fn args(&self, mut args: &[ArgSyntax]) -> Result<CallArgs, Stop>
        ensures { Gives (flat_map (arg_faults (seen self.now)) args.entry.now) (map (arg_of (seen self.now)) args.entry.now) result }
    {
        let mut out = Seq::new(self.outer.alloc);
        while let [arg, rest @ ..] = args {
            let value = self.operand(&arg.value)?;
            out.push((arg.ty.copy(self.outer.alloc)?, value))?;
            args = rest;
        }
        Ok(out)
    }

    /// Groups that exist.
    #[tactic(auto, using(crate::proofs::Parts::fails_front, crate::proofs::Parts::fails_behind, crate::proofs::Parts::clean))]
    pub(crate) fn groups(&self, mut groups: &[Token]) -> Result<(), Stop>
        ensures { Gives (flat_map (group_faults (seen self.now)) groups.entry.now) tt result }
    {
        while let [group, rest @ ..] = groups {
            self.group(group)?;
            groups = rest;
        }
        Ok(())
    }

    /// What a call calls.
    pub(crate) fn callee(&self, token: &Token) -> Result<Callee, Stop>
        ensures { Gives (callee_faults (seen self.now) token.now) (callee_of (seen self.now) token.now) result }
    {
        if token.kind.number() == Kind::Global.number() {
            Ok(Callee::Func(self.function(token)?))
        } else {
            Ok(Callee::Local(self.value(token)?))
        }
    }

    /// A call.
    #[tactic(auto, using(crate::proofs::Parts::fails_front, crate::proofs::Parts::fails_behind, crate::proofs::Parts::clean))]
    pub(crate) fn call(
        &self,
        ty: &Ty,
        callee: &Token,
        args: &[ArgSyntax],
        groups: &[Token],
    ) -> Result<InstKind, Stop>
        ensures { Gives (call_faults (seen self.now) callee.now args.now groups.now) (call_of (seen self.now) ty.now callee.now args.now) result }
    {
        let callee = self.callee(callee)?;
        let args = self.args(args)?;
        self.groups(groups)?;
        Ok(InstKind::Call(ty.copy(self.outer.alloc)?, callee, args))
    }
}
