//! The instructions of a block so far.
ghost use Rattle.std.specs.Prelude.{◌≡◌, ◌∷◌, [], ◌<◌, ◌+◌, ◌^◌, None, OnOk};
ghost use Rattle.residue.specs.Instructions.{defining};
ghost use Rattle.residue_module.specs.code.Bodies as code;

use ir_module::{Inst, InstKind, Insts};
use ir_values::{LocalId, Memory};

/// The instructions of a block so far, and the number of the next local name.
#[derive(Drop)]
pub(crate) struct Body {
    pub(crate) insts: Insts,
    pub(crate) next: u64,
}

impl Body {
    /// Adds an instruction that defines the next local name.
    pub(crate) fn define(&mut self, what: InstKind) -> Result<(), Memory>
        requires { self.old.next + 1 < 2 ^ 64 }
        ensures { OnOk result (code.Adds (defining self.old.next what ∷ []) 1 self.old self.new) }
    {
        let inst = Inst {
            result: Some(LocalId(self.next)),
            what,
        };
        self.insts.push(inst)?;
        self.next += 1;
        Ok(())
    }

    /// Adds an instruction that defines none.
    pub(crate) fn perform(&mut self, what: InstKind) -> Result<(), Memory>
        ensures { OnOk result (code.Adds ((record { result = None; what = what }) ∷ []) 0 self.old self.new) }
    {
        self.insts.push(Inst { result: None, what })
    }

    /// The instructions alone.
    pub(crate) fn into_insts(self) -> Insts
        ensures { result ≡ self.insts }
    {
        let Body { insts, next: _ } = self;
        insts
    }
}
