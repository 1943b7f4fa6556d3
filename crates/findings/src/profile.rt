//! What a profile says of each part of a module.
ghost use Rattle.std.specs.Prelude.{◌≡◌, ◌++◌, Some, OnOk};
ghost use Rattle.ir_module.specs.declared.places.Spot.TheVariants as spot;
ghost use Rattle.ir_module.specs.declared.tree.Module.{Module};
ghost use Rattle.ir_module.specs.Steps.{PhiAt, InstAt, TermAt};
ghost use Rattle.profile_rules.specs.code.Listed.{findings_at};
ghost use Rattle.profile_rules.specs.Findings.{Rules, broken, broken_by_function, broken_by_step};
ghost use Rattle.findings.specs.code.Within.{IsFunction, IsWithin};

use ir_module::{Function, Inst, Phi, Point, Term};
use ir_values::{FuncId, Memory};
use profile_rules::Findings;

/// The rules of a profile, for one module. Each call adds what is broken at one spot, in the order of the rules.
pub trait Profile {
    /// The module.
    ghost tree: { Self → Module };

    /// The rules, as data.
    ghost rules: { Self → Rules };

    /// Its tables are those of the module.
    ghost IsReady: { Self → Type 0 };

    /// Adds what the module as a whole breaks.
    fn on_module(&self, found: &mut Findings) -> Result<(), Memory>
        requires { IsReady self.now }
        ensures { OnOk result (found.new ≡ found.old ++ findings_at spot.Module (broken (λ b. b) (rules self.now).on_module)) };

    /// Adds what the function of this number breaks.
    fn on_function(&self, number: FuncId, f: &Function, found: &mut Findings) -> Result<(), Memory>
        requires ready { IsReady self.now }
        requires function { IsFunction (tree self.now) number.0 f.now }
        ensures { OnOk result (found.new ≡ found.old
            ++ findings_at (spot.Func number) (broken_by_function (rules self.now) number.0 (Some f.now))) };

    /// Adds what a phi breaks, which stands in a block of the function.
    fn on_phi(&self, f: &Function, at: Point, phi: &Phi, found: &mut Findings) -> Result<(), Memory>
        requires ready { IsReady self.now }
        requires within { IsWithin (tree self.now) f.now at }
        ensures { OnOk result (found.new ≡ found.old
            ++ findings_at (spot.At at) (broken_by_step (rules self.now) f.now at (PhiAt phi.now))) };

    /// Adds what an instruction breaks, which stands in a block of the function.
    fn on_inst(
        &self,
        f: &Function,
        at: Point,
        inst: &Inst,
        found: &mut Findings,
    ) -> Result<(), Memory>
        requires ready { IsReady self.now }
        requires within { IsWithin (tree self.now) f.now at }
        ensures { OnOk result (found.new ≡ found.old
            ++ findings_at (spot.At at) (broken_by_step (rules self.now) f.now at (InstAt inst.now))) };

    /// Adds what a terminator breaks, which ends a block of the function.
    fn on_term(
        &self,
        f: &Function,
        at: Point,
        term: &Term,
        found: &mut Findings,
    ) -> Result<(), Memory>
        requires ready { IsReady self.now }
        requires within { IsWithin (tree self.now) f.now at }
        ensures { OnOk result (found.new ≡ found.old
            ++ findings_at (spot.At at) (broken_by_step (rules self.now) f.now at (TermAt term.now))) };
}
