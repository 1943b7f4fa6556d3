//! The rules of the Base Profile at each part of a module (QIR specification, 'Base Profile').
ghost use Rattle.std.specs.Prelude.{◌≡◌, ◌++◌, ◌==◌, ◌&&◌, not, slice_get, unwrap_or, Some, None, OnOk};
ghost use Rattle.ir_module.specs.declared.places.Spot.TheVariants as spot;
ghost use Rattle.ir_module.specs.Steps.{InstAt};
ghost use Rattle.profile_rules.specs.Base as spec;
ghost use Rattle.profile_rules.specs.Calls.{call_of_kind, called_class, called_function, declared_class, is_irreversible, is_measure, passes};
ghost use Rattle.profile_rules.specs.Walk.{walk_position};
ghost use Rattle.base_profile.specs.code.Order.{fits_class};
ghost use Rattle.profile_rules.specs.Shared.{on_entry};
ghost use Rattle.profile_rules.specs.code.Listed.{findings_at};
ghost use Rattle.profile_rules.specs.Findings.{broken_by_step};
ghost use Rattle.findings.specs.code.Shown.{shown};
ghost use Rattle.findings.specs.code.Within.{IsFunction, IsWithin};
ghost use Rattle.base_profile.specs.code.Ready.{IsReady};
ghost use Rattle.base_profile.specs.code.Rules.{rules_of};

use crate::called::is_irreversible;
use crate::order::{branches, fits, has_computed, is_base, is_code, is_measure};
use crate::tables::Tables;
use findings::{
    Call, Profile, call_of, is_late_init, is_other_body, lacks_labeling_schema,
    lacks_required_flag, lacks_required_number, names_other_profile, tell,
};
use ir_module::{Callee, Function, Inst, Phi, Point, Spot, Term};
use ir_values::{FuncId, Memory};
use profile_rules::{Findings, Form};

impl<'a> Tables<'a> {
    fn is_strict(&self) -> bool
        ensures { result ≡ spec.is_strict self.now.form }
    {
        matches!(self.form, Form::Strict)
    }

    fn is_entry(&self, number: FuncId) -> bool
        ensures { result ≡ (number.0 == self.now.entry.0) }
    {
        number == self.entry
    }

    /// Whether a rule for the entry is broken by the function of this number.
    fn of_entry(&self, number: FuncId, broken: bool) -> bool
        ensures { result ≡ ((number.0 == self.now.entry.0) && broken) }
    {
        self.is_entry(number) && broken
    }

    /// Whether the blocks of the entry aren't those of the form.
    fn has_other_blocks(&self) -> bool
        requires { IsReady self.now }
        ensures { result ≡ spec.has_other_blocks self.now.form self.now.function.now }
    {
        match self.form {
            Form::Strict => !(self.positions.len() == 4 && self.chain),
            Form::Chain => !self.chain,
        }
    }

    fn is_other_entry(&self, number: FuncId) -> bool
        requires { IsReady self.now }
        ensures { result ≡ ((number.0 == self.now.entry.0) && spec.has_other_blocks self.now.form self.now.function.now) }
    {
        self.is_entry(number) && self.has_other_blocks()
    }

    /// Whether the function is the entry and its blocks aren't those of the form.
    fn is_other_shape(&self, number: FuncId, f: &Function) -> bool
        requires ready { IsReady self.now }
        requires function { IsFunction self.now.callees.tree.now number.0 f.now }
        ensures { result ≡ on_entry self.now.entry.0 (spec.has_other_blocks self.now.form) number.0 f.now }
    {
        self.is_other_entry(number)
    }

    fn returns_no_code(&self, number: FuncId, f: &Function) -> bool
        ensures { result ≡ (spec.is_strict self.now.form && on_entry self.now.entry.0 spec.returns_no_code number.0 f.now) }
    {
        self.is_strict() && self.of_entry(number, !is_code(&f.ret))
    }

    /// Whether the declaration of the function of this number says that it can't be undone.
    #[tactic(auto, using(crate::proofs::Marks::passes_map))]
    fn is_irreversible(&self, callee: Callee) -> bool
        requires { IsReady self.now }
        ensures { result ≡ passes (called_function self.now.callees.tree.now callee) is_irreversible }
    {
        match callee {
            Callee::Func(g) => marked(self.irreversible, g.0 as usize),
            Callee::Local(_) => false,
        }
    }

    fn is_measurement(&self, number: FuncId, f: &Function) -> bool
        requires ready { IsReady self.now }
        requires function { IsFunction self.now.callees.tree.now number.0 f.now }
        ensures { result ≡ passes (declared_class f.now) is_measure }
    {
        is_measure(self.callees.class(Callee::Func(number)))
    }

    /// Whether the entry calls the function of this number.
    fn is_called(&self, number: FuncId, f: &Function) -> bool
        requires ready { IsReady self.now }
        requires function { IsFunction self.now.callees.tree.now number.0 f.now }
        ensures { result ≡ spec.calls_function self.now.function.now number.0 }
    {
        marked(self.called, number.0 as usize)
    }

    /// Whether the function is a measurement that the entry calls and that isn't declared irreversible.
    fn is_unmarked(&self, number: FuncId, f: &Function) -> bool
        requires ready { IsReady self.now }
        requires function { IsFunction self.now.callees.tree.now number.0 f.now }
        ensures { result ≡ spec.is_unmarked_measurement self.now.function.now number.0 f.now }
    {
        self.is_measurement(number, f) && !is_irreversible(f) && self.is_called(number, f)
    }

    fn is_strict_unmarked(&self, number: FuncId, f: &Function) -> bool
        requires ready { IsReady self.now }
        requires function { IsFunction self.now.callees.tree.now number.0 f.now }
        ensures { result ≡ (spec.is_strict self.now.form && spec.is_unmarked_measurement self.now.function.now number.0 f.now) }
    {
        self.is_strict() && self.is_unmarked(number, f)
    }

    /// Whether a block of the entry at this position of the walk takes other calls.
    fn is_misplaced(&self, position: usize, callee: Callee) -> bool
        requires { IsReady self.now }
        ensures { result ≡ not (fits_class position (called_class self.now.callees.tree.now callee)
            (passes (called_function self.now.callees.tree.now callee) is_irreversible)) }
    {
        !fits(
            position,
            self.callees.class(callee),
            self.is_irreversible(callee),
        )
    }

    fn is_strict_entry(&self, number: FuncId) -> bool
        ensures { result ≡ ((number.0 == self.now.entry.0) && spec.is_strict self.now.form) }
    {
        self.is_entry(number) && self.is_strict()
    }

    fn is_out_of_place(&self, position: usize, number: FuncId, callee: Callee) -> bool
        requires { IsReady self.now }
        ensures { result ≡ (not (fits_class position (called_class self.now.callees.tree.now callee)
            (passes (called_function self.now.callees.tree.now callee) is_irreversible))
            && ((number.0 == self.now.entry.0) && spec.is_strict self.now.form)) }
    {
        self.is_misplaced(position, callee) && self.is_strict_entry(number)
    }

    /// Whether a call stands in a block of the entry that takes other calls.
    fn is_out_of_order(&self, f: &Function, at: Point, call: Call<'_>) -> bool
        requires ready { IsReady self.now }
        requires within { IsWithin self.now.callees.tree.now f.now at }
        ensures { result ≡ (not (spec.fits_position self.now.callees.tree.now (walk_position f.now at.block.0) (shown call.entry))
            && ((at.func.0 == self.now.entry.0) && spec.is_strict self.now.form)) }
    {
        let position = number_at(self.positions, at.block.0 as usize);
        self.is_out_of_place(position, at.func, call.callee)
    }

    /// Adds what a call breaks.
    fn on_call(
        &self,
        f: &Function,
        at: Point,
        inst: &Inst,
        call: Call<'_>,
        found: &mut Findings,
    ) -> Result<(), Memory>
        requires ready { IsReady self.now }
        requires within { IsWithin self.now.callees.tree.now f.now at }
        requires call { call_of_kind inst.now.what ≡ Some (shown call) }
        ensures { OnOk result (found.new ≡ found.old
            ++ findings_at (spot.At at) (broken_by_step (rules_of self.now) f.now at (InstAt inst.now))) }
    {
        let class = self.callees.class(call.callee);
        let verdicts = [
            (10, !is_base(class)),
            (11, has_computed(call.args)),
            (12, self.is_out_of_order(f, at, call)),
            (14, is_late_init(self.entry, at, class)),
        ];
        tell(found, Spot::At(at), &verdicts)
    }

    /// Adds what an instruction breaks that is no call.
    fn on_other(
        &self,
        f: &Function,
        at: Point,
        inst: &Inst,
        found: &mut Findings,
    ) -> Result<(), Memory>
        requires call { call_of_kind inst.now.what ≡ None }
        ensures { OnOk result (found.new ≡ found.old
            ++ findings_at (spot.At at) (broken_by_step (rules_of self.now) f.now at (InstAt inst.now))) }
    {
        tell(found, Spot::At(at), &[(9, self.is_entry(at.func))])
    }
}

/// The mark of this number, and false where there is none.
fn marked(marks: &[bool], i: usize) -> bool
    ensures { result ≡ passes (slice_get marks.now i) (λ b. b) }
{
    match marks.get(i) {
        Some(mark) => *mark,
        None => false,
    }
}

/// The number at this index, and 0 where there is none.
fn number_at(numbers: &[usize], i: usize) -> usize
    ensures { result ≡ unwrap_or (slice_get numbers.now i) 0 }
{
    match numbers.get(i) {
        Some(number) => *number,
        None => 0,
    }
}

impl<'a> Profile for Tables<'a> {
    ghost tree = { λ t. t.callees.tree.now };

    ghost rules = { rules_of };

    ghost IsReady = { IsReady };

    fn on_module(&self, found: &mut Findings) -> Result<(), Memory> {
        let lacks = lacks_required_flag(self.callees.tree.flags.as_slice());
        tell(found, Spot::Module, &[(4, lacks)])
    }

    fn on_function(
        &self,
        number: FuncId,
        f: &Function,
        found: &mut Findings,
    ) -> Result<(), Memory> {
        let other_profile = self.of_entry(number, names_other_profile(f, b"base_profile"));
        let no_schema = self.of_entry(number, lacks_labeling_schema(f));
        let no_number = self.of_entry(number, lacks_required_number(f));
        let verdicts = [
            (1, other_profile),
            (2, no_schema),
            (3, no_number),
            (5, is_other_body(self.entry, number, f)),
            (7, self.is_other_shape(number, f)),
            (8, self.returns_no_code(number, f)),
            (13, self.is_strict_unmarked(number, f)),
        ];
        tell(found, Spot::Func(number), &verdicts)
    }

    fn on_phi(
        &self,
        _f: &Function,
        at: Point,
        _phi: &Phi,
        found: &mut Findings,
    ) -> Result<(), Memory> {
        tell(found, Spot::At(at), &[(9, self.is_entry(at.func))])
    }

    fn on_inst(
        &self,
        f: &Function,
        at: Point,
        inst: &Inst,
        found: &mut Findings,
    ) -> Result<(), Memory> {
        match call_of(inst) {
            Some(call) => self.on_call(f, at, inst, call, found),
            None => self.on_other(f, at, inst, found),
        }
    }

    fn on_term(
        &self,
        _f: &Function,
        at: Point,
        term: &Term,
        found: &mut Findings,
    ) -> Result<(), Memory> {
        let branches = branches(term) && self.is_entry(at.func);
        tell(found, Spot::At(at), &[(6, branches)])
    }
}
