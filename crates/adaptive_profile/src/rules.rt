//! The rules of the Adaptive Profile at each part of a module (QIR specification, 'Adaptive Profile').
ghost use Rattle.std.specs.Prelude.{◌≡◌, ◌++◌, ◌==◌, ◌&&◌, ◌||◌, not, is_some, nat_lt, slice_get, unwrap_or, Some, None, OnOk};
ghost use Rattle.ir_module.specs.declared.places.Spot.TheVariants as spot;
ghost use Rattle.ir_module.specs.Steps.{InstAt, TermAt};
ghost use Rattle.profile_rules.specs.Adaptive as spec;
ghost use Rattle.profile_rules.specs.Calls.{call_of_kind, called_function, passes};
ghost use Rattle.profile_rules.specs.Walk.{is_return};
ghost use Rattle.profile_rules.specs.code.Listed.{findings_at};
ghost use Rattle.profile_rules.specs.Findings.{broken_by_step};
ghost use Rattle.findings.specs.code.Shown.{shown};
ghost use Rattle.findings.specs.code.Within.{IsWithin};
ghost use Rattle.adaptive_profile.specs.code.Graphs.{is_cyclic, row_at};
ghost use Rattle.adaptive_profile.specs.code.Pairs.{returns_by};
ghost use Rattle.adaptive_profile.specs.code.Ready.{IsReady, rules_of};

use crate::calls::{has_bad_handle, has_bad_label, is_adaptive, is_int_record};
use crate::kinds::{computes, is_other_local, is_return, is_switch, is_wide_local, selects_other};
use crate::tables::Tables;
use findings::{
    Call, Profile, call_of, is_late_init, is_other_body, lacks_labeling_schema,
    lacks_required_flag, lacks_required_number, names_other_profile, tell,
};
use ir_module::{Callee, Function, Inst, Phi, Point, Spot, Term};
use ir_values::{Class, FuncId, Memory, Seq};
use profile_rules::Findings;

fn mark(row: &Seq<bool>, block: usize) -> bool
    ensures { result ≡ row_at (Some row.now) block }
{
    match row.as_slice().get(block) {
        Some(mark) => *mark,
        None => false,
    }
}

/// Whether a rule is broken that a capability lifts.
fn unless(broken: bool, lifted: bool) -> bool
    ensures { result ≡ (broken && not lifted) }
{
    broken && !lifted
}

impl<'a> Tables<'a> {
    fn is_entry(&self, number: FuncId) -> bool
        ensures { result ≡ (number.0 == self.now.entry.0) }
    {
        number == self.entry
    }

    /// Whether a rule for the entry is broken by the function of this number.
    fn of_entry(&self, number: FuncId, broken: bool) -> bool
        ensures { result ≡ ((number.0 == self.now.entry.0) && broken) }
    {
        self.is_entry(number) && broken
    }

    /// Whether the block of this point lies on a cycle.
    fn is_cyclic(&self, at: Point) -> bool
        ensures { result ≡ is_cyclic self.now.cyclic.now at }
    {
        match self.cyclic.get(at.func.0 as usize) {
            Some(row) => mark(row, at.block.0 as usize),
            None => false,
        }
    }

    /// Whether an earlier block of the function ends in a return.
    fn is_behind_return(&self, at: Point) -> bool
        ensures { result ≡ nat_lt (unwrap_or (slice_get self.now.first_returns.now at.func.0) at.block.0) at.block.0 }
    {
        match self.first_returns.get(at.func.0 as usize) {
            Some(first) => *first < at.block.0 as usize,
            None => false,
        }
    }

    fn is_return_behind(&self, at: Point, term: &Term) -> bool
        ensures { result ≡ (is_return term.now
            && nat_lt (unwrap_or (slice_get self.now.first_returns.now at.func.0) at.block.0) at.block.0) }
    {
        is_return(term) && self.is_behind_return(at)
    }

    /// Whether it is a return behind another of its function.
    fn is_later_return(&self, f: &Function, at: Point, term: &Term) -> bool
        requires ready { IsReady self.now }
        requires within { IsWithin self.now.callees.tree.now f.now at }
        ensures { result ≡ spec.is_later_return f.now at (TermAt term.now) }
    {
        self.is_return_behind(at, term)
    }

    /// Whether the call leads back, by calls, to the function that it stands in.
    fn leads_back(&self, caller: FuncId, callee: Callee) -> bool
        ensures { result ≡ returns_by self.now.returning.now caller.0 (spec.callee_number callee) }
    {
        match callee {
            Callee::Func(g) => self.returning.holds((caller.0 as usize, g.0 as usize)),
            Callee::Local(_) => false,
        }
    }

    /// Whether the callee has a body or this class of the profile.
    fn is_known(&self, callee: Callee, class: Option<Class>) -> bool
        ensures { result ≡ (passes (called_function self.now.callees.tree.now callee) (λ g. is_some g.blocks)
            || passes class spec.is_adaptive_class) }
    {
        self.callees.has_body(callee) || is_adaptive(class)
    }

    /// Adds what a call breaks.
    fn on_call(
        &self,
        f: &Function,
        at: Point,
        inst: &Inst,
        call: Call<'_>,
        found: &mut Findings,
    ) -> Result<(), Memory>
        requires ready { IsReady self.now }
        requires call { call_of_kind inst.now.what ≡ Some (shown call) }
        ensures { OnOk result (found.new ≡ found.old
            ++ findings_at (spot.At at) (broken_by_step (rules_of self.now) f.now at (InstAt inst.now))) }
    {
        let entry = self.is_entry(at.func);
        let class = self.callees.class(call.callee);
        let known = self.is_known(call.callee, class);
        let verdicts = [
            (11, !known),
            (12, unless(is_int_record(class), self.capabilities.integers)),
            (13, has_bad_handle(entry, f, call.args)),
            (14, has_bad_label(entry, f, class, call.args)),
            (15, is_late_init(self.entry, at, class)),
            (16, self.leads_back(at.func, call.callee)),
        ];
        tell(found, Spot::At(at), &verdicts)
    }

    /// Adds what an instruction breaks that is no call.
    fn on_other(
        &self,
        f: &Function,
        at: Point,
        inst: &Inst,
        found: &mut Findings,
    ) -> Result<(), Memory>
        requires ready { IsReady self.now }
        requires call { call_of_kind inst.now.what ≡ None }
        ensures { OnOk result (found.new ≡ found.old
            ++ findings_at (spot.At at) (broken_by_step (rules_of self.now) f.now at (InstAt inst.now))) }
    {
        let verdicts = [
            (9, unless(computes(&inst.what), self.capabilities.integers)),
            (10, selects_other(&inst.what)),
        ];
        tell(found, Spot::At(at), &verdicts)
    }
}

impl<'a> Profile for Tables<'a> {
    ghost tree = { λ t. t.callees.tree.now };

    ghost rules = { rules_of };

    ghost IsReady = { IsReady };

    fn on_module(&self, found: &mut Findings) -> Result<(), Memory> {
        let lacks = lacks_required_flag(self.callees.tree.flags.as_slice());
        tell(found, Spot::Module, &[(4, lacks)])
    }

    fn on_function(
        &self,
        number: FuncId,
        f: &Function,
        found: &mut Findings,
    ) -> Result<(), Memory> {
        let other_profile = self.of_entry(number, names_other_profile(f, b"adaptive_profile"));
        let no_schema = self.of_entry(number, lacks_labeling_schema(f));
        let no_number = self.of_entry(number, lacks_required_number(f));
        let other_body = unless(
            is_other_body(self.entry, number, f),
            self.capabilities.functions,
        );
        let verdicts = [
            (1, other_profile),
            (2, no_schema),
            (3, no_number),
            (5, other_body),
        ];
        tell(found, Spot::Func(number), &verdicts)
    }

    fn on_phi(
        &self,
        f: &Function,
        at: Point,
        phi: &Phi,
        found: &mut Findings,
    ) -> Result<(), Memory> {
        let wide = unless(is_wide_local(f, phi.result), self.capabilities.integers);
        let verdicts = [(9, wide), (10, is_other_local(f, phi.result))];
        tell(found, Spot::At(at), &verdicts)
    }

    fn on_inst(
        &self,
        f: &Function,
        at: Point,
        inst: &Inst,
        found: &mut Findings,
    ) -> Result<(), Memory> {
        match call_of(inst) {
            Some(call) => self.on_call(f, at, inst, call, found),
            None => self.on_other(f, at, inst, found),
        }
    }

    fn on_term(
        &self,
        f: &Function,
        at: Point,
        term: &Term,
        found: &mut Findings,
    ) -> Result<(), Memory> {
        let cyclic = unless(self.is_cyclic(at), self.capabilities.backwards);
        let switch = unless(is_switch(term), self.capabilities.switches);
        let later = self.is_later_return(f, at, term);
        let unlifted = unless(later, self.capabilities.returns);
        let verdicts = [(6, cyclic), (7, switch), (8, unlifted)];
        tell(found, Spot::At(at), &verdicts)
    }
}
