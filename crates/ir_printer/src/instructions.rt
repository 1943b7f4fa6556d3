//! Phis, instructions and terminators.
ghost use Rattle.std.specs.Prelude.{◌≡◌, ◌++◌, [], map, if◌then◌else◌, OnOk};
ghost use Rattle.ir_parts.specs.Parts.{text_of};
ghost use Rattle.ir_printer.specs.Instructions as spec;
ghost use Rattle.ir_printer.specs.Pieces.{further};

use crate::writer::Writer;
use ir_module::{Callee, Function, Inst, InstKind, Module, Operand, Phi, Term};
use ir_values::{BinOp, BlockId, Conv, Flags, Int, LocalId, Memory, Pred, Ty, Width};

impl Writer {
    /// Adds an instruction.
    pub(crate) fn inst(&mut self, m: &Module, f: &Function, inst: &Inst) -> Result<(), Memory>
        ensures { OnOk result (self.new ≡ self.old ++ text_of (spec.inst_parts m.now f.now inst.now)) }
    {
        if let Some(x) = inst.result {
            self.local(f, x)?;
            self.write(b" = ")?;
        }
        self.kind(m, f, &inst.what)
    }

    fn kind(&mut self, m: &Module, f: &Function, what: &InstKind) -> Result<(), Memory>
        ensures { OnOk result (self.new ≡ self.old ++ text_of (spec.kind_parts m.now f.now what.now)) }
    {
        match what {
            InstKind::Binary(op, flags, ty, a, b) => {
                self.operation(*op, *flags)?;
                self.pair(m, f, ty, a, b)
            }
            InstKind::Icmp(pred, ty, a, b) => {
                self.comparison(*pred)?;
                self.pair(m, f, ty, a, b)
            }
            InstKind::Convert(conv, ty, a, to) => {
                self.conversion(*conv)?;
                self.typed(m, f, ty, a)?;
                self.write(b" to ")?;
                self.ty(to)
            }
            InstKind::Select(c, ty, a, other, b) => {
                self.write(b"select ")?;
                self.boolean(m, f, c)?;
                self.write(b", ")?;
                self.choices(m, f, ty, a, other, b)
            }
            InstKind::Call(ret, callee, args) => {
                self.called(m, f, ret, *callee)?;
                self.arguments(m, f, args.as_slice())
            }
        }
    }

    /// Adds the word of an operation and its flags, each with a blank behind it.
    fn operation(&mut self, op: BinOp, flags: Flags) -> Result<(), Memory>
        ensures { OnOk result (self.new ≡ self.old ++ text_of (spec.operation_parts op flags)) }
    {
        self.write(operation_word(op))?;
        self.byte(b' ')?;
        self.flags(flags)
    }

    fn flags(&mut self, flags: Flags) -> Result<(), Memory>
        ensures { OnOk result (self.new ≡ self.old ++ text_of (spec.flags_parts flags)) }
    {
        self.flag(flags.nuw, b"nuw ")?;
        self.flag(flags.nsw, b"nsw ")?;
        self.flag(flags.exact, b"exact ")
    }

    fn flag(&mut self, set: bool, word: &[u8]) -> Result<(), Memory>
        ensures { OnOk result (self.new ≡ self.old ++ (if set then word.now else [])) }
    {
        if set { self.write(word) } else { Ok(()) }
    }

    /// Adds `icmp` and the predicate, each with a blank behind it.
    fn comparison(&mut self, pred: Pred) -> Result<(), Memory>
        ensures { OnOk result (self.new ≡ self.old ++ text_of (spec.comparison_parts pred)) }
    {
        self.write(b"icmp ")?;
        self.write(predicate_word(pred))?;
        self.byte(b' ')
    }

    /// Adds the word of a conversion and a blank.
    fn conversion(&mut self, conv: Conv) -> Result<(), Memory>
        ensures { OnOk result (self.new ≡ self.old ++ text_of (spec.conversion_parts conv)) }
    {
        match conv {
            Conv::ZExt => self.write(b"zext "),
            Conv::SExt => self.write(b"sext "),
            Conv::Trunc => self.write(b"trunc "),
        }
    }

    /// Adds `T a, b`.
    fn pair(
        &mut self,
        m: &Module,
        f: &Function,
        ty: &Ty,
        a: &Operand,
        b: &Operand,
    ) -> Result<(), Memory>
        ensures { OnOk result (self.new ≡ self.old ++ text_of (spec.pair_parts m.now f.now ty.now a.now b.now)) }
    {
        self.typed(m, f, ty, a)?;
        self.write(b", ")?;
        self.operand(m, f, ty, b)
    }

    /// Adds `i1` and a condition.
    fn boolean(&mut self, m: &Module, f: &Function, c: &Operand) -> Result<(), Memory>
        ensures { OnOk result (self.new ≡ self.old ++ text_of (spec.boolean_parts m.now f.now c.now)) }
    {
        self.typed(m, f, &Ty::Int(Width::W1), c)
    }

    /// Adds `T a, U b`.
    fn choices(
        &mut self,
        m: &Module,
        f: &Function,
        ty: &Ty,
        a: &Operand,
        other: &Ty,
        b: &Operand,
    ) -> Result<(), Memory>
        ensures { OnOk result (self.new ≡ self.old
            ++ text_of (spec.choices_parts m.now f.now ty.now a.now other.now b.now)) }
    {
        self.typed(m, f, ty, a)?;
        self.write(b", ")?;
        self.typed(m, f, other, b)
    }

    /// Adds `call RET NAME`.
    fn called(&mut self, m: &Module, f: &Function, ret: &Ty, callee: Callee) -> Result<(), Memory>
        ensures { OnOk result (self.new ≡ self.old ++ text_of (spec.called_parts m.now f.now ret.now callee)) }
    {
        self.write(b"call ")?;
        self.ty(ret)?;
        self.byte(b' ')?;
        match callee {
            Callee::Func(g) => self.function_name(m, g),
            Callee::Local(x) => self.local(f, x),
        }
    }

    /// Adds `(T a, T b)`.
    fn arguments(&mut self, m: &Module, f: &Function, args: &[(Ty, Operand)]) -> Result<(), Memory>
        ensures { OnOk result (self.new ≡ self.old ++ text_of (spec.arguments_parts m.now f.now args.now)) }
    {
        self.byte(b'(')?;
        if let [first, rest @ ..] = args {
            self.typed(m, f, &first.0, &first.1)?;
            self.further_arguments(m, f, rest)?;
        }
        self.byte(b')')
    }

    /// Adds arguments, each behind a comma.
    fn further_arguments(
        &mut self,
        m: &Module,
        f: &Function,
        mut args: &[(Ty, Operand)],
    ) -> Result<(), Memory>
        ensures { OnOk result (self.new ≡ self.old ++ text_of (further (map (spec.argument_parts m.now f.now) args.entry.now))) }
    {
        while let [arg, rest @ ..] = args {
            self.write(b", ")?;
            self.typed(m, f, &arg.0, &arg.1)?;
            args = rest;
        }
        Ok(())
    }

    /// Adds a phi.
    pub(crate) fn phi(&mut self, m: &Module, f: &Function, phi: &Phi) -> Result<(), Memory>
        ensures { OnOk result (self.new ≡ self.old ++ text_of (spec.phi_parts m.now f.now phi.now)) }
    {
        self.local(f, phi.result)?;
        self.write(b" = phi ")?;
        self.typed_entries(m, f, phi.result, phi.entries.as_slice())
    }

    /// Adds the entries of a phi behind the type of its result; behind `void` where no local has the number.
    fn typed_entries(
        &mut self,
        m: &Module,
        f: &Function,
        x: LocalId,
        entries: &[(Operand, BlockId)],
    ) -> Result<(), Memory>
        ensures { OnOk result (self.new ≡ self.old
            ++ text_of (spec.entries_parts m.now f.now (spec.local_type f.now x) entries.now)) }
    {
        match f.locals.as_slice().get(x.0 as usize) {
            Some(local) => self.entries(m, f, &local.1, entries),
            None => self.entries(m, f, &Ty::Void, entries),
        }
    }

    /// Adds the type and the entries of a phi.
    fn entries(
        &mut self,
        m: &Module,
        f: &Function,
        ty: &Ty,
        entries: &[(Operand, BlockId)],
    ) -> Result<(), Memory>
        ensures { OnOk result (self.new ≡ self.old ++ text_of (spec.entries_parts m.now f.now ty.now entries.now)) }
    {
        self.ty(ty)?;
        self.byte(b' ')?;
        if let [first, rest @ ..] = entries {
            self.entry(m, f, ty, first)?;
            self.further_entries(m, f, ty, rest)?;
        }
        Ok(())
    }

    /// Adds entries of a phi, each behind a comma.
    fn further_entries(
        &mut self,
        m: &Module,
        f: &Function,
        ty: &Ty,
        mut entries: &[(Operand, BlockId)],
    ) -> Result<(), Memory>
        ensures { OnOk result (self.new ≡ self.old ++ text_of (further (map (spec.entry_parts m.now f.now ty.now) entries.entry.now))) }
    {
        while let [entry, rest @ ..] = entries {
            self.write(b", ")?;
            self.entry(m, f, ty, entry)?;
            entries = rest;
        }
        Ok(())
    }

    /// Adds `[ a, %b ]`.
    fn entry(
        &mut self,
        m: &Module,
        f: &Function,
        ty: &Ty,
        entry: &(Operand, BlockId),
    ) -> Result<(), Memory>
        ensures { OnOk result (self.new ≡ self.old ++ text_of (spec.entry_parts m.now f.now ty.now entry.now)) }
    {
        self.write(b"[ ")?;
        self.operand(m, f, ty, &entry.0)?;
        self.write(b", ")?;
        self.block_name(f, entry.1)?;
        self.write(b" ]")
    }

    /// Adds a terminator.
    pub(crate) fn term(&mut self, m: &Module, f: &Function, term: &Term) -> Result<(), Memory>
        ensures { OnOk result (self.new ≡ self.old ++ text_of (spec.term_parts m.now f.now term.now)) }
    {
        match term {
            Term::RetVoid => self.write(b"ret void"),
            Term::Ret(ty, a) => {
                self.write(b"ret ")?;
                self.typed(m, f, ty, a)
            }
            Term::Br(b) => {
                self.write(b"br ")?;
                self.target(f, *b)
            }
            Term::CondBr(c, on_true, on_false) => {
                self.write(b"br ")?;
                self.boolean(m, f, c)?;
                self.write(b", ")?;
                self.targets(f, *on_true, *on_false)
            }
            Term::Switch(ty, a, default, cases) => {
                self.write(b"switch ")?;
                self.switched(m, f, ty, a, *default)?;
                self.byte(b' ')?;
                self.table(f, cases.as_slice())
            }
        }
    }

    /// Adds `label %a, label %b`.
    fn targets(&mut self, f: &Function, on_true: BlockId, on_false: BlockId) -> Result<(), Memory>
        ensures { OnOk result (self.new ≡ self.old ++ text_of (spec.targets_parts f.now on_true on_false)) }
    {
        self.target(f, on_true)?;
        self.write(b", ")?;
        self.target(f, on_false)
    }

    /// Adds what a switch looks at, and its default.
    fn switched(
        &mut self,
        m: &Module,
        f: &Function,
        ty: &Ty,
        a: &Operand,
        default: BlockId,
    ) -> Result<(), Memory>
        ensures { OnOk result (self.new ≡ self.old ++ text_of (spec.switched_parts m.now f.now ty.now a.now default)) }
    {
        self.typed(m, f, ty, a)?;
        self.write(b", ")?;
        self.target(f, default)
    }

    /// Adds the cases of a switch between brackets.
    fn table(&mut self, f: &Function, cases: &[(Int, BlockId)]) -> Result<(), Memory>
        ensures { OnOk result (self.new ≡ self.old ++ text_of (spec.table_parts f.now cases.now)) }
    {
        self.write(b"[ ")?;
        self.cases(f, cases)?;
        self.byte(b']')
    }

    /// Adds cases of a switch, each with a blank behind it.
    fn cases(&mut self, f: &Function, mut cases: &[(Int, BlockId)]) -> Result<(), Memory>
        ensures { OnOk result (self.new ≡ self.old ++ text_of (spec.cases_parts f.now cases.entry.now)) }
    {
        while let [case, rest @ ..] = cases {
            self.case(f, case)?;
            self.byte(b' ')?;
            cases = rest;
        }
        Ok(())
    }

    /// Adds a case, with the type of its own integer.
    fn case(&mut self, f: &Function, case: &(Int, BlockId)) -> Result<(), Memory>
        ensures { OnOk result (self.new ≡ self.old ++ text_of (spec.case_parts f.now case.now)) }
    {
        self.ty(&Ty::Int(case.0.width()))?;
        self.byte(b' ')?;
        self.int(&case.0)?;
        self.write(b", ")?;
        self.target(f, case.1)
    }

    /// Adds `label %b`.
    fn target(&mut self, f: &Function, b: BlockId) -> Result<(), Memory>
        ensures { OnOk result (self.new ≡ self.old ++ text_of (spec.target_parts f.now b)) }
    {
        self.write(b"label ")?;
        self.block_name(f, b)
    }
}

fn operation_word(op: BinOp) -> &'static [u8]
    ensures { result.now ≡ spec.operation_word op }
{
    match op {
        BinOp::Add => b"add",
        BinOp::Sub => b"sub",
        BinOp::Mul => b"mul",
        BinOp::UDiv => b"udiv",
        BinOp::SDiv => b"sdiv",
        BinOp::URem => b"urem",
        BinOp::SRem => b"srem",
        BinOp::Shl => b"shl",
        BinOp::LShr => b"lshr",
        BinOp::AShr => b"ashr",
        BinOp::And => b"and",
        BinOp::Or => b"or",
        BinOp::Xor => b"xor",
    }
}

fn predicate_word(pred: Pred) -> &'static [u8]
    ensures { result.now ≡ spec.predicate_word pred }
{
    match pred {
        Pred::Eq => b"eq",
        Pred::Ne => b"ne",
        Pred::Ugt => b"ugt",
        Pred::Uge => b"uge",
        Pred::Ult => b"ult",
        Pred::Ule => b"ule",
        Pred::Sgt => b"sgt",
        Pred::Sge => b"sge",
        Pred::Slt => b"slt",
        Pred::Sle => b"sle",
    }
}
