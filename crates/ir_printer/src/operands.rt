//! Names by their numbers, constants and operands.
ghost use Rattle.std.specs.Prelude.{◌≡◌, ◌++◌, [], ◌∷◌, slice_get, OnOk};
ghost use Rattle.ir_values.specs.Int.{signed};
ghost use Rattle.ir_values.specs.declared.int.Width.TheVariants.{W64};
ghost use Rattle.ir_parts.specs.Parts.{text_of};
ghost use Rattle.ir_printer.specs.Operands as spec;

use crate::writer::Writer;
use ir_module::{Constant, Function, Module, Operand};
use ir_values::{BlockId, FuncId, GlobalId, Int, LocalId, Memory, Name, Ty, Value, Width};

impl Writer {
    /// Adds a local name with its `%`.
    pub(crate) fn local_name(&mut self, name: &Name) -> Result<(), Memory>
        ensures { OnOk result (self.new ≡ self.old ++ text_of (spec.local_token name.now ∷ [])) }
    {
        self.byte(b'%')?;
        self.name(name)
    }

    /// Adds a global name with its `@`.
    pub(crate) fn global_name(&mut self, name: &Name) -> Result<(), Memory>
        ensures { OnOk result (self.new ≡ self.old ++ text_of (spec.global_token name.now ∷ [])) }
    {
        self.byte(b'@')?;
        self.name(name)
    }

    /// Adds the name of a local, and an empty one where no local has the number.
    pub(crate) fn local(&mut self, f: &Function, x: LocalId) -> Result<(), Memory>
        ensures { OnOk result (self.new ≡ self.old ++ text_of (spec.local_part f.now x ∷ [])) }
    {
        match f.locals.as_slice().get(x.0 as usize) {
            Some(local) => self.local_name(&local.0),
            None => self.write(b"%\"\""),
        }
    }

    /// Adds the name of a function, and an empty one where no function has the number.
    pub(crate) fn function_name(&mut self, m: &Module, f: FuncId) -> Result<(), Memory>
        ensures { OnOk result (self.new ≡ self.old ++ text_of (spec.function_part m.now f ∷ [])) }
    {
        match m.funcs.as_slice().get(f.0 as usize) {
            Some(function) => self.global_name(&function.name),
            None => self.write(b"@\"\""),
        }
    }

    /// Adds the name of a block, and an empty one where no block has the number.
    pub(crate) fn block_name(&mut self, f: &Function, b: BlockId) -> Result<(), Memory>
        ensures { OnOk result (self.new ≡ self.old ++ text_of (spec.block_part f.now b ∷ [])) }
    {
        match &f.blocks {
            Some(blocks) => match blocks.as_slice().get(b.0 as usize) {
                Some(block) => self.local_name(&block.name),
                None => self.write(b"%\"\""),
            },
            None => self.write(b"%\"\""),
        }
    }

    /// Adds a type and an operand of it.
    pub(crate) fn typed(
        &mut self,
        m: &Module,
        f: &Function,
        ty: &Ty,
        operand: &Operand,
    ) -> Result<(), Memory>
        ensures { OnOk result (self.new ≡ self.old ++ text_of (spec.typed_parts m.now f.now ty.now operand.now)) }
    {
        self.ty(ty)?;
        self.byte(b' ')?;
        self.operand(m, f, ty, operand)
    }

    /// Adds an operand of this type.
    pub(crate) fn operand(
        &mut self,
        m: &Module,
        f: &Function,
        ty: &Ty,
        operand: &Operand,
    ) -> Result<(), Memory>
        ensures { OnOk result (self.new ≡ self.old ++ text_of (spec.operand_parts m.now f.now ty.now operand.now)) }
    {
        match operand {
            Operand::Const(value) => self.value(m, ty, value),
            Operand::Local(x) => self.local(f, *x),
        }
    }

    fn value(&mut self, m: &Module, ty: &Ty, value: &Value) -> Result<(), Memory>
        ensures { OnOk result (self.new ≡ self.old ++ text_of (spec.value_parts m.now ty.now value.now)) }
    {
        match value {
            Value::Int(i) => self.int(i),
            Value::Double(spelling) => self.write(spelling.as_slice()),
            Value::Id(n) => self.handle(ty, *n),
            Value::Label(g) => self.label_of(m, *g),
            Value::NoLabel => self.write(b"null"),
            Value::Func(f) => self.function_name(m, *f),
            Value::Alloc(_) | Value::Measured(_) | Value::One | Value::Zero => Ok(()),
        }
    }

    /// Adds an integer: `true` or `false` where it has one bit, else its signed decimal.
    pub(crate) fn int(&mut self, i: &Int) -> Result<(), Memory>
        ensures { OnOk result (self.new ≡ self.old ++ text_of (spec.int_part i.now ∷ [])) }
    {
        match i.width() {
            Width::W1 => self.bit(u128::from(i.bits())),
            _ => self.signed(i128::from(i.signed())),
        }
    }

    /// Adds an integer of one bit.
    pub(crate) fn bit(&mut self, n: u128) -> Result<(), Memory>
        ensures { OnOk result (self.new ≡ self.old ++ text_of (spec.bit_part n ∷ [])) }
    {
        if n == 0 {
            self.write(b"false")
        } else {
            self.write(b"true")
        }
    }

    /// Adds a qubit or a result by its number.
    fn handle(&mut self, ty: &Ty, n: u64) -> Result<(), Memory>
        ensures { OnOk result (self.new ≡ self.old ++ text_of (spec.handle_parts ty.now n)) }
    {
        if n == 0 {
            self.write(b"null")
        } else {
            self.address(ty, n)
        }
    }

    fn address(&mut self, ty: &Ty, n: u64) -> Result<(), Memory>
        ensures { OnOk result (self.new ≡ self.old ++ text_of (spec.address_parts ty.now n)) }
    {
        self.write(b"inttoptr (i64 ")?;
        self.signed(i128::from(signed_number(n)))?;
        self.write(b" to ")?;
        self.ty(ty)?;
        self.byte(b')')
    }

    /// Adds the address of a constant's bytes, and nothing where no constant has the number.
    fn label_of(&mut self, m: &Module, g: GlobalId) -> Result<(), Memory>
        ensures { OnOk result (self.new ≡ self.old ++ text_of (spec.label_of (slice_get m.now.globals g.0))) }
    {
        match m.globals.as_slice().get(g.0 as usize) {
            Some(constant) => self.address_of(constant),
            None => Ok(()),
        }
    }

    fn address_of(&mut self, constant: &Constant) -> Result<(), Memory>
        ensures { OnOk result (self.new ≡ self.old ++ text_of (spec.label_parts constant.now)) }
    {
        self.arrays(constant.bytes.len())?;
        self.write(b"* ")?;
        self.global_name(&constant.name)?;
        self.write(b", i32 0, i32 0)")
    }

    /// Adds the beginning of the address of so many bytes.
    fn arrays(&mut self, length: usize) -> Result<(), Memory>
        ensures { OnOk result (self.new ≡ self.old ++ text_of (spec.address_head length)) }
    {
        self.write(b"getelementptr inbounds (")?;
        self.array(length)?;
        self.write(b", ")?;
        self.array(length)
    }

    /// Adds the type of arrays of so many bytes.
    pub(crate) fn array(&mut self, length: usize) -> Result<(), Memory>
        ensures { OnOk result (self.new ≡ self.old ++ text_of (spec.array_parts length)) }
    {
        self.byte(b'[')?;
        self.number(length as u128)?;
        self.write(b" x i8]")
    }
}

/// The value of 64 bits in two's complement.
fn signed_number(n: u64) -> i64
    ensures { result ≡ signed (record { width = W64; bits = n }) }
{
    match Int::new(Width::W64, n) {
        Some(i) => i.signed(),
        None => unreachable!(),
    }
}
