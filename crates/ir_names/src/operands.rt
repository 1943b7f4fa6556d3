//! Operands.
ghost use Rattle.std.specs.Prelude.{◌≡◌, IfOk};
ghost use Rattle.ir_names.specs.Operands.{operand_faults, operand_of, double_of};
ghost use Rattle.ir_names.specs.code.Answers.{Gives};
ghost use Rattle.ir_names.specs.code.Seen.{seen};

use crate::fault::Stop;
use crate::scope::Scope;
use ir_grammar::OperandSyntax;
use ir_module::Operand;
use ir_tokens::{Token, spelling};
use ir_values::{Memory, Seq, Token as Double, Value};

impl Scope<'_> {
    /// A double by its spelling.
    fn double(&self, token: &Token) -> Result<Value, Memory>
        ensures { IfOk result (λ v. v ≡ double_of ((seen self.now).spelling token.now)) }
    {
        let bytes = Seq::from_slice(self.outer.alloc, spelling(self.outer.text, token.place))?;
        match Double::new(bytes) {
            Some(double) => Ok(Value::Double(double)),
            None => Ok(Value::NoLabel),
        }
    }

    /// An operand.
    pub(crate) fn operand(&self, operand: &OperandSyntax) -> Result<Operand, Stop>
        ensures { Gives (operand_faults (seen self.now) operand.now) (operand_of (seen self.now) operand.now) result }
    {
        Ok(match operand {
            OperandSyntax::Integer(i) => Operand::Const(Value::Int(*i)),
            OperandSyntax::Handle(n) => Operand::Const(Value::Id(*n)),
            OperandSyntax::Function(name) => Operand::Const(Value::Func(self.function(name)?)),
            OperandSyntax::Local(name) => Operand::Local(self.value(name)?),
            OperandSyntax::Double(token) => Operand::Const(self.double(token)?),
            OperandSyntax::NoLabel => Operand::Const(Value::NoLabel),
            OperandSyntax::LabelOf(word, length, name) => {
                Operand::Const(Value::Label(self.label_of(word, *length, name)?))
            }
        })
    }
}
