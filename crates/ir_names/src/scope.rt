//! What names stand for within a function.
ghost use Rattle.std.specs.Prelude.{◌≡◌, IfOk};
ghost use Rattle.ir_names.specs.Faults.{unknown};
ghost use Rattle.ir_names.specs.Operands.{is_size, label_faults};
ghost use Rattle.ir_names.specs.Sense.{global_id, func_id, local_id, block_id};
ghost use Rattle.ir_names.specs.code.Answers.{Gives};
ghost use Rattle.ir_names.specs.code.Seen.{seen};

use crate::fault::{NameCode, Stop};
use crate::name::written;
use crate::numbers::Numbers;
use crate::outer::Outer;
use ir_tokens::{Token, name_at, string_at};
use ir_values::{BlockId, Bytes, FuncId, GlobalId, LocalId, Memory, Name};

/// The names that hold in one function.
#[derive(Drop)]
pub struct Locals {
    pub values: Numbers<Name>,
    pub labels: Numbers<Name>,
}

/// All names that hold within a function.
#[derive(Clone, Copy)]
pub struct Scope<'a> {
    pub outer: Outer<'a>,
    pub locals: &'a Locals,
}

/// A number that fits 32 bits. No text is so long that one doesn't.
pub(crate) fn narrow(n: u64) -> Result<u32, Memory>
    ensures { IfOk result (λ m. m ≡ n) }
{
    if n < 0x1_0000_0000 {
        Ok(n as u32)
    } else {
        Err(Memory)
    }
}

impl Scope<'_> {
    /// The name that a token spells.
    pub(crate) fn name(&self, token: &Token) -> Result<Name, Memory>
        ensures { IfOk result (λ n. n ≡ (seen self.now).name token.now) }
    {
        name_at(self.outer.alloc, self.outer.text, *token)
    }

    /// The bytes that a string stands for.
    pub(crate) fn string(&self, token: &Token) -> Result<Bytes, Memory>
        ensures { IfOk result (λ s. s ≡ (seen self.now).string token.now) }
    {
        string_at(self.outer.alloc, self.outer.text, *token)
    }

    /// The local value of a name.
    pub(crate) fn value(&self, token: &Token) -> Result<LocalId, Stop>
        ensures { let s = seen self.now in let n = s.value (s.name token.now) in Gives (unknown token.now n) (local_id n) result }
    {
        let name = self.name(token)?;
        match self.locals.values.number(&name) {
            Some(n) => Ok(LocalId(n)),
            None => Err(Stop::at(NameCode::Unknown, token)),
        }
    }

    /// The block of a label's name.
    pub(crate) fn target(&self, token: &Token) -> Result<BlockId, Stop>
        ensures { let s = seen self.now in let n = s.label (s.name token.now) in Gives (unknown token.now n) (block_id n) result }
    {
        let name = self.name(token)?;
        match self.locals.labels.number(&name) {
            Some(n) => Ok(BlockId(narrow(n)?)),
            None => Err(Stop::at(NameCode::Unknown, token)),
        }
    }

    /// The function of a name.
    pub(crate) fn function(&self, token: &Token) -> Result<FuncId, Stop>
        ensures { let s = seen self.now in let n = s.function (s.name token.now) in Gives (unknown token.now n) (func_id n) result }
    {
        let name = self.name(token)?;
        match self.outer.globals.functions.number(&name) {
            Some(n) => Ok(FuncId(narrow(n)?)),
            None => Err(Stop::at(NameCode::Unknown, token)),
        }
    }

    /// Whether the constant of a number has so many bytes.
    fn has_size(&self, constant: u64, size: u128) -> bool
        ensures { result ≡ is_size ((seen self.now).size constant) size }
    {
        let constants = self.outer.globals.constants.list.as_slice();
        match constants.get(constant as usize) {
            Some(found) => found.bytes.len() as u128 == size,
            None => false,
        }
    }

    /// The constant of a label expression, which gives its length behind the word `word`.
    pub(crate) fn label_of(
        &self,
        word: &Token,
        length: u128,
        token: &Token,
    ) -> Result<GlobalId, Stop>
        ensures { let s = seen self.now in let n = s.constant (s.name token.now) in Gives (label_faults s word.now length token.now n) (global_id n) result }
    {
        let name = self.name(token)?;
        match self.outer.globals.constants.table.number(&name) {
            None => Err(Stop::at(NameCode::Unknown, token)),
            Some(n) => {
                if self.has_size(n, length) {
                    Ok(GlobalId(narrow(n)?))
                } else {
                    Err(Stop::at(NameCode::StringLength, word))
                }
            }
        }
    }

    /// The group of a token exists.
    pub(crate) fn group(&self, token: &Token) -> Result<(), Stop>
        ensures { Gives (unknown token.now ((seen self.now).group token.now)) tt result }
    {
        match self.outer.globals.groups.number(&written(token)) {
            Some(_) => Ok(()),
            None => Err(Stop::at(NameCode::Unknown, token)),
        }
    }
}
