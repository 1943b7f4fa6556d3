//! Names of local names and blocks.
ghost use Rattle.std.specs.Prelude.{◌≡◌, ◌++◌, decimal, IfOk};
ghost use Rattle.ir_values.specs.declared.name.Name.TheVariants as name;
ghost use Rattle.residue.specs.Printed.{block_name};

use called_functions::text;
use ir_values::{Memory, Name, push_decimal};
use std::alloc::Global;

/// A name of these bytes and the digits of a number.
pub(crate) fn numbered(alloc: Global, word: &[u8], number: u64) -> Result<Name, Memory>
    ensures { IfOk result (λ n. n ≡ name.Text (word.now ++ decimal number)) }
{
    let mut bytes = text(alloc, word)?;
    push_decimal(&mut bytes, u128::from(number))?;
    Ok(Name::Text(bytes))
}

/// The name of the block of a part.
pub(crate) fn name_of_block(alloc: Global, number: u32) -> Result<Name, Memory>
    ensures { IfOk result (λ n. n ≡ name.Text (block_name number)) }
{
    if number == 0 {
        Ok(Name::Text(text(alloc, b"entry")?))
    } else {
        numbered(alloc, b"b", u64::from(number))
    }
}
