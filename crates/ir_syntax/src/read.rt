//! Reading whole texts.
ghost use Rattle.std.specs.Prelude.{◌≡◌, ◌<◌, ◌-◌, ◌^◌, length, slice_get, IfSome};
ghost use Rattle.ir_syntax.specs.Refusals as spec;
ghost use Rattle.ir_syntax.specs.Texts.{Reads};

use crate::fault::{SyntaxFault, SyntaxStop};
use crate::items::read_items;
use crate::refusal::code_of;
use grammar::{Fault, Refusal};
use ir_grammar::ItemSyntax;
use ir_text::LexError;
use ir_tokens::{Rule, Token, scan, scanned_tokens_are_one};
use ir_values::Seq;
use std::alloc::Global;

/// What is said of the first fault of the tokens of a text, which so many of them stand before. Where the text goes on
/// with no token, `wrong` says why.
fn told(wrong: Option<LexError>, fault: Fault<Rule>, number: usize, tokens: &[Token]) -> SyntaxFault
    requires { number < length tokens.now }
    ensures { IfSome (slice_get tokens.now number) (λ t. result ≡ record { code = spec.code_of wrong fault t.kind; place = t.place }) }
{
    let token = tokens[number];
    SyntaxFault {
        code: code_of(wrong, fault, token.kind),
        place: token.place,
    }
}

/// The syntax tree of a module text of fewer than 4,294,967,295 bytes, or its first fault: by its code, and by the first
/// byte of the token at which it stands, or the byte that is wrong where the text goes on with no token (LLVM Language
/// Reference, 'High Level Structure'). Names, strings and doubles are still tokens in the tree, which spell themselves at
/// their places in the text. Whether names have definitions isn't looked at.
///
/// # Cost
///
/// It is linear in the length of the text. Tokens and tree live side by side until it ends.
pub fn read_syntax(alloc: Global, text: &[u8]) -> Result<Seq<ItemSyntax>, SyntaxStop>
    requires { length text.now < 2 ^ 32 - 1 }
    ensures { Reads text.now result }
{
    scanned_tokens_are_one();
    let scanned = scan(alloc, text)?;
    let tokens = scanned.tokens.as_slice();
    match read_items(alloc, tokens) {
        Ok(items) => Ok(items),
        Err(Refusal::NoMemory) => Err(SyntaxStop::Memory),
        Err(Refusal::Refused(fault, number)) => Err(SyntaxStop::Refused(told(
            scanned.fault,
            fault,
            number,
            tokens,
        ))),
    }
}
