//! Reading headers, type lines and constants.
ghost use Rattle.std.specs.Prelude.{◌≡◌, [], ◌∷◌};
ghost use Rattle.grammar.specs.Grammar.{begins_with};
ghost use Rattle.grammar.specs.code.Gives.{Gives};
ghost use Rattle.ir_tokens.specs.Tokens.{tokens};
ghost use Rattle.ir_grammar.specs.Module as spec;
ghost use Rattle.ir_grammar.specs.code.DecidedItems.{header_firsts};

use grammar::Cursor;
use ir_code::{SoLong, Stop, array_type, global, local};
use ir_grammar::ItemSyntax;
use ir_tokens::{Kind, Token};

// Headers and type lines.

/// The name of the source file; its string is answered.
#[tactic(auto, unfolding(ir_grammar::specs::Module::source_name))]
fn source_name<'a>(cursor: &mut Cursor<'a, Token>) -> Result<Token, Stop<'a>>
    ensures { Gives spec.source_name cursor.old cursor.new result }
{
    cursor.take(Kind::SourceFilename)?;
    cursor.take(Kind::Equals)?;
    cursor.take(Kind::Str)
}

/// A line on the target; its string is answered.
#[tactic(auto, unfolding(ir_grammar::specs::Module::target_line))]
fn target_line<'a>(cursor: &mut Cursor<'a, Token>) -> Result<Token, Stop<'a>>
    ensures { Gives spec.target_line cursor.old cursor.new result }
{
    cursor.take(Kind::Target)?;
    cursor.take_one_of(&[Kind::Triple, Kind::DataLayout])?;
    cursor.take(Kind::Equals)?;
    cursor.take(Kind::Str)
}

/// A type line; its name is answered.
#[tactic(auto, unfolding(ir_grammar::specs::Module::type_line))]
fn type_line<'a>(cursor: &mut Cursor<'a, Token>) -> Result<Token, Stop<'a>>
    ensures { Gives spec.type_line cursor.old cursor.new result }
{
    let name = local(cursor)?;
    cursor.take(Kind::Equals)?;
    cursor.take(Kind::TypeWord)?;
    cursor.take(Kind::Opaque)?;
    Ok(name)
}

/// Whether a header or a type line begins here.
pub(crate) fn header_comes(cursor: &Cursor<'_, Token>) -> bool
    ensures { result ≡ begins_with tokens header_firsts cursor.now.rest.now }
{
    cursor.next_is_one_of(&[
        Kind::SourceFilename,
        Kind::Target,
        Kind::Local,
        Kind::QubitName,
        Kind::ResultName,
    ])
}

/// A header or a type line, of which the tree keeps nothing.
#[tactic(auto, unfolding(ir_grammar::specs::Module::header, ir_grammar::specs::Module::source_name, ir_grammar::specs::Module::target_line))]
pub(crate) fn header<'a>(cursor: &mut Cursor<'a, Token>) -> Result<ItemSyntax, Stop<'a>>
    ensures { Gives spec.header cursor.old cursor.new result }
{
    if cursor.next_is(Kind::SourceFilename) {
        source_name(cursor)?;
    } else if cursor.next_is(Kind::Target) {
        target_line(cursor)?;
    } else {
        type_line(cursor)?;
    }
    Ok(ItemSyntax::Aside)
}

// Constants.

/// A byte string of so many bytes.
#[tactic(auto, unfolding(ir_grammar::specs::Module::bytes_of))]
fn bytes_of<'a>(bytes: u128, cursor: &mut Cursor<'a, Token>) -> Result<Token, Stop<'a>>
    ensures { Gives (spec.bytes_of bytes) cursor.old cursor.new result }
{
    cursor.take_ruled(&[Kind::ByteStr], &SoLong { bytes })
}

/// An array type, and a byte string of as many bytes.
#[tactic(auto, unfolding(ir_grammar::specs::Module::sized_bytes))]
fn sized_bytes<'a>(cursor: &mut Cursor<'a, Token>) -> Result<Token, Stop<'a>>
    ensures { Gives spec.sized_bytes cursor.old cursor.new result }
{
    let length = array_type(cursor)?;
    bytes_of(length, cursor)
}

/// The alignment of a constant, if it is told.
#[tactic(auto, unfolding(ir_grammar::specs::Module::alignment, ir_grammar::specs::Words::nat))]
fn alignment<'a>(cursor: &mut Cursor<'a, Token>) -> Result<Option<u128>, Stop<'a>>
    ensures { Gives spec.alignment cursor.old cursor.new result }
{
    if !cursor.next_is(Kind::Comma) {
        return Ok(None);
    }
    cursor.take(Kind::Comma)?;
    cursor.take(Kind::Align)?;
    Ok(Some(cursor.take(Kind::Nat)?.number.value()))
}

/// The words of a constant up to `constant`, which is answered.
#[tactic(auto, unfolding(ir_grammar::specs::Module::constant_words))]
fn constant_words<'a>(cursor: &mut Cursor<'a, Token>) -> Result<Token, Stop<'a>>
    ensures { Gives spec.constant_words cursor.old cursor.new result }
{
    cursor.take_any_of(&[Kind::Private, Kind::Internal])?;
    cursor.take_any_of(&[Kind::UnnamedAddr, Kind::LocalUnnamedAddr])?;
    cursor.take(Kind::Constant)
}

/// A constant.
#[tactic(auto, unfolding(ir_grammar::specs::Module::constant_line))]
pub(crate) fn constant_line<'a>(cursor: &mut Cursor<'a, Token>) -> Result<ItemSyntax, Stop<'a>>
    ensures { Gives spec.constant_line cursor.old cursor.new result }
{
    let name = global(cursor)?;
    cursor.take(Kind::Equals)?;
    constant_words(cursor)?;
    let bytes = sized_bytes(cursor)?;
    alignment(cursor)?;
    Ok(ItemSyntax::Constant(name, bytes))
}
