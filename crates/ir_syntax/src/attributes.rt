//! Reading groups of attributes.
ghost use Rattle.std.specs.Prelude.{◌≡◌, false, ◌∷◌};
ghost use Rattle.grammar.specs.Grammar.{begins_with};
ghost use Rattle.grammar.specs.code.Gives.{Gives};
ghost use Rattle.ir_tokens.specs.Tokens.{tokens};
ghost use Rattle.ir_tokens.specs.code.Kinds.{code};
ghost use Rattle.ir_tokens.specs.declared.kind.Kind.TheVariants as kind;
ghost use Rattle.ir_grammar.specs.Forms.{one_of};
ghost use Rattle.ir_grammar.specs.Words.{words};
ghost use Rattle.ir_grammar.specs.Module as spec;
ghost use Rattle.ir_grammar.specs.code.DecidedItems.{attribute_starts};

use grammar::{Cursor, Part, repeat};
use ir_code::{Stop, group};
use ir_grammar::{AttrSyntax, ItemSyntax};
use ir_tokens::{Kind, Rule, Token};
use std::alloc::Global;

/// The kinds of all words: those of the language, and others.
const WORDS: [Kind; 78] = [
    Kind::OtherWord,
    Kind::LeftOutWord,
    Kind::SameWidth,
    Kind::OddWidth,
    Kind::SourceFilename,
    Kind::Target,
    Kind::Triple,
    Kind::DataLayout,
    Kind::TypeWord,
    Kind::Opaque,
    Kind::Private,
    Kind::Internal,
    Kind::UnnamedAddr,
    Kind::LocalUnnamedAddr,
    Kind::Constant,
    Kind::X,
    Kind::Align,
    Kind::Declare,
    Kind::Define,
    Kind::Attributes,
    Kind::Null,
    Kind::True,
    Kind::False,
    Kind::DsoLocal,
    Kind::WriteOnly,
    Kind::ReadOnly,
    Kind::NoCapture,
    Kind::I1,
    Kind::I8,
    Kind::I16,
    Kind::I32,
    Kind::I64,
    Kind::DoubleType,
    Kind::Void,
    Kind::Phi,
    Kind::Add,
    Kind::Sub,
    Kind::Mul,
    Kind::UDiv,
    Kind::SDiv,
    Kind::URem,
    Kind::SRem,
    Kind::Shl,
    Kind::LShr,
    Kind::AShr,
    Kind::And,
    Kind::Or,
    Kind::Xor,
    Kind::Icmp,
    Kind::Eq,
    Kind::Ne,
    Kind::Ugt,
    Kind::Uge,
    Kind::Ult,
    Kind::Ule,
    Kind::Sgt,
    Kind::Sge,
    Kind::Slt,
    Kind::Sle,
    Kind::ZExt,
    Kind::SExt,
    Kind::Trunc,
    Kind::To,
    Kind::Select,
    Kind::Tail,
    Kind::NoTail,
    Kind::Call,
    Kind::Ret,
    Kind::Br,
    Kind::LabelWord,
    Kind::Switch,
    Kind::IntToPtr,
    Kind::GetElementPtr,
    Kind::InBounds,
    Kind::Nuw,
    Kind::Nsw,
    Kind::Exact,
    Kind::Ptr,
];

/// Whether a word comes next.
fn word_comes(cursor: &Cursor<'_, Token>) -> bool
    ensures { result ≡ begins_with tokens words cursor.now.rest.now }
{
    cursor.next_is_one_of(&WORDS)
}

/// A word.
fn word<'a>(cursor: &mut Cursor<'a, Token>) -> Result<Token, Stop<'a>>
    ensures { Gives (one_of words) cursor.old cursor.new result }
{
    cursor.take_one_of(&WORDS)
}

/// What an attribute is set to, if anything.
#[tactic(auto, unfolding(ir_grammar::specs::Module::setting))]
fn setting<'a>(cursor: &mut Cursor<'a, Token>) -> Result<Option<Token>, Stop<'a>>
    ensures { Gives spec.setting cursor.old cursor.new result }
{
    if !cursor.next_is(Kind::Equals) {
        return Ok(None);
    }
    cursor.take(Kind::Equals)?;
    Ok(Some(cursor.take(Kind::Str)?))
}

/// The attributes of a group.
struct Attributes;

impl Part for Attributes {
    type Token = Token;

    type Kind = Kind;

    type Rule = Rule;

    type Item = AttrSyntax;

    ghost kind = { λ t. t.kind };

    ghost code = { code };

    ghost grammar = { λ _. spec.attribute };

    ghost kinds = { λ _. kind.Str ∷ words };

    ghost mark = { false };

    ghost starts = { λ _. attribute_starts };

    fn begins(&self, cursor: &Cursor<'_, Token>) -> bool {
        cursor.next_is(Kind::Str) || word_comes(cursor)
    }

    fn marked(&self) -> bool {
        false
    }

    #[tactic(auto, unfolding(ir_grammar::specs::Module::attribute))]
    fn read<'a>(
        &self,
        alloc: Global,
        cursor: &mut Cursor<'a, Token>,
    ) -> Result<AttrSyntax, Stop<'a>> {
        let _ = alloc;
        if cursor.next_is(Kind::Str) {
            let key = cursor.take(Kind::Str)?;
            return Ok(AttrSyntax::Text(key, setting(cursor)?));
        }
        word(cursor)?;
        Ok(AttrSyntax::Word)
    }
}

/// A group of attributes.
#[tactic(auto, unfolding(ir_grammar::specs::Module::attribute_group))]
pub(crate) fn attribute_group<'a>(
    alloc: Global,
    cursor: &mut Cursor<'a, Token>,
) -> Result<ItemSyntax, Stop<'a>>
    ensures { Gives spec.attribute_group cursor.old cursor.new result }
{
    cursor.take(Kind::Attributes)?;
    let name = group(cursor)?;
    cursor.take(Kind::Equals)?;
    cursor.take(Kind::OpenBrace)?;
    let attributes = repeat(alloc, &Attributes, cursor)?;
    cursor.take(Kind::CloseBrace)?;
    Ok(ItemSyntax::Group(name, attributes))
}
