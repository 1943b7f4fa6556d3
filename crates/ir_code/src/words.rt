//! Reading names.
ghost use Rattle.std.specs.Prelude.{◌≡◌, [], ◌∷◌};
ghost use Rattle.grammar.specs.Grammar.{begins_with};
ghost use Rattle.grammar.specs.code.Gives.{Gives};
ghost use Rattle.ir_tokens.specs.Tokens.{tokens};
ghost use Rattle.ir_tokens.specs.declared.kind.Kind.TheVariants as kind;
ghost use Rattle.ir_grammar.specs.Words as spec;

use crate::Stop;
use crate::side_rules::Numbered;
use grammar::Cursor;
use ir_tokens::{Kind, Token};

/// Whether the name of a local comes next.
pub fn local_comes(cursor: &Cursor<'_, Token>) -> bool
    ensures { result ≡ begins_with tokens spec.local_kinds cursor.now.rest.now }
{
    cursor.next_is_one_of(&[Kind::Local, Kind::QubitName, Kind::ResultName])
}

/// The name of a local.
#[tactic(auto, unfolding(ir_grammar::specs::Words::local))]
pub fn local<'a>(cursor: &mut Cursor<'a, Token>) -> Result<Token, Stop<'a>>
    ensures { Gives spec.local cursor.old cursor.new result }
{
    cursor.take_ruled(&[Kind::Local, Kind::QubitName, Kind::ResultName], &Numbered)
}

/// The name of a constant or a function.
#[tactic(auto, unfolding(ir_grammar::specs::Words::global))]
pub fn global<'a>(cursor: &mut Cursor<'a, Token>) -> Result<Token, Stop<'a>>
    ensures { Gives spec.global cursor.old cursor.new result }
{
    cursor.take_ruled(&[Kind::Global], &Numbered)
}

/// A label.
#[tactic(auto, unfolding(ir_grammar::specs::Words::label))]
pub fn label<'a>(cursor: &mut Cursor<'a, Token>) -> Result<Token, Stop<'a>>
    ensures { Gives spec.label cursor.old cursor.new result }
{
    cursor.take_ruled(&[Kind::Label], &Numbered)
}

/// The name of a group of attributes.
#[tactic(auto, unfolding(ir_grammar::specs::Words::group))]
pub fn group<'a>(cursor: &mut Cursor<'a, Token>) -> Result<Token, Stop<'a>>
    ensures { Gives spec.group cursor.old cursor.new result }
{
    cursor.take_ruled(&[Kind::Group], &Numbered)
}

/// The name of a node.
#[tactic(auto, unfolding(ir_grammar::specs::Words::node))]
pub fn node<'a>(cursor: &mut Cursor<'a, Token>) -> Result<Token, Stop<'a>>
    ensures { Gives spec.node cursor.old cursor.new result }
{
    cursor.take_ruled(&[Kind::Node], &Numbered)
}
