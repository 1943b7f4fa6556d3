//! What a fault of the tokens is called.
ghost use Rattle.std.specs.Prelude.{◌≡◌};
ghost use Rattle.ir_syntax.specs.Refusals as spec;

use crate::fault::SyntaxCode;
use grammar::Fault;
use ir_text::{LexCode, LexError};
use ir_tokens::{Kind, Rule};

/// The code where the text goes on with no token.
fn lexical_code(code: LexCode) -> SyntaxCode
    ensures { result ≡ spec.lexical_code code }
{
    match code {
        LexCode::BadByte => SyntaxCode::BadByte,
        LexCode::OpenString => SyntaxCode::OpenString,
        LexCode::BadEscape => SyntaxCode::BadEscape,
        LexCode::NumberTooWide => SyntaxCode::NumberTooWide,
    }
}

/// The code where a token breaks a side rule.
fn rule_code(rule: Rule) -> SyntaxCode
    ensures { result ≡ spec.rule_code rule }
{
    match rule {
        Rule::Syntax => SyntaxCode::Syntax,
        Rule::LiteralRange => SyntaxCode::LiteralRange,
        Rule::StringLength => SyntaxCode::StringLength,
        Rule::TooDeep => SyntaxCode::TooDeep,
    }
}

/// Whether QIR texts leave out what a token of the kind belongs to.
fn is_left_out(kind: Kind) -> bool
    ensures { result ≡ spec.is_left_out kind }
{
    matches!(
        kind,
        Kind::LeftOutWord
            | Kind::OddWidth
            | Kind::Ptr
            | Kind::Dots
            | Kind::IntToPtr
            | Kind::GetElementPtr
    )
}

/// Whether a token of the kind begins a type that QIR texts leave out.
fn begins_other_type(kind: Kind) -> bool
    ensures { result ≡ spec.begins_other_type kind }
{
    matches!(kind, Kind::Less | Kind::OpenBrace | Kind::Local)
}

/// The code where a token of the kind doesn't fit.
fn misfit_code(type_may_begin: bool, kind: Kind) -> SyntaxCode
    ensures { result ≡ spec.misfit_code type_may_begin kind }
{
    if is_left_out(kind) || type_may_begin && begins_other_type(kind) {
        SyntaxCode::LeftOut
    } else {
        SyntaxCode::Syntax
    }
}

/// The code of the first fault of the tokens of a text, by the kind of the token at which it stands. Where the text goes
/// on with no token, `wrong` says why, and a token of kind `Bad` stands for it.
pub(crate) fn code_of(wrong: Option<LexError>, fault: Fault<Rule>, kind: Kind) -> SyntaxCode
    ensures { result ≡ spec.code_of wrong fault kind }
{
    match (wrong, kind) {
        (Some(error), Kind::Bad) => lexical_code(error.code),
        _ => match fault {
            Fault::Broken(rule) => rule_code(rule),
            Fault::Unexpected(type_may_begin) => misfit_code(type_may_begin, kind),
        },
    }
}
