//! The kinds of words.
ghost use Rattle.std.specs.Prelude.{◌≡◌, map};
ghost use Rattle.std.specs.List.{list_any};
ghost use Rattle.ir_tokens.specs.Words as spec;
ghost use Rattle.ir_tokens.specs.Words.{same_text};

use crate::kind::Kind;

/// The words with kinds of their own, those that come most often first.
const WORDS: [(&[u8], Kind); 69] = [
    (b"call", Kind::Call),
    (b"void", Kind::Void),
    (b"null", Kind::Null),
    (b"to", Kind::To),
    (b"inttoptr", Kind::IntToPtr),
    (b"br", Kind::Br),
    (b"label", Kind::LabelWord),
    (b"phi", Kind::Phi),
    (b"ret", Kind::Ret),
    (b"define", Kind::Define),
    (b"declare", Kind::Declare),
    (b"source_filename", Kind::SourceFilename),
    (b"target", Kind::Target),
    (b"triple", Kind::Triple),
    (b"datalayout", Kind::DataLayout),
    (b"type", Kind::TypeWord),
    (b"opaque", Kind::Opaque),
    (b"private", Kind::Private),
    (b"internal", Kind::Internal),
    (b"unnamed_addr", Kind::UnnamedAddr),
    (b"local_unnamed_addr", Kind::LocalUnnamedAddr),
    (b"constant", Kind::Constant),
    (b"x", Kind::X),
    (b"align", Kind::Align),
    (b"attributes", Kind::Attributes),
    (b"true", Kind::True),
    (b"false", Kind::False),
    (b"dso_local", Kind::DsoLocal),
    (b"writeonly", Kind::WriteOnly),
    (b"readonly", Kind::ReadOnly),
    (b"nocapture", Kind::NoCapture),
    (b"double", Kind::DoubleType),
    (b"add", Kind::Add),
    (b"sub", Kind::Sub),
    (b"mul", Kind::Mul),
    (b"udiv", Kind::UDiv),
    (b"sdiv", Kind::SDiv),
    (b"urem", Kind::URem),
    (b"srem", Kind::SRem),
    (b"shl", Kind::Shl),
    (b"lshr", Kind::LShr),
    (b"ashr", Kind::AShr),
    (b"and", Kind::And),
    (b"or", Kind::Or),
    (b"xor", Kind::Xor),
    (b"icmp", Kind::Icmp),
    (b"eq", Kind::Eq),
    (b"ne", Kind::Ne),
    (b"ugt", Kind::Ugt),
    (b"uge", Kind::Uge),
    (b"ult", Kind::Ult),
    (b"ule", Kind::Ule),
    (b"sgt", Kind::Sgt),
    (b"sge", Kind::Sge),
    (b"slt", Kind::Slt),
    (b"sle", Kind::Sle),
    (b"zext", Kind::ZExt),
    (b"sext", Kind::SExt),
    (b"trunc", Kind::Trunc),
    (b"select", Kind::Select),
    (b"tail", Kind::Tail),
    (b"notail", Kind::NoTail),
    (b"switch", Kind::Switch),
    (b"getelementptr", Kind::GetElementPtr),
    (b"inbounds", Kind::InBounds),
    (b"nuw", Kind::Nuw),
    (b"nsw", Kind::Nsw),
    (b"exact", Kind::Exact),
    (b"ptr", Kind::Ptr),
];

/// The words of LLVM's language that QIR texts leave out.
const LEFT_OUT: [&[u8]; 46] = [
    b"alloca",
    b"load",
    b"store",
    b"fence",
    b"cmpxchg",
    b"atomicrmw",
    b"bitcast",
    b"ptrtoint",
    b"addrspacecast",
    b"fadd",
    b"fsub",
    b"fmul",
    b"fdiv",
    b"frem",
    b"fneg",
    b"fcmp",
    b"fptrunc",
    b"fpext",
    b"fptoui",
    b"fptosi",
    b"uitofp",
    b"sitofp",
    b"extractvalue",
    b"insertvalue",
    b"extractelement",
    b"insertelement",
    b"shufflevector",
    b"freeze",
    b"invoke",
    b"resume",
    b"callbr",
    b"indirectbr",
    b"unreachable",
    b"landingpad",
    b"va_arg",
    b"undef",
    b"poison",
    b"zeroinitializer",
    b"asm",
    b"comdat",
    b"alias",
    b"ifunc",
    b"global",
    b"musttail",
    b"float",
    b"half",
];

/// The kind of a word, `i` with digits left aside.
pub(crate) fn word_kind(word: &[u8]) -> Kind
    ensures { result ≡ spec.word_kind word.now }
{
    look_up(&WORDS, other_kind(word), word)
}

/// The kind of the first row with the word, and `other` where there is none.
fn look_up(mut rows: &[(&[u8], Kind)], other: Kind, word: &[u8]) -> Kind
    ensures { result ≡ spec.look_up (map (λ r. (r.0.now, r.1)) rows.entry.now) other word.now }
{
    while let [row, rest @ ..] = rows {
        if word == row.0 {
            return row.1;
        }
        rows = rest;
    }
    other
}

/// The kind of a word that has none of its own.
fn other_kind(word: &[u8]) -> Kind
    ensures { result ≡ spec.other_kind word.now }
{
    if is_among(word, &LEFT_OUT) {
        Kind::LeftOutWord
    } else {
        Kind::OtherWord
    }
}

/// Whether the word is one of the texts.
fn is_among(word: &[u8], mut texts: &[&[u8]]) -> bool
    ensures { result ≡ list_any (same_text word.now) (map (λ t. t.now) texts.entry.now) }
{
    while let [text, rest @ ..] = texts {
        if word == *text {
            return true;
        }
        texts = rest;
    }
    false
}
