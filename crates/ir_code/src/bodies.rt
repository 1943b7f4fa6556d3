//! Reading phis, terminators and blocks.
ghost use Rattle.std.specs.Prelude.{◌≡◌, false, true, [], ◌∷◌, IfOk};
ghost use Rattle.grammar.specs.Grammar.{opt};
ghost use Rattle.grammar.specs.code.Gives.{Gives};
ghost use Rattle.ir_tokens.specs.code.Kinds.{code};
ghost use Rattle.ir_tokens.specs.declared.kind.Kind.TheVariants as kind;
ghost use Rattle.ir_grammar.specs.Forms.{◌▸◌};
ghost use Rattle.ir_grammar.specs.Words as words;
ghost use Rattle.ir_grammar.specs.Types.{integer_types};
ghost use Rattle.ir_grammar.specs.Blocks as spec;
ghost use Rattle.ir_grammar.specs.code.DecidedBlocks.{comma_entry_starts, line_decided, case_starts, block_starts};

use crate::Stop;
use crate::instructions::{binary, call, compare, condition, convert, select, typed_integer};
use crate::operands::{constant, operand};
use crate::types::{integer_type, return_type, value_type};
use crate::words::{label, local, local_comes};
use grammar::{Cursor, Growth, Part, grow, repeat};
use ir_grammar::{
    BlockSyntax, CaseSyntax, EntrySyntax, InstSyntax, LineSyntax, LinesSyntax, PhiSyntax,
    TermSyntax, TypeSyntax,
};
use ir_tokens::{Kind, Rule, Token};
use ir_values::{Memory, Seq, Ty};
use std::alloc::Global;

// Phis.

/// An entry of a phi of this type.
#[tactic(auto, unfolding(ir_grammar::specs::Blocks::entry))]
fn entry<'a>(ty: &Ty, cursor: &mut Cursor<'a, Token>) -> Result<EntrySyntax, Stop<'a>>
    ensures { Gives (spec.entry ty.now) cursor.old cursor.new result }
{
    cursor.take(Kind::OpenSquare)?;
    let value = operand(ty, cursor)?;
    cursor.take(Kind::Comma)?;
    let from = local(cursor)?;
    cursor.take(Kind::CloseSquare)?;
    Ok(EntrySyntax { value, from })
}

/// The entries of a phi of this type that follow its first, each behind a comma.
#[derive(Drop)]
struct MoreEntries<'t> {
    ty: &'t Ty,
}

impl<'t> Part for MoreEntries<'t> {
    type Token = Token;

    type Kind = Kind;

    type Rule = Rule;

    type Item = EntrySyntax;

    ghost kind = { λ t. t.kind };

    ghost code = { code };

    ghost grammar = { λ e. kind.Comma ▸ spec.entry e.ty.now };

    ghost kinds = { λ _. kind.Comma ∷ [] };

    ghost mark = { false };

    ghost starts = { λ e. comma_entry_starts e.ty.now };

    fn begins(&self, cursor: &Cursor<'_, Token>) -> bool {
        cursor.next_is(Kind::Comma)
    }

    fn marked(&self) -> bool {
        false
    }

    fn read<'a>(
        &self,
        alloc: Global,
        cursor: &mut Cursor<'a, Token>,
    ) -> Result<EntrySyntax, Stop<'a>> {
        let _ = alloc;
        cursor.take(Kind::Comma)?;
        entry(self.ty, cursor)
    }
}

/// The items behind a first one.
fn with_first<T: Drop>(first: T, rest: Seq<T>) -> Result<Seq<T>, Memory>
    ensures { IfOk result (λ items. items ≡ first ∷ rest) }
{
    let mut items = rest.into_vec();
    items.insert(0, first)?;
    Ok(Seq::from_vec(items))
}

/// The entries of a phi of this type.
#[tactic(auto, unfolding(ir_grammar::specs::Blocks::entries))]
fn entries<'a>(
    alloc: Global,
    ty: &TypeSyntax,
    cursor: &mut Cursor<'a, Token>,
) -> Result<Seq<EntrySyntax>, Stop<'a>>
    ensures { Gives (spec.entries ty.now) cursor.old cursor.new result }
{
    let first = entry(&ty.ty, cursor)?;
    let rest = repeat(alloc, &MoreEntries { ty: &ty.ty }, cursor)?;
    Ok(with_first(first, rest)?)
}

/// A phi from its word on: its type and its entries.
#[tactic(auto, unfolding(ir_grammar::specs::Blocks::phi))]
fn phi<'a>(
    alloc: Global,
    cursor: &mut Cursor<'a, Token>,
) -> Result<(TypeSyntax, Seq<EntrySyntax>), Stop<'a>>
    ensures { Gives spec.phi cursor.old cursor.new result }
{
    cursor.take(Kind::Phi)?;
    let ty = value_type(alloc, cursor)?;
    let entries = entries(alloc, &ty, cursor)?;
    Ok((ty, entries))
}

// Phis and instructions.

/// The lines and one more instruction.
fn with_inst(
    lines: LinesSyntax,
    first: Token,
    defined: Option<Token>,
    what: InstSyntax,
) -> Result<LinesSyntax, Memory>
    ensures { IfOk result (λ ls. ls ≡ spec.add_inst lines first defined what) }
{
    let LinesSyntax { phis, mut insts } = lines;
    insts.push(LineSyntax {
        first,
        result: defined,
        what,
    })?;
    Ok(LinesSyntax { phis, insts })
}

/// The lines and one more phi.
fn with_phi(
    lines: LinesSyntax,
    first: Token,
    ty: TypeSyntax,
    entries: Seq<EntrySyntax>,
) -> Result<LinesSyntax, Memory>
    ensures { IfOk result (λ ls. ls ≡ spec.add_phi lines first (ty, entries)) }
{
    let LinesSyntax { mut phis, insts } = lines;
    phis.push(PhiSyntax {
        result: first,
        ty: ty.ty,
        entries,
    })?;
    Ok(LinesSyntax { phis, insts })
}

/// What an instruction that may define a name does.
#[tactic(auto, unfolding(ir_grammar::specs::Blocks::valued, ir_grammar::specs::Instructions::binary, ir_grammar::specs::Instructions::wrapping, ir_grammar::specs::Instructions::exacting, ir_grammar::specs::Instructions::flagless, ir_grammar::specs::Instructions::compare, ir_grammar::specs::Instructions::convert, ir_grammar::specs::Instructions::select))]
fn valued<'a>(alloc: Global, cursor: &mut Cursor<'a, Token>) -> Result<InstSyntax, Stop<'a>>
    ensures { Gives spec.valued cursor.old cursor.new result }
{
    if cursor.next_is_one_of(&[
        Kind::Add,
        Kind::Sub,
        Kind::Mul,
        Kind::Shl,
        Kind::UDiv,
        Kind::SDiv,
        Kind::LShr,
        Kind::AShr,
        Kind::URem,
        Kind::SRem,
        Kind::And,
        Kind::Or,
        Kind::Xor,
    ]) {
        binary(alloc, cursor)
    } else if cursor.next_is(Kind::Icmp) {
        compare(cursor)
    } else if cursor.next_is_one_of(&[Kind::ZExt, Kind::SExt, Kind::Trunc]) {
        convert(cursor)
    } else if cursor.next_is(Kind::Select) {
        select(alloc, cursor)
    } else {
        Ok(call(alloc, cursor)?.1)
    }
}

/// What stands behind a name and `=`: a phi only where no instruction stands before it.
#[tactic(auto, unfolding(ir_grammar::specs::Blocks::named, ir_grammar::specs::Blocks::phi))]
fn named<'a>(
    alloc: Global,
    lines: LinesSyntax,
    name: Token,
    cursor: &mut Cursor<'a, Token>,
) -> Result<LinesSyntax, Stop<'a>>
    ensures { Gives (spec.named lines name) cursor.old cursor.new result }
{
    if lines.insts.is_empty() && cursor.next_is(Kind::Phi) {
        let (ty, entries) = phi(alloc, cursor)?;
        return Ok(with_phi(lines, name, ty, entries)?);
    }
    let what = valued(alloc, cursor)?;
    Ok(with_inst(lines, name, Some(name), what)?)
}

/// One more phi or instruction.
#[tactic(auto, unfolding(ir_grammar::specs::Blocks::line, ir_grammar::specs::Words::local))]
fn line<'a>(
    alloc: Global,
    lines: LinesSyntax,
    cursor: &mut Cursor<'a, Token>,
) -> Result<LinesSyntax, Stop<'a>>
    ensures { Gives (spec.line lines) cursor.old cursor.new result }
{
    if local_comes(cursor) {
        let name = local(cursor)?;
        cursor.take(Kind::Equals)?;
        return named(alloc, lines, name, cursor);
    }
    let (first, what) = call(alloc, cursor)?;
    Ok(with_inst(lines, first, None, what)?)
}

/// The phis and instructions of a block.
struct BlockLines;

impl Growth for BlockLines {
    type Token = Token;

    type Kind = Kind;

    type Rule = Rule;

    type Item = LinesSyntax;

    ghost kind = { λ t. t.kind };

    ghost code = { code };

    ghost grows = { λ _ ls. spec.line ls };

    ghost extensions = { spec.line_kinds };

    ghost decided = { λ _ ls. line_decided ls };

    #[tactic(auto, unfolding(ir_grammar::specs::Blocks::line, ir_grammar::specs::Instructions::call, ir_grammar::specs::Instructions::call_word, ir_grammar::specs::Words::local))]
    fn begins(&self, item: &LinesSyntax, cursor: &Cursor<'_, Token>) -> bool {
        let _ = item;
        cursor.next_is_one_of(&[
            Kind::Local,
            Kind::QubitName,
            Kind::ResultName,
            Kind::Call,
            Kind::Tail,
            Kind::NoTail,
        ])
    }

    #[tactic(auto, unfolding(ir_grammar::specs::Blocks::line, ir_grammar::specs::Instructions::call, ir_grammar::specs::Instructions::call_word, ir_grammar::specs::Words::local))]
    fn marked(&self, item: &LinesSyntax) -> bool {
        let _ = item;
        false
    }

    fn read<'a>(
        &self,
        alloc: Global,
        item: LinesSyntax,
        cursor: &mut Cursor<'a, Token>,
    ) -> Result<LinesSyntax, Stop<'a>> {
        line(alloc, item, cursor)
    }
}

/// The phis and instructions of a block.
#[tactic(auto, unfolding(ir_grammar::specs::Blocks::lines))]
fn lines<'a>(alloc: Global, cursor: &mut Cursor<'a, Token>) -> Result<LinesSyntax, Stop<'a>>
    ensures { Gives spec.lines cursor.old cursor.new result }
{
    let none = LinesSyntax {
        phis: Seq::new(alloc),
        insts: Seq::new(alloc),
    };
    grow(alloc, &BlockLines, none, cursor)
}

// Terminators.

/// What is returned behind `ret` and a type.
fn returned<'a>(ty: Ty, cursor: &mut Cursor<'a, Token>) -> Result<TermSyntax, Stop<'a>>
    ensures { Gives (spec.returned ty) cursor.old cursor.new result }
{
    if let Ty::Void = ty {
        return Ok(TermSyntax::RetVoid);
    }
    let value = operand(&ty, cursor)?;
    Ok(TermSyntax::Ret(ty, value))
}

/// `ret`, and its first token.
#[tactic(auto, unfolding(ir_grammar::specs::Blocks::ret))]
fn ret<'a>(alloc: Global, cursor: &mut Cursor<'a, Token>) -> Result<(Token, TermSyntax), Stop<'a>>
    ensures { Gives spec.ret cursor.old cursor.new result }
{
    let word = cursor.take(Kind::Ret)?;
    let ty = return_type(alloc, cursor)?.ty;
    Ok((word, returned(ty, cursor)?))
}

/// `label` and the name of a block.
#[tactic(auto, unfolding(ir_grammar::specs::Blocks::target))]
fn target<'a>(cursor: &mut Cursor<'a, Token>) -> Result<Token, Stop<'a>>
    ensures { Gives spec.target cursor.old cursor.new result }
{
    cursor.take(Kind::LabelWord)?;
    local(cursor)
}

/// A condition and two targets.
#[tactic(auto, unfolding(ir_grammar::specs::Blocks::two_targets))]
fn two_targets<'a>(cursor: &mut Cursor<'a, Token>) -> Result<TermSyntax, Stop<'a>>
    ensures { Gives spec.two_targets cursor.old cursor.new result }
{
    let condition = condition(cursor)?;
    let yes = target(cursor)?;
    cursor.take(Kind::Comma)?;
    let no = target(cursor)?;
    Ok(TermSyntax::CondBr(condition, yes, no))
}

/// `br`, and its first token.
#[tactic(auto, unfolding(ir_grammar::specs::Blocks::branch, ir_grammar::specs::Blocks::target))]
fn branch<'a>(cursor: &mut Cursor<'a, Token>) -> Result<(Token, TermSyntax), Stop<'a>>
    ensures { Gives spec.branch cursor.old cursor.new result }
{
    let word = cursor.take(Kind::Br)?;
    if cursor.next_is(Kind::LabelWord) {
        return Ok((word, TermSyntax::Br(target(cursor)?)));
    }
    Ok((word, two_targets(cursor)?))
}

/// The cases of a switch.
struct Cases;

impl Part for Cases {
    type Token = Token;

    type Kind = Kind;

    type Rule = Rule;

    type Item = CaseSyntax;

    ghost kind = { λ t. t.kind };

    ghost code = { code };

    ghost grammar = { λ _. spec.case };

    ghost kinds = { λ _. integer_types };

    ghost mark = { true };

    ghost starts = { λ _. case_starts };

    fn begins(&self, cursor: &Cursor<'_, Token>) -> bool {
        cursor.next_is_one_of(&[Kind::I1, Kind::I8, Kind::I16, Kind::I32, Kind::I64])
    }

    fn marked(&self) -> bool {
        true
    }

    #[tactic(auto, unfolding(ir_grammar::specs::Blocks::case))]
    fn read<'a>(
        &self,
        alloc: Global,
        cursor: &mut Cursor<'a, Token>,
    ) -> Result<CaseSyntax, Stop<'a>> {
        let _ = alloc;
        let width = integer_type(cursor)?;
        let value = constant(width, cursor)?;
        cursor.take(Kind::Comma)?;
        let target = target(cursor)?;
        Ok(CaseSyntax { value, target })
    }
}

/// `switch`, and its first token.
#[tactic(auto, unfolding(ir_grammar::specs::Blocks::switch))]
fn switch<'a>(
    alloc: Global,
    cursor: &mut Cursor<'a, Token>,
) -> Result<(Token, TermSyntax), Stop<'a>>
    ensures { Gives spec.switch cursor.old cursor.new result }
{
    let word = cursor.take(Kind::Switch)?;
    let (width, value) = typed_integer(cursor)?;
    cursor.take(Kind::Comma)?;
    let default = target(cursor)?;
    cursor.take(Kind::OpenSquare)?;
    let cases = repeat(alloc, &Cases, cursor)?;
    cursor.take(Kind::CloseSquare)?;
    Ok((
        word,
        TermSyntax::Switch(Ty::Int(width), value, default, cases),
    ))
}

/// A terminator, and its first token.
#[tactic(auto, unfolding(ir_grammar::specs::Blocks::terminator, ir_grammar::specs::Blocks::ret, ir_grammar::specs::Blocks::branch))]
fn terminator<'a>(
    alloc: Global,
    cursor: &mut Cursor<'a, Token>,
) -> Result<(Token, TermSyntax), Stop<'a>>
    ensures { Gives spec.terminator cursor.old cursor.new result }
{
    if cursor.next_is(Kind::Ret) {
        ret(alloc, cursor)
    } else if cursor.next_is(Kind::Br) {
        branch(cursor)
    } else {
        switch(alloc, cursor)
    }
}

// Blocks.

/// A block behind its label.
#[tactic(auto, unfolding(ir_grammar::specs::Blocks::body))]
fn body<'a>(
    alloc: Global,
    cursor: &mut Cursor<'a, Token>,
) -> Result<(LinesSyntax, (Token, TermSyntax)), Stop<'a>>
    ensures { Gives spec.body cursor.old cursor.new result }
{
    let lines = lines(alloc, cursor)?;
    Ok((lines, terminator(alloc, cursor)?))
}

/// A label, if one comes next.
#[tactic(auto, unfolding(ir_grammar::specs::Words::label))]
fn maybe_label<'a>(cursor: &mut Cursor<'a, Token>) -> Result<Option<Token>, Stop<'a>>
    ensures { Gives (opt words.label) cursor.old cursor.new result }
{
    if !cursor.next_is(Kind::Label) {
        return Ok(None);
    }
    Ok(Some(label(cursor)?))
}

/// A first block, which may lack its label.
#[tactic(auto, unfolding(ir_grammar::specs::Blocks::first_block))]
fn first_block<'a>(alloc: Global, cursor: &mut Cursor<'a, Token>) -> Result<BlockSyntax, Stop<'a>>
    ensures { Gives spec.first_block cursor.old cursor.new result }
{
    let label = maybe_label(cursor)?;
    let (lines, (last, term)) = body(alloc, cursor)?;
    Ok(BlockSyntax {
        label,
        lines,
        last,
        term,
    })
}

/// The blocks that follow the first.
struct MoreBlocks;

impl Part for MoreBlocks {
    type Token = Token;

    type Kind = Kind;

    type Rule = Rule;

    type Item = BlockSyntax;

    ghost kind = { λ t. t.kind };

    ghost code = { code };

    ghost grammar = { λ _. spec.block };

    ghost kinds = { λ _. kind.Label ∷ [] };

    ghost mark = { false };

    ghost starts = { λ _. block_starts };

    fn begins(&self, cursor: &Cursor<'_, Token>) -> bool {
        cursor.next_is(Kind::Label)
    }

    fn marked(&self) -> bool {
        false
    }

    #[tactic(auto, unfolding(ir_grammar::specs::Blocks::block))]
    fn read<'a>(
        &self,
        alloc: Global,
        cursor: &mut Cursor<'a, Token>,
    ) -> Result<BlockSyntax, Stop<'a>> {
        let label = label(cursor)?;
        let (lines, (last, term)) = body(alloc, cursor)?;
        Ok(BlockSyntax {
            label: Some(label),
            lines,
            last,
            term,
        })
    }
}

/// The blocks of a function, with their braces.
#[tactic(auto, unfolding(ir_grammar::specs::Blocks::blocks))]
pub fn blocks<'a>(
    alloc: Global,
    cursor: &mut Cursor<'a, Token>,
) -> Result<Seq<BlockSyntax>, Stop<'a>>
    ensures { Gives spec.blocks cursor.old cursor.new result }
{
    cursor.take(Kind::OpenBrace)?;
    let first = first_block(alloc, cursor)?;
    let rest = repeat(alloc, &MoreBlocks, cursor)?;
    cursor.take(Kind::CloseBrace)?;
    Ok(with_first(first, rest)?)
}
