//! The places of spots.
ghost use Rattle.std.specs.Prelude.{◌≡◌, ◌+◌, ◌-◌, ◌^◌, ◌<◌, ◌++◌, ◌∷◌, [], length, map, IfOk, OnOk};
ghost use Rattle.ir_module.specs.Places.{ComesAfter};
ghost use Rattle.ir_module.specs.declared.places.Spot.TheVariants as spot;
ghost use Rattle.ir_names.specs.Places as spec;
ghost use Rattle.ir_names.specs.code.Marked as marked;

use crate::lines::next;
use ir_grammar::{BlockSyntax, FunctionSyntax, ItemSyntax, LineSyntax, PhiSyntax};
use ir_module::{Place, Places, Point, Spot};
use ir_tokens::{Lines, Token};
use ir_values::{BlockId, FuncId, Memory, Seq};
use std::alloc::Global;

/// A text, and the places of its spots up to one.
#[derive(Drop)]
struct Marks<'a> {
    lines: Lines<'a>,
    places: Places,
}

/// The next of numbers of 32 bits. No text is so long that there is none.
fn next_number(n: u32) -> Result<u32, Memory>
    ensures { IfOk result (λ m. m ≡ n + 1) }
{
    if n == u32::MAX {
        Err(Memory)
    } else {
        Ok(n + 1)
    }
}

impl Marks<'_> {
    /// Adds the place of a spot, which is that of a token.
    fn mark(&mut self, spot: Spot, token: &Token) -> Result<(), Memory>
        requires { ComesAfter self.old.places spot }
        ensures text { self.new.lines ≡ self.old.lines }
        ensures places { OnOk result (self.new.places ≡ self.old.places ++ (spot, spec.place_at self.old.lines token.now) ∷ []) }
    {
        let position = self.lines.position(token.place);
        let place = Place {
            line: position.line,
            column: position.column,
        };
        self.places.push(spot, place)?;
        Ok(())
    }

    /// Adds the place of a point, and answers the next point of its block.
    fn point(&mut self, point: Point, token: &Token) -> Result<Point, Memory>
        requires { ComesAfter self.old.places (spot.At point) }
        ensures text { self.new.lines ≡ self.old.lines }
        ensures next { IfOk result (λ p. p ≡ marked.next point) }
        ensures after { IfOk result (λ p. ComesAfter self.new.places (spot.At p)) }
        ensures places { OnOk result (self.new.places ≡ self.old.places ++ (spot.At point, spec.place_at self.old.lines token.now) ∷ []) }
    {
        let index = next(point.index)?;
        self.mark(Spot::At(point), token)?;
        Ok(Point {
            func: point.func,
            block: point.block,
            index,
        })
    }

    /// Adds the places of phis.
    fn phis(&mut self, mut point: Point, mut phis: &[PhiSyntax]) -> Result<Point, Memory>
        requires { ComesAfter self.old.places (spot.At point) }
        ensures text { self.new.lines ≡ self.old.lines }
        ensures next { IfOk result (λ p. p ≡ marked.behind point (map spec.phi_token phis.entry.now)) }
        ensures after { IfOk result (λ p. ComesAfter self.new.places (spot.At p)) }
        ensures places { OnOk result (self.new.places ≡ self.old.places ++ spec.points self.old.lines point (map spec.phi_token phis.entry.now)) }
    {
        while let [phi, rest @ ..] = phis {
            point = self.point(point, &phi.result)?;
            phis = rest;
        }
        Ok(point)
    }

    /// Adds the places of instructions.
    fn insts(&mut self, mut point: Point, mut insts: &[LineSyntax]) -> Result<Point, Memory>
        requires { ComesAfter self.old.places (spot.At point) }
        ensures text { self.new.lines ≡ self.old.lines }
        ensures next { IfOk result (λ p. p ≡ marked.behind point (map spec.line_token insts.entry.now)) }
        ensures after { IfOk result (λ p. ComesAfter self.new.places (spot.At p)) }
        ensures places { OnOk result (self.new.places ≡ self.old.places ++ spec.points self.old.lines point (map spec.line_token insts.entry.now)) }
    {
        while let [line, rest @ ..] = insts {
            point = self.point(point, &line.first)?;
            insts = rest;
        }
        Ok(point)
    }

    /// Adds the places of a block's phis, instructions and terminator.
    #[tactic(auto, using(crate::proofs::Order::behind_append))]
    fn inner(&mut self, point: Point, block: &BlockSyntax) -> Result<Point, Memory>
        requires { ComesAfter self.old.places (spot.At point) }
        ensures text { self.new.lines ≡ self.old.lines }
        ensures next { IfOk result (λ p. p ≡ marked.behind point (spec.block_tokens block.now)) }
        ensures after { IfOk result (λ p. ComesAfter self.new.places (spot.At p)) }
        ensures places { OnOk result (self.new.places ≡ self.old.places ++ spec.points self.old.lines point (spec.block_tokens block.now)) }
    {
        let behind_phis = self.phis(point, block.lines.phis.as_slice())?;
        let behind = self.insts(behind_phis, block.lines.insts.as_slice())?;
        let end = self.point(behind, &block.last)?;
        Ok(end)
    }

    /// Adds the places of a block, and answers the first point of the next.
    fn block(&mut self, point: Point, block: &BlockSyntax) -> Result<Point, Memory>
        requires { ComesAfter self.old.places (spot.At point) }
        ensures text { self.new.lines ≡ self.old.lines }
        ensures next { IfOk result (λ p. p ≡ spec.next_block point) }
        ensures after { IfOk result (λ p. ComesAfter self.new.places (spot.At p)) }
        ensures places { OnOk result (self.new.places ≡ self.old.places ++ spec.points self.old.lines point (spec.block_tokens block.now)) }
    {
        let next = next_number(point.block.0)?;
        self.inner(point, block)?;
        Ok(Point {
            func: point.func,
            block: BlockId(next),
            index: point.index,
        })
    }

    /// Adds the places of blocks.
    fn blocks(&mut self, mut point: Point, mut blocks: &[BlockSyntax]) -> Result<Point, Memory>
        requires { ComesAfter self.old.places (spot.At point) }
        ensures text { self.new.lines ≡ self.old.lines }
        ensures func { IfOk result (λ p. p.func ≡ point.func) }
        ensures after { IfOk result (λ p. ComesAfter self.new.places (spot.At p)) }
        ensures places { OnOk result (self.new.places ≡ self.old.places ++ spec.block_places self.old.lines point blocks.entry.now) }
    {
        while let [block, rest @ ..] = blocks {
            point = self.block(point, block)?;
            blocks = rest;
        }
        Ok(point)
    }

    /// Adds the places of a body, if there is one.
    fn body(&mut self, func: FuncId, blocks: &Option<Seq<BlockSyntax>>) -> Result<(), Memory>
        requires { ComesAfter self.old.places (spot.At (spec.first_point func)) }
        ensures text { self.new.lines ≡ self.old.lines }
        ensures after { OnOk result (ComesAfter self.new.places (spot.Func (spec.next_function func))) }
        ensures places { OnOk result (self.new.places ≡ self.old.places ++ spec.body_places self.old.lines func blocks.now) }
    {
        let first = Point {
            func,
            block: BlockId(0),
            index: 0,
        };
        match blocks {
            None => Ok(()),
            Some(blocks) => {
                self.blocks(first, blocks.as_slice())?;
                Ok(())
            }
        }
    }

    /// Adds the places of a function, and answers the next one's number.
    fn function(&mut self, func: FuncId, function: &FunctionSyntax) -> Result<FuncId, Memory>
        requires { ComesAfter self.old.places (spot.Func func) }
        ensures text { self.new.lines ≡ self.old.lines }
        ensures next { IfOk result (λ f. f ≡ spec.next_function func) }
        ensures after { IfOk result (λ f. ComesAfter self.new.places (spot.Func f)) }
        ensures places { OnOk result (self.new.places ≡ self.old.places ++ spec.function_places self.old.lines func function.now) }
    {
        let next = next_number(func.0)?;
        self.mark(Spot::Func(func), &function.name)?;
        self.body(func, &function.blocks)?;
        Ok(FuncId(next))
    }

    /// Adds the places of an item behind others, if it is a function.
    fn item(&mut self, func: FuncId, item: &ItemSyntax) -> Result<FuncId, Memory>
        requires { ComesAfter self.old.places (spot.Func func) }
        ensures text { self.new.lines ≡ self.old.lines }
        ensures next { IfOk result (λ f. f ≡ spec.behind_item func item.now) }
        ensures after { IfOk result (λ f. ComesAfter self.new.places (spot.Func f)) }
        ensures places { OnOk result (self.new.places ≡ self.old.places ++ spec.item_places self.old.lines func item.now) }
    {
        match item {
            ItemSyntax::Function(function) => self.function(func, function),
            _ => Ok(func),
        }
    }

    /// Adds the places of items.
    fn items(&mut self, mut func: FuncId, mut items: &[ItemSyntax]) -> Result<(), Memory>
        requires { ComesAfter self.old.places (spot.Func func) }
        ensures text { self.new.lines ≡ self.old.lines }
        ensures places { OnOk result (self.new.places ≡ self.old.places ++ spec.items_places self.old.lines func items.entry.now) }
    {
        while let [item, rest @ ..] = items {
            func = self.item(func, item)?;
            items = rest;
        }
        Ok(())
    }
}

/// The places of the spots of a text of fewer than 2^32 - 1 bytes, by its items. [`Memory`] is the
/// one error.
pub fn places(alloc: Global, text: &[u8], items: &[ItemSyntax]) -> Result<Places, Memory>
    requires { length text.now < 2 ^ 32 - 1 }
    ensures { IfOk result (λ p. p ≡ spec.places_of text.now items.now) }
{
    let mut marks = Marks {
        lines: Lines::new(text),
        places: Places::new(alloc),
    };
    marks
        .places
        .push(Spot::Module, Place { line: 1, column: 1 })?;
    marks.items(FuncId(0), items)?;
    let Marks { places, .. } = marks;
    Ok(places)
}
