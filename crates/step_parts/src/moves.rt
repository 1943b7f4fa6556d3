//! The configurations to which a step leads.
ghost use Rattle.std.specs.Prelude.{◌≡◌, ◌++◌, IfOk, OnOk};
ghost use Rattle.static_steps.specs.Settings as spec;
ghost use Rattle.static_steps.specs.Values as vals;
ghost use Rattle.static_steps.specs.Works.{opened_frames};
ghost use Rattle.step_parts.specs.Lives.{lives};
ghost use Rattle.step_parts.specs.code.Frames.{over};
ghost use Rattle.step_parts.specs.code.Scenes.{at};

use crate::draft::Draft;
use crate::frames::{push_below, shape_below};
use crate::names::{number, push_number, put_result, without_number};
use crate::scene::Scene;
use ir_module::Point;
use ir_values::{Copies, LocalId, Memory, Seq, Value};
use kept_items::{Choice, Dyns, Item, Kind, Val};
use static_steps::{Config, Frame, Move, Names, Turn, WorkFrame, WorkNames};

impl<'a> Scene<'a> {
    /// The names that are live at a point.
    pub fn keep(&self, p: Point, names: &[(LocalId, Val)]) -> Result<WorkNames, Memory>
        ensures { IfOk result (λ r. r ≡ vals.keep (lives self.now.flows.now p) names.now) }
    {
        let mut out = Seq::new(self.alloc);
        let mut rest = names;
        while let [e, tail @ ..] = rest {
            if self.is_live(p, e.0) {
                out.push(e.copy(self.alloc)?)?;
            }
            rest = tail;
        }
        Ok(out)
    }

    /// The names of the top frame.
    pub fn names(&self) -> Result<WorkNames, Memory>
        ensures { IfOk result (λ r. r ≡ (at self.now).w.top.names) }
    {
        number(self.alloc, self.first, self.given.top.names.as_slice())
    }

    /// The names that are live at a point without the numbers of the Dynamic ones, which are added to
    /// `args`.
    fn settle(&self, args: &mut Dyns, p: Point, names: &[(LocalId, Val)]) -> Result<Names, Memory>
        ensures names { IfOk result (λ r. r ≡ vals.shape (vals.keep (lives self.now.flows.now p) names.now)) }
        ensures args { OnOk result (args.new ≡ args.old ++ vals.numbers (vals.keep (lives self.now.flows.now p) names.now)) }
    {
        let mut out = Seq::new(self.alloc);
        let mut rest = names;
        while let [e, tail @ ..] = rest {
            if self.is_live(p, e.0) {
                push_number(args, &e.1)?;
                out.push((e.0, without_number(self.alloc, &e.1)?))?;
            }
            rest = tail;
        }
        Ok(out)
    }

    /// The move to a configuration, whose top frame keeps the names that are live at its point.
    pub fn move_to(&self, u: Draft<'a>) -> Result<Move, Memory>
        ensures { IfOk result (λ mv. mv ≡ spec.move_to (lives self.now.flows.now) u.entry) }
    {
        let mut args = Seq::new(self.alloc);
        push_below(&mut args, &u.waiting, u.below)?;
        let names = self.settle(&mut args, u.top.at, u.top.names.as_slice())?;
        let below = shape_below(self.alloc, &u.waiting, u.below)?;
        Ok(Move {
            to: Config {
                top: Frame {
                    at: u.top.at,
                    names,
                },
                below,
                allocated: u.allocated,
                held: u.held,
                returned: u.returned,
                phase: u.phase,
            },
            args,
        })
    }

    /// The step to one configuration.
    pub fn goes(&self, u: Draft<'a>) -> Result<Turn, Memory>
        ensures { IfOk result (λ turn. turn ≡ spec.goes (at self.now) u.entry) }
    {
        let mut moves = Seq::new(self.alloc);
        moves.push(self.move_to(u)?)?;
        Ok(Turn::Goes(moves, None, Choice::One))
    }

    /// The step to one configuration that leaves an item.
    pub fn kept(&self, item: Item, u: Draft<'a>) -> Result<Turn, Memory>
        ensures { IfOk result (λ turn. turn ≡ spec.kept (at self.now) item u.entry) }
    {
        let mut moves = Seq::new(self.alloc);
        moves.push(self.move_to(u)?)?;
        Ok(Turn::Goes(moves, Some(item), Choice::One))
    }

    /// The configuration with this top frame over these that wait, one that begins to and those that
    /// wait already, which are those of the given configuration or the last of them.
    pub fn draft(
        &self,
        point: Point,
        names: WorkNames,
        waiting: Option<WorkFrame>,
        below: &'a [Frame],
    ) -> Result<Draft<'a>, Memory>
        ensures { IfOk result (λ u. u ≡ record (at self.now).w {
          top = record { at = point; names = names };
          below = over waiting (opened_frames below.now);
        }) }
    {
        Ok(Draft {
            top: WorkFrame { at: point, names },
            waiting,
            below,
            allocated: self.given.allocated,
            held: self.given.held.copy(self.alloc)?,
            returned: self.given.returned,
            phase: self.given.phase,
        })
    }

    /// The configuration with its top frame at this point with these names.
    pub fn at_point(&self, point: Point, names: WorkNames) -> Result<Draft<'a>, Memory>
        ensures { IfOk result (λ u. u ≡ spec.at_point (at self.now) point names) }
    {
        self.draft(point, names, None, self.given.below.as_slice())
    }

    /// The configuration at the next point.
    pub fn passed(&self) -> Result<Draft<'a>, Memory>
        ensures { IfOk result (λ u. u ≡ spec.passed (at self.now)) }
    {
        let names = self.names()?;
        self.at_point(self.next_point()?, names)
    }

    /// The configuration at the next point, with a result.
    pub fn bound(&self, x: Option<LocalId>, a: Val) -> Result<Draft<'a>, Memory>
        ensures { IfOk result (λ u. u ≡ spec.bound (at self.now) x a) }
    {
        let names = put_result(self.names()?, x, a)?;
        self.at_point(self.next_point()?, names)
    }

    /// The result is known.
    pub fn gives_known(&self, x: Option<LocalId>, v: Value) -> Result<Turn, Memory>
        ensures { IfOk result (λ turn. turn ≡ spec.gives_known (at self.now) x v) }
    {
        self.goes(self.bound(x, Val::Known(v))?)
    }

    /// The instruction is kept, and its result is Dynamic.
    pub fn gives_dynamic(&self, x: Option<LocalId>, item: Item) -> Result<Turn, Memory>
        ensures { IfOk result (λ turn. turn ≡ spec.gives_dynamic (at self.now) x item) }
    {
        self.kept(item, self.bound(x, Val::Dynamic(self.fresh))?)
    }

    /// The instruction is kept where the target has the capability.
    pub fn kept_if(&self, x: Option<LocalId>, permitted: bool, item: Item) -> Result<Turn, Memory>
        ensures { IfOk result (λ turn. turn ≡ spec.kept_if (at self.now) x permitted item) }
    {
        if permitted {
            self.gives_dynamic(x, item)
        } else {
            Ok(Turn::Bad(Kind::Capability))
        }
    }
}
