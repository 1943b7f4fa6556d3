//! Dynamic values by their numbers in a lowered program.
ghost use Rattle.std.specs.Prelude.{◌≡◌, ◌+◌, [], ◌∷◌, ◌++◌, Some, length, map, IfOk, OnOk};
ghost use Rattle.fused_parts.specs.Nodes.{gives};
ghost use Rattle.fused_parts.specs.Parts.{after, dyn, first_label, in_row, no_numbers, number_at, renamed, renamed_arg, renamed_item, with_widths};

use ir_values::{Copies, Memory, Seq, Ty, Width};
use kept_items::{Dyn, Dyns, Item, TypedVals, Val};
use path_search::Link;
use residue::Params;
use std::alloc::Global;
use unroller::{Node, Outcome};

/// The numbers of a configuration's Dynamic values, in their order there, and the first number that isn't
/// given yet.
#[derive(Debug, Drop)]
pub struct Numbers {
    pub free: u64,
    pub mine: Dyns,
}

impl Numbers {
    /// The number of a Dynamic value of the configuration.
    pub fn at(&self, d: Dyn) -> Dyn
        ensures { result ≡ number_at self.now.mine d }
    {
        match self.mine.as_slice().get(d.0 as usize) {
            Some(number) => *number,
            None => Dyn(0),
        }
    }

    /// A value by its number.
    pub fn val(&self, alloc: Global, val: &Val) -> Result<Val, Memory>
        ensures { IfOk result (λ v. v ≡ renamed self.now.mine val.now) }
    {
        match val {
            Val::Known(value) => Ok(Val::Known(value.copy(alloc)?)),
            Val::Dynamic(d) => Ok(Val::Dynamic(self.at(*d))),
        }
    }

    /// An argument by its number.
    pub fn arg(&self, alloc: Global, arg: &(Ty, Val)) -> Result<(Ty, Val), Memory>
        ensures { IfOk result (λ a. a ≡ renamed_arg self.now.mine arg.now) }
    {
        let ty = arg.0.copy(alloc)?;
        let val = self.val(alloc, &arg.1)?;
        Ok((ty, val))
    }

    /// Arguments by their numbers.
    pub fn args(&self, alloc: Global, args: &[(Ty, Val)]) -> Result<TypedVals, Memory>
        ensures { IfOk result (λ out. out ≡ map (renamed_arg self.now.mine) args.now) }
    {
        let mut out = Seq::new(alloc);
        for arg in args {
            out.push(self.arg(alloc, arg)?)?;
        }
        Ok(out)
    }

    /// An item by its numbers; its own result gets the first that is free.
    pub fn item(&self, alloc: Global, item: &Item) -> Result<Item, Memory>
        ensures { IfOk result (λ i. i ≡ renamed_item self.now.mine self.now.free item.now) }
    {
        let own = Dyn(self.free);
        Ok(match item {
            Item::Binary(_, op, flags, width, a, b) => {
                Item::Binary(
                    own,
                    *op,
                    *flags,
                    *width,
                    self.val(alloc, a)?,
                    self.val(alloc, b)?,
                )
            }
            Item::Icmp(_, pred, width, a, b) => {
                Item::Icmp(own, *pred, *width, self.val(alloc, a)?, self.val(alloc, b)?)
            }
            Item::Convert(_, conv, width, a, to) => {
                Item::Convert(own, *conv, *width, self.val(alloc, a)?, *to)
            }
            Item::Select(_, width, c, a, b) => {
                let c = self.val(alloc, c)?;
                Item::Select(own, *width, c, self.val(alloc, a)?, self.val(alloc, b)?)
            }
            Item::Read(_, v) => Item::Read(own, v.copy(alloc)?),
            Item::Equal(_, v, u) => Item::Equal(own, v.copy(alloc)?, u.copy(alloc)?),
            Item::Operation(name, args) => {
                Item::Operation(name.copy(alloc)?, self.args(alloc, args.as_slice())?)
            }
            Item::Output(class, args) => Item::Output(*class, self.args(alloc, args.as_slice())?),
        })
    }

    /// The values that a successor's Dynamic names take, by their numbers.
    pub fn taken(&self, alloc: Global, label: &[Dyn]) -> Result<Dyns, Memory>
        ensures { IfOk result (λ ds. ds ≡ map (number_at self.now.mine) label.now) }
    {
        let mut out = Seq::new(alloc);
        for d in label {
            out.push(self.at(*d))?;
        }
        Ok(out)
    }

    /// No value has a number.
    pub fn none(alloc: Global) -> Numbers
        ensures { result ≡ no_numbers }
    {
        Numbers {
            free: 0,
            mine: Seq::new(alloc),
        }
    }

    /// The numbers of as many values as there are widths, none of which has one below `first`, and the parameters that
    /// they are. [`Memory`] also comes where numbers end.
    pub fn begin(alloc: Global, first: u64, widths: &[Width]) -> Result<(Numbers, Params), Memory>
        ensures numbers { IfOk result (λ r. r.0 ≡ record { free = first + length widths.now; mine = in_row first (length widths.now) }) }
        ensures params { IfOk result (λ r. r.1 ≡ with_widths (in_row first (length widths.now)) widths.now) }
    {
        let mut free = first;
        let mut mine = Seq::new(alloc);
        let mut params = Seq::new(alloc);
        let mut rest = widths;
        while let [width, behind @ ..] = rest {
            mine.push(Dyn(free))?;
            params.push((Dyn(free), *width))?;
            free = free.checked_add(1).ok_or(Memory)?;
            rest = behind;
        }
        Ok((Numbers { free, mine }, params))
    }

    /// Gives one value more the first number that is free.
    fn give(&mut self) -> Result<(), Memory>
        ensures { OnOk result (self.new ≡ record { free = self.old.free + 1; mine = self.old.mine ++ dyn self.old.free ∷ [] }) }
    {
        let own = Dyn(self.free);
        self.free = self.free.checked_add(1).ok_or(Memory)?;
        self.mine.push(own)
    }

    /// Gives what an item gives its number.
    #[tactic(auto, using(crate::proofs::Giving::none_more))]
    fn pass_item(&mut self, item: &Item) -> Result<(), Memory>
        ensures { OnOk result (self.new ≡ record {
          free = self.old.free + gives (Some item.now);
          mine = self.old.mine ++ in_row self.old.free (gives (Some item.now));
        }) }
    {
        match item {
            Item::Operation(_, _) => Ok(()),
            Item::Output(_, _) => Ok(()),
            Item::Binary(_, _, _, _, _, _) => self.give(),
            Item::Icmp(_, _, _, _, _) => self.give(),
            Item::Convert(_, _, _, _, _) => self.give(),
            Item::Select(_, _, _, _, _) => self.give(),
            Item::Read(_, _) => self.give(),
            Item::Equal(_, _, _) => self.give(),
        }
    }

    /// Gives what a configuration's item gives its number. [`Memory`] also comes where numbers end.
    #[tactic(auto, using(crate::proofs::Giving::none_more))]
    pub fn pass(&mut self, node: &Node) -> Result<(), Memory>
        ensures { OnOk result (self.new ≡ after node.now self.old) }
    {
        match &node.item {
            Outcome::Goes(Some(item), _) => self.pass_item(item),
            Outcome::Goes(None, _) => Ok(()),
            Outcome::Exits(_) => Ok(()),
        }
    }

    /// Goes on with the values that the Dynamic names of the configuration take to which the first link leads.
    pub fn go_on(&mut self, alloc: Global, links: &[Link<Dyns>]) -> Result<(), Memory>
        ensures { OnOk result (self.new ≡ record { free = self.old.free; mine = map (number_at self.old.mine) (first_label links.now) }) }
    {
        match links {
            [] => {
                self.mine = Seq::new(alloc);
                Ok(())
            }
            [first, ..] => {
                self.mine = self.taken(alloc, first.label.as_slice())?;
                Ok(())
            }
        }
    }
}
