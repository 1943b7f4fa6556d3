//! Nodes and flags.
#![tactic(auto, using(crate::proofs::Parts::fails_front, crate::proofs::Parts::fails_behind, crate::proofs::Parts::clean))]

ghost use Rattle.std.specs.Prelude.{◌≡◌, ◌-◌, ◌^◌, ◌&&◌, not, is_some, map, IfOk};
ghost use Rattle.std.specs.List.{filter_map, flat_map};
ghost use Rattle.std.specs.Option.{option_and_then};
ghost use Rattle.ir_grammar.specs.SideRules.{bits_of_sign};
ghost use Rattle.ir_names.specs.Faults.{fault_if};
ghost use Rattle.ir_names.specs.Metadata as spec;
ghost use Rattle.ir_names.specs.code.Answers.{Gives};
ghost use Rattle.ir_names.specs.code.Seen.{outside};
ghost use Rattle.ir_names.specs.declared.fault.NameCode.TheVariants as bad;

use crate::fault::{NameCode, Stop};
use crate::functions::push_some;
use crate::lines::is_before;
use crate::name::written;
use crate::outer::Outer;
use ir_grammar::{ElemSyntax, ItemSyntax, PartSyntax};
use ir_module::{Flag, FlagPart, FlagParts, FlagValue, ModuleFlags};
use ir_tokens::Token;
use ir_values::{Bytes, Memory, Seq};

/// The bits of an integer with a minus, of a width from 1 to 128 and a magnitude that isn't 0.
fn negative_bits(width: u32, magnitude: u128) -> Result<u128, Memory>
    ensures { IfOk result (λ b. b ≡ 2 ^ width - magnitude) }
{
    if width < 128 {
        Ok((1u128 << width).saturating_sub(magnitude))
    } else if width == 128 && magnitude > 0 {
        Ok(u128::MAX - (magnitude - 1))
    } else {
        Err(Memory)
    }
}

/// The bits of an integer. No text has a width above 128.
fn bits_of_sign(width: u32, negative: bool, magnitude: u128) -> Result<u128, Memory>
    ensures { IfOk result (λ b. b ≡ bits_of_sign width negative magnitude) }
{
    if !negative || magnitude == 0 {
        Ok(magnitude)
    } else {
        negative_bits(width, magnitude)
    }
}

/// A width in 32 bits. No text has one above 128.
fn width(width: u128) -> Result<u32, Memory>
    ensures { IfOk result (λ w. w ≡ width) }
{
    if width < 129 {
        Ok(width as u32)
    } else {
        Err(Memory)
    }
}

impl Outer<'_> {
    /// An integer or a string of a node.
    fn part(&self, part: &PartSyntax) -> Result<FlagPart, Memory>
        ensures { IfOk result (λ p. p ≡ spec.part_of (outside self.now) part.now) }
    {
        match part {
            PartSyntax::Text(token) => Ok(FlagPart::Text(self.string(token)?)),
            PartSyntax::Integer(bits, negative, magnitude) => {
                let width = width(*bits)?;
                Ok(FlagPart::Int {
                    width,
                    bits: bits_of_sign(width, *negative, *magnitude)?,
                })
            }
        }
    }

    /// Integers and strings of a node.
    fn parts(&self, mut parts: &[PartSyntax]) -> Result<FlagParts, Memory>
        ensures { IfOk result (λ ps. ps ≡ map (spec.part_of (outside self.now)) parts.entry.now) }
    {
        let mut out = Seq::new(self.alloc);
        while let [part, rest @ ..] = parts {
            out.push(self.part(part)?)?;
            parts = rest;
        }
        Ok(out)
    }

    /// The parts of a node that holds integers and strings alone.
    #[tactic(auto, using(crate::proofs::Nodes::one_more_part))]
    fn parts_in(&self, mut elems: &[ElemSyntax]) -> Result<Option<FlagParts>, Memory>
        ensures { IfOk result (λ ps. ps ≡ spec.parts_in (outside self.now) elems.entry.now) }
    {
        let mut out = Seq::new(self.alloc);
        while let [elem, rest @ ..] = elems {
            match elem {
                ElemSyntax::Part(part) => out.push(self.part(part)?)?,
                _ => return Ok(None),
            }
            elems = rest;
        }
        Ok(Some(out))
    }

    /// The parts of a node that is named.
    fn named_parts(&self, token: &Token) -> Result<Option<FlagParts>, Memory>
        ensures { let s = outside self.now in IfOk result (λ ps. ps ≡ option_and_then (spec.parts_in s) (spec.node_of s token.now)) }
    {
        match self.node(token) {
            Some(ItemSyntax::Node(_, elems)) => self.parts_in(elems.as_slice()),
            _ => Ok(None),
        }
    }

    /// The value of a flag.
    fn value(&self, elem: &ElemSyntax) -> Result<Option<FlagValue>, Memory>
        ensures { IfOk result (λ v. v ≡ spec.value_of (outside self.now) elem.now) }
    {
        match elem {
            ElemSyntax::Part(part) => Ok(Some(FlagValue::One(self.part(part)?))),
            ElemSyntax::Null => Ok(None),
            ElemSyntax::Parts(parts) => Ok(Some(FlagValue::List(self.parts(parts.as_slice())?))),
            ElemSyntax::Node(token) => match self.named_parts(token)? {
                None => Ok(None),
                Some(parts) => Ok(Some(FlagValue::List(parts))),
            },
        }
    }

    /// The flag of an integer of 32 bits, a key and a value.
    fn flag_with(
        &self,
        negative: bool,
        magnitude: u128,
        key: &Token,
        value: &ElemSyntax,
    ) -> Result<Option<Flag>, Memory>
        ensures { let s = outside self.now in IfOk result (λ f. f ≡ spec.flag_with_value s negative magnitude key.now (spec.value_of s value.now)) }
    {
        let behaviour = bits_of_sign(32, negative, magnitude)?;
        let key = self.string(key)?;
        match self.value(value)? {
            None => Ok(None),
            Some(value) => {
                if behaviour < 0x1_0000_0000 {
                    Ok(Some(Flag {
                        behaviour: behaviour as u32,
                        key,
                        value,
                    }))
                } else {
                    Err(Memory)
                }
            }
        }
    }

    /// The flag of a node, if it has the shape of one.
    fn flag(&self, elems: &[ElemSyntax]) -> Result<Option<Flag>, Memory>
        ensures { IfOk result (λ f. f ≡ spec.flag_of (outside self.now) elems.now) }
    {
        match elems {
            [
                ElemSyntax::Part(PartSyntax::Integer(width, negative, magnitude)),
                ElemSyntax::Part(PartSyntax::Text(key)),
                value,
            ] => {
                if *width == 32 {
                    self.flag_with(*negative, *magnitude, key, value)
                } else {
                    Ok(None)
                }
            }
            _ => Ok(None),
        }
    }

    /// The flag of a node that is listed.
    fn listed_flag(&self, token: &Token) -> Result<Option<Flag>, Memory>
        ensures { IfOk result (λ f. f ≡ spec.listed_flag (outside self.now) token.now) }
    {
        match self.node(token) {
            Some(ItemSyntax::Node(_, elems)) => self.flag(elems.as_slice()),
            _ => Ok(None),
        }
    }

    /// The flags of nodes that are listed.
    #[tactic(auto, using(crate::proofs::Lists::one_more))]
    fn listed_flags(&self, mut nodes: &[Token]) -> Result<ModuleFlags, Memory>
        ensures { IfOk result (λ fs. fs ≡ filter_map (spec.listed_flag (outside self.now)) nodes.entry.now) }
    {
        let mut out = Seq::new(self.alloc);
        while let [node, rest @ ..] = nodes {
            push_some(&mut out, self.listed_flag(node)?)?;
            nodes = rest;
        }
        Ok(out)
    }

    /// The flags of the module.
    pub(crate) fn flags(&self) -> Result<ModuleFlags, Memory>
        requires { self.now.globals.now.listed.list ≡ spec.listed (outside self.now).spelling self.now.items.now }
        ensures { IfOk result (λ fs. fs ≡ spec.flags_of (outside self.now)) }
    {
        self.listed_flags(self.globals.listed.list.as_slice())
    }

    /// A node that is used exists.
    fn node_use(&self, token: &Token) -> Result<(), Stop>
        ensures { Gives (spec.node_use_faults (outside self.now) token.now) tt result }
    {
        match self.globals.nodes.number(&written(token)) {
            Some(_) => Ok(()),
            None => Err(Stop::at(NameCode::Unknown, token)),
        }
    }

    /// The nodes that a line lists exist.
    pub(crate) fn node_uses(&self, mut nodes: &[Token]) -> Result<(), Stop>
        ensures { Gives (flat_map (spec.node_use_faults (outside self.now)) nodes.entry.now) tt result }
    {
        while let [node, rest @ ..] = nodes {
            self.node_use(node)?;
            nodes = rest;
        }
        Ok(())
    }

    /// The node that an element may name exists.
    fn elem(&self, elem: &ElemSyntax) -> Result<(), Stop>
        ensures { Gives (spec.elem_faults (outside self.now) elem.now) tt result }
    {
        match elem {
            ElemSyntax::Node(token) => self.node_use(token),
            _ => Ok(()),
        }
    }

    /// The nodes that elements name exist.
    fn elems(&self, mut elems: &[ElemSyntax]) -> Result<(), Stop>
        ensures { Gives (flat_map (spec.elem_faults (outside self.now)) elems.entry.now) tt result }
    {
        while let [elem, rest @ ..] = elems {
            self.elem(elem)?;
            elems = rest;
        }
        Ok(())
    }

    /// A node is a flag where it is listed as one. An unlisted one isn't looked at.
    fn listed_node(&self, token: &Token, elems: &[ElemSyntax]) -> Result<(), Stop>
        ensures { let s = outside self.now in Gives (fault_if (is_some (s.listed token.now) && not (is_some (spec.flag_of s elems.now))) bad.BadFlag token.now) tt result }
    {
        match self.globals.listed.table.number(&written(token)) {
            None => Ok(()),
            Some(_) => match self.flag(elems)? {
                Some(_) => Ok(()),
                None => Err(Stop::at(NameCode::BadFlag, token)),
            },
        }
    }

    /// A node that stands at an item has a new number, and is a flag where it is listed as one.
    fn new_node(&self, item: u64, token: &Token, elems: &[ElemSyntax]) -> Result<(), Stop>
        ensures { Gives (spec.own_faults (outside self.now) item token.now elems.now) tt result }
    {
        let number = written(token);
        if is_before(self.globals.nodes.number(&number), item) {
            return Err(Stop::at(NameCode::Duplicate, token));
        }
        self.listed_node(token, elems)
    }

    /// A node that stands at an item.
    pub(crate) fn node_item(
        &self,
        item: u64,
        token: &Token,
        elems: &[ElemSyntax],
    ) -> Result<(), Stop>
        ensures { Gives (spec.node_faults (outside self.now) item token.now elems.now) tt result }
    {
        self.new_node(item, token, elems)?;
        self.elems(elems)
    }
}
