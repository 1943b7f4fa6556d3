//! The flags of a module.
ghost use Rattle.std.specs.Prelude.{◌≡◌, ◌<◌, ◌≤◌, ◌^◌, ◌-◌, ◌++◌, ◌∷◌, [], nat_le, map, length, IsTrue, OnOk};
ghost use Rattle.ir_parts.specs.Parts.{text_of};
ghost use Rattle.ir_printer.specs.Canonical.{section};
ghost use Rattle.ir_printer.specs.Metadata as spec;
ghost use Rattle.ir_printer.specs.Pieces.{further, listed};
ghost use Rattle.ir_printer.specs.Spellings.{signed_spelling};

use crate::writer::Writer;
use ir_module::{Flag, FlagPart, FlagValue};
use ir_values::Memory;

impl Writer {
    /// Adds the list of the flags and their nodes, if there is a flag, each section behind an empty line.
    pub(crate) fn flags_sections(&mut self, flags: &[Flag]) -> Result<(), Memory>
        ensures { OnOk result (self.new ≡ self.old ++ text_of (section spec.flags_sections flags.now)) }
    {
        if flags.is_empty() {
            return Ok(());
        }
        self.byte(b'\n')?;
        self.flags_line(flags)?;
        self.byte(b'\n')?;
        self.nodes(flags)
    }

    /// Adds `!llvm.module.flags = !{!0, !1}`.
    #[tactic(auto, unfolding(crate::specs::Metadata::flags_line))]
    fn flags_line(&mut self, flags: &[Flag]) -> Result<(), Memory>
        ensures { OnOk result (self.new ≡ self.old ++ text_of (spec.flags_line flags.now)) }
    {
        self.flags_begin()?;
        self.flag_names(flags)?;
        self.write(b"}\n")
    }

    /// Adds `!llvm.module.flags = !{`.
    #[tactic(auto, unfolding(crate::specs::Metadata::flags_begin))]
    fn flags_begin(&mut self) -> Result<(), Memory>
        ensures { OnOk result (self.new ≡ self.old ++ text_of spec.flags_begin) }
    {
        self.write(b"!llvm.module.flags = !{")
    }

    fn flag_names(&mut self, flags: &[Flag]) -> Result<(), Memory>
        ensures { OnOk result (self.new ≡ self.old ++ text_of (listed (spec.flag_names 0 flags.now))) }
    {
        if let [_, rest @ ..] = flags {
            self.byte(b'!')?;
            self.number(0)?;
            self.further_flag_names(rest)?;
        }
        Ok(())
    }

    /// Adds the names of the nodes from number 1 on, each behind a comma.
    fn further_flag_names(&mut self, mut flags: &[Flag]) -> Result<(), Memory>
        ensures { OnOk result (self.new ≡ self.old ++ text_of (further (spec.flag_names 1 flags.entry.now))) }
    {
        let mut number: u128 = 1;
        while let [_, rest @ ..] = flags {
            self.write(b", !")?;
            self.number(number)?;
            number += 1;
            flags = rest;
        }
        Ok(())
    }

    /// Adds the nodes of the flags, and then those of their lists.
    #[tactic(auto, unfolding(crate::specs::Metadata::nodes_lines))]
    fn nodes(&mut self, flags: &[Flag]) -> Result<(), Memory>
        ensures { OnOk result (self.new ≡ self.old ++ text_of (spec.nodes_lines flags.now)) }
    {
        self.flag_lines(flags)?;
        self.list_lines(flags)
    }

    /// Adds the nodes of flags, whose lists are in the nodes behind these.
    fn flag_lines(&mut self, mut flags: &[Flag]) -> Result<(), Memory>
        ensures { OnOk result (self.new ≡ self.old
            ++ text_of (spec.flag_lines 0 (length flags.entry.now) flags.entry.now)) }
    {
        let mut number: u128 = 0;
        let mut node = flags.len() as u128;
        while let [flag, rest @ ..] = flags {
            self.node_begin(number)?;
            self.flag_node(node, flag)?;
            number += 1;
            node = behind_value(node, &flag.value);
            flags = rest;
        }
        Ok(())
    }

    /// Adds `!0 = `.
    fn node_begin(&mut self, number: u128) -> Result<(), Memory>
        ensures { OnOk result (self.new ≡ self.old ++ text_of (spec.node_begin number)) }
    {
        self.byte(b'!')?;
        self.number(number)?;
        self.write(b" = ")
    }

    /// Adds `!{i32 1, !"key", i32 1}`, with the number of the list's node where the value is a list.
    #[tactic(auto, unfolding(crate::specs::Metadata::flag_node))]
    fn flag_node(&mut self, node: u128, flag: &Flag) -> Result<(), Memory>
        ensures { OnOk result (self.new ≡ self.old ++ text_of (spec.flag_node node flag.now)) }
    {
        self.write(b"!{")?;
        self.key(flag)?;
        self.write(b", ")?;
        self.flag_value(node, &flag.value)?;
        self.write(b"}\n")
    }

    /// Adds `i32 1, !"key"`.
    fn key(&mut self, flag: &Flag) -> Result<(), Memory>
        ensures { OnOk result (self.new ≡ self.old ++ text_of (spec.key_parts flag.now)) }
    {
        self.wide_int(32, u128::from(flag.behaviour))?;
        self.write(b", ")?;
        self.metadata_text(flag.key.as_slice())
    }

    fn flag_value(&mut self, node: u128, value: &FlagValue) -> Result<(), Memory>
        ensures { OnOk result (self.new ≡ self.old ++ text_of (spec.value_parts node value.now)) }
    {
        match value {
            FlagValue::One(part) => self.flag_part(part),
            FlagValue::List(_) => {
                self.byte(b'!')?;
                self.number(node)
            }
        }
    }

    /// Adds the nodes of the lists.
    fn list_lines(&mut self, mut flags: &[Flag]) -> Result<(), Memory>
        ensures { OnOk result (self.new ≡ self.old
            ++ text_of (spec.list_lines (length flags.entry.now) flags.entry.now)) }
    {
        let mut node = flags.len() as u128;
        while let [flag, rest @ ..] = flags {
            self.list_line(node, &flag.value)?;
            node = behind_value(node, &flag.value);
            flags = rest;
        }
        Ok(())
    }

    fn list_line(&mut self, node: u128, value: &FlagValue) -> Result<(), Memory>
        ensures { OnOk result (self.new ≡ self.old ++ text_of (spec.list_line node value.now)) }
    {
        match value {
            FlagValue::One(_) => Ok(()),
            FlagValue::List(parts) => {
                self.node_begin(node)?;
                self.list_node(parts.as_slice())
            }
        }
    }

    /// Adds `!{!"text", !"text"}`.
    #[tactic(auto, unfolding(crate::specs::Metadata::list_node))]
    fn list_node(&mut self, parts: &[FlagPart]) -> Result<(), Memory>
        ensures { OnOk result (self.new ≡ self.old ++ text_of (spec.list_node parts.now)) }
    {
        self.write(b"!{")?;
        self.flag_parts(parts)?;
        self.write(b"}\n")
    }

    fn flag_parts(&mut self, parts: &[FlagPart]) -> Result<(), Memory>
        ensures { OnOk result (self.new ≡ self.old ++ text_of (listed (map spec.flag_part_parts parts.now))) }
    {
        if let [first, rest @ ..] = parts {
            self.flag_part(first)?;
            self.further_flag_parts(rest)?;
        }
        Ok(())
    }

    /// Adds parts of a flag's value, each behind a comma.
    fn further_flag_parts(&mut self, mut parts: &[FlagPart]) -> Result<(), Memory>
        ensures { OnOk result (self.new ≡ self.old ++ text_of (further (map spec.flag_part_parts parts.entry.now))) }
    {
        while let [part, rest @ ..] = parts {
            self.write(b", ")?;
            self.flag_part(part)?;
            parts = rest;
        }
        Ok(())
    }

    fn flag_part(&mut self, part: &FlagPart) -> Result<(), Memory>
        ensures { OnOk result (self.new ≡ self.old ++ text_of (spec.flag_part_parts part.now)) }
    {
        match part {
            FlagPart::Int { width, bits } => self.wide_int(*width, *bits),
            FlagPart::Text(bytes) => self.metadata_text(bytes.as_slice()),
        }
    }

    /// Adds `!"text"`.
    fn metadata_text(&mut self, bytes: &[u8]) -> Result<(), Memory>
        ensures { OnOk result (self.new ≡ self.old ++ text_of (spec.text_parts bytes.now)) }
    {
        self.byte(b'!')?;
        self.quoted(bytes)
    }

    /// Adds `i32 1`.
    fn wide_int(&mut self, width: u32, bits: u128) -> Result<(), Memory>
        ensures { OnOk result (self.new ≡ self.old ++ text_of (spec.int_parts width bits)) }
    {
        self.byte(b'i')?;
        self.number(u128::from(width))?;
        self.byte(b' ')?;
        self.bits_of_width(width, bits)
    }

    fn bits_of_width(&mut self, width: u32, bits: u128) -> Result<(), Memory>
        ensures { OnOk result (self.new ≡ self.old ++ text_of (spec.wide_int_part width bits ∷ [])) }
    {
        if width == 1 {
            self.bit(bits)
        } else {
            self.signed_bits(width, bits)
        }
    }

    /// Adds the value of these bits in two's complement of this width.
    fn signed_bits(&mut self, width: u32, bits: u128) -> Result<(), Memory>
        ensures { OnOk result (self.new ≡ self.old ++ signed_spelling width bits) }
    {
        if is_negative(width, bits) {
            self.byte(b'-')?;
            self.number(magnitude(width, bits))
        } else {
            self.number(bits)
        }
    }
}

/// The number of the next list's node.
fn behind_value(node: u128, value: &FlagValue) -> u128
    requires { node < 2 ^ 127 }
    ensures { result ≡ spec.behind_value node value.now }
{
    match value {
        FlagValue::One(_) => node,
        FlagValue::List(_) => node + 1,
    }
}

/// Whether the value of these bits in two's complement of this width is below zero.
#[tactic(auto, using(crate::proofs::Powers::above))]
fn is_negative(width: u32, bits: u128) -> bool
    ensures value { result ≡ nat_le (2 ^ (width - 1)) bits }
    ensures narrow { IsTrue result → width ≤ 128 }
{
    width <= 128 && sign_bit(width) <= bits
}

/// The number whose bit at the top of this width is set alone.
#[tactic(auto, using(crate::proofs::Powers::shifted))]
fn sign_bit(width: u32) -> u128
    requires { width ≤ 128 }
    ensures { result ≡ 2 ^ (width - 1) }
{
    1u128 << width.saturating_sub(1)
}

/// How far such a value is below zero.
#[tactic(auto, using(crate::proofs::Powers::shifted, crate::proofs::Powers::topmost))]
fn magnitude(width: u32, bits: u128) -> u128
    requires narrow { width ≤ 128 }
    requires negative { IsTrue (nat_le (2 ^ (width - 1)) bits) }
    ensures { result ≡ 2 ^ width - bits }
{
    if width < 128 {
        (1u128 << width).saturating_sub(bits)
    } else {
        u128::MAX - bits + 1
    }
}
