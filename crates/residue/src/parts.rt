//! Residues: lowered programs in parts.
use ir_module::{Attrs, Constants};
use ir_values::{Bytes, Int, Name, Seq, Width};
use kept_items::{Dyn, Item, Val};

/// Values in an order.
pub type Vals = Seq<Val>;

/// A line of a part: an item, or a mark that an allocation begins or ends here, which isn't printed.
#[derive(Drop)]
pub enum Line {
    /// What is left of an instruction.
    Item(Item),
    /// The allocation of this number begins.
    Made(u64),
    /// The allocation of this number ends.
    Freed(u64),
}

/// The lines of a part.
pub type Lines = Seq<Line>;

/// A jump to the part of this number, with the values of its parameters.
#[derive(Drop)]
pub struct Jump {
    pub to: u32,
    pub args: Vals,
}

/// Jumps in an order.
pub type Jumps = Seq<Jump>;

/// The cases of a switch.
pub type SwitchCases = Seq<(Int, Jump)>;

/// How a part ends.
#[derive(Drop)]
pub enum Tail {
    /// To one part.
    Jump(Jump),
    /// By the first jump where the value is one, else by the second.
    Branch(Val, Jump, Jump),
    /// By the jump of the case, of this width, that equals the value, else by the jump that stands first.
    Switch(Width, Val, Jump, SwitchCases),
    /// The entry returns the value.
    Return(Val),
}

/// The parameters of a part with their widths.
pub type Params = Seq<(Dyn, Width)>;

/// A straight piece of a lowered program.
#[derive(Drop)]
pub struct Part {
    pub params: Params,
    pub lines: Lines,
    pub tail: Tail,
}

/// The parts of a residue, by their numbers.
pub type Parts = Seq<Part>;

/// The names of functions.
pub type Names = Seq<Bytes>;

/// A lowered program. `entry` and `attrs` are the name and the attributes of the source's entry, and
/// `irreversible` names the operations that can't be undone, those that are called among them.
/// `own_qubits` and `own_results` are the required numbers of the source, `all_qubits` and `all_results`
/// those that are printed. Qubits and results stand as in the source.
#[derive(Drop)]
pub struct Residue {
    pub globals: Constants,
    pub entry: Name,
    pub attrs: Attrs,
    pub irreversible: Names,
    pub own_qubits: u64,
    pub own_results: u64,
    pub all_qubits: u64,
    pub all_results: u64,
    pub parts: Parts,
}
