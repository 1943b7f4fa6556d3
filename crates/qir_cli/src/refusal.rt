//! Why a command refuses its input, and the line that says so.
ghost use Rattle.std.specs.Prelude.{◌≡◌, ◌++◌, IfOk, OnOk};
ghost use Rattle.qir_cli.specs.code.Stops.{stop_of};
ghost use Rattle.qir_cli.specs.declared.refusal.Stop.TheVariants as stop;
ghost use Rattle.qir_cli.specs.Refusals as spec;

use ir_module::Place;
use ir_reader::{ReadCode, ReadStop};
use ir_values::{Bytes, Memory, push_decimal};
use kept_items::Kind;
use output_lines::cause_name;
use std::alloc::Global;
use type_check::TypeCode;

/// Why an input is refused. The stage that refuses it is part of the fault.
#[derive(Clone, Copy)]
pub(crate) enum Fault {
    /// The input has more than 4,194,304 bytes.
    TooLong,
    /// The bytes are no module text.
    Read(ReadCode),
    /// The module breaks a rule of admission.
    Rule(TypeCode),
    /// Constant evaluation doesn't decide an instruction of the module, or the target doesn't permit it.
    Lower(Kind),
}

/// A fault and its place in the input.
#[derive(Clone, Copy)]
pub(crate) struct Refusal {
    pub(crate) fault: Fault,
    pub(crate) place: Place,
}

/// What stops a command before it has a reply of its own.
#[derive(Clone, Copy)]
pub(crate) enum Stop {
    /// The input is refused.
    Refused(Refusal),
    /// Out of memory.
    Memory,
}

impl From<Refusal> for Stop {
    ghost from_gives = { λ why s. s ≡ stop.Refused why };

    fn from(why: Refusal) -> Stop {
        Stop::Refused(why)
    }
}

impl From<Memory> for Stop {
    ghost from_gives = { λ _ s. s ≡ stop.Memory };

    fn from(_e: Memory) -> Stop {
        Stop::Memory
    }
}

impl From<ReadStop> for Stop {
    ghost from_gives = { λ e s. s ≡ stop_of e };

    fn from(e: ReadStop) -> Stop {
        match e {
            ReadStop::Refused { code, place } => Stop::Refused(Refusal {
                fault: Fault::Read(code),
                place,
            }),
            ReadStop::Memory => Stop::Memory,
        }
    }
}

impl Fault {
    /// The fault of the text as a whole.
    pub(crate) fn at_start(self) -> Refusal
        ensures { result ≡ spec.at_start self }
    {
        Refusal {
            fault: self,
            place: Place { line: 1, column: 1 },
        }
    }

    /// The stage that refuses.
    fn stage(self) -> &'static [u8]
        ensures { result.now ≡ spec.stage_of self }
    {
        match self {
            Fault::TooLong => b"input",
            Fault::Read(_) => b"read",
            Fault::Rule(_) => b"type",
            Fault::Lower(_) => b"lower",
        }
    }

    /// Adds the code of the fault last.
    fn push_code(self, text: &mut Bytes) -> Result<(), Memory>
        ensures { OnOk result (text.new ≡ text.old ++ spec.code_of self) }
    {
        match self {
            Fault::TooLong => text.extend_from_slice(b"1"),
            Fault::Read(code) => push_decimal(text, u128::from(code.number())),
            Fault::Rule(code) => push_decimal(text, u128::from(code.number())),
            Fault::Lower(kind) => text.extend_from_slice(kind_code(kind)),
        }
    }

    /// The name of the fault.
    fn name(self) -> &'static [u8]
        ensures { result.now ≡ spec.name_of self }
    {
        match self {
            Fault::TooLong => b"TooLong",
            Fault::Read(code) => code.name(),
            Fault::Rule(code) => code.name(),
            Fault::Lower(kind) => kind_name(kind),
        }
    }
}

/// The code of a reason against lowering.
fn kind_code(kind: Kind) -> &'static [u8]
    ensures { result.now ≡ spec.kind_code kind }
{
    match kind {
        Kind::Handle => b"U1",
        Kind::Target => b"U2",
        Kind::Loop => b"U3",
        Kind::Budget => b"U4",
        Kind::Token => b"U5",
        Kind::Forbidden => b"F1",
        Kind::Phase => b"F2",
        Kind::Capability => b"F3",
        Kind::Traps(_) => b"F4",
    }
}

/// The name of a reason against lowering.
fn kind_name(kind: Kind) -> &'static [u8]
    ensures { result.now ≡ spec.kind_name kind }
{
    match kind {
        Kind::Handle => b"Handle",
        Kind::Target => b"Target",
        Kind::Loop => b"Loop",
        Kind::Budget => b"Budget",
        Kind::Token => b"Token",
        Kind::Forbidden => b"Forbidden",
        Kind::Phase => b"Phase",
        Kind::Capability => b"Capability",
        Kind::Traps(cause) => cause_name(cause),
    }
}

impl Refusal {
    /// The line of the refusal, with its line feed.
    pub(crate) fn line(&self, alloc: Global) -> Result<Bytes, Memory>
        ensures { IfOk result (λ line. line ≡ spec.refusal_line self.now) }
    {
        let mut line = Bytes::new(alloc);
        line.extend_from_slice(b"REFUSED\t")?;
        line.extend_from_slice(self.fault.stage())?;
        line.push(b'\t')?;
        self.fault.push_code(&mut line)?;
        line.push(b'\t')?;
        push_decimal(&mut line, u128::from(self.place.line))?;
        line.push(b'\t')?;
        push_decimal(&mut line, u128::from(self.place.column))?;
        line.push(b'\t')?;
        line.extend_from_slice(self.fault.name())?;
        line.push(b'\n')?;
        Ok(line)
    }
}
