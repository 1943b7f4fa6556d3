//! Texts that are made of their parts.
use crate::given::bytes;
use ir_values::{Bytes, Memory, push_decimal};
use std::alloc::Global;

/// A program: its required numbers of qubits and of results, and the lines of its body.
#[derive(Clone, Copy)]
pub struct Program<'a> {
    pub qubits: u32,
    pub results: u32,
    pub body: &'a [u8],
}

impl Program<'_> {
    /// The text of a module with this entry, which declares whatever a program may call.
    pub fn text(&self, alloc: Global) -> Result<Bytes, Memory> {
        let mut text = bytes(alloc, HEAD)?;
        text.extend_from_slice(self.body)?;
        text.extend_from_slice(DECLARES)?;
        push_numbers(&mut text, self.qubits, self.results)?;
        text.extend_from_slice(IRREVERSIBLE)?;
        Ok(text)
    }
}

/// A lowered text: the blocks of its entry behind the call of the initialization, what is declared besides that, its
/// profile and required numbers, whether a declaration is irreversible, and the flags of its capabilities.
#[derive(Clone, Copy)]
pub struct Lowered<'a> {
    pub blocks: &'a [u8],
    pub declares: &'a [&'a [u8]],
    pub profile: &'a str,
    pub qubits: u32,
    pub results: u32,
    pub irreversible: bool,
    pub capabilities: &'a [&'a [u8]],
}

impl Lowered<'_> {
    pub fn text(&self, alloc: Global) -> Result<Bytes, Memory> {
        let mut text = bytes(alloc, LOWERED_HEAD)?;
        text.extend_from_slice(self.blocks)?;
        text.extend_from_slice(INITIALIZE)?;
        for declare in self.declares {
            text.extend_from_slice(declare)?;
            text.extend_from_slice(b"\n\n")?;
        }
        text.extend_from_slice(b"attributes #0 = { \"entry_point\" \"qir_profiles\"=\"")?;
        text.extend_from_slice(self.profile.as_bytes())?;
        text.extend_from_slice(
            b"_profile\" \"output_labeling_schema\" \"required_num_qubits\"=\"",
        )?;
        push_numbers(&mut text, self.qubits, self.results)?;
        if self.irreversible {
            text.extend_from_slice(IRREVERSIBLE)?;
        }
        self.push_flags(&mut text)?;
        Ok(text)
    }

    fn push_flags(&self, text: &mut Bytes) -> Result<(), Memory> {
        text.extend_from_slice(b"\n!llvm.module.flags = !{!0, !1, !2, !3")?;
        for number in 0..self.capabilities.len() {
            text.extend_from_slice(b", !")?;
            push_decimal(text, number as u128 + 4)?;
        }
        text.extend_from_slice(b"}\n\n")?;
        text.extend_from_slice(FLAGS)?;
        for (number, capability) in self.capabilities.iter().enumerate() {
            text.push(b'!')?;
            push_decimal(text, number as u128 + 4)?;
            text.extend_from_slice(b" = !{i32 1, !\"")?;
            text.extend_from_slice(capability)?;
            text.extend_from_slice(b"\", i1 true}\n")?;
        }
        Ok(())
    }
}

fn push_numbers(text: &mut Bytes, qubits: u32, results: u32) -> Result<(), Memory> {
    push_decimal(text, u128::from(qubits))?;
    text.extend_from_slice(b"\" \"required_num_results\"=\"")?;
    push_decimal(text, u128::from(results))?;
    text.extend_from_slice(b"\" }\n")
}

/// So many copies of a text, with the number of the copy, from 1, in the place of each `#`.
pub fn copies(alloc: Global, count: u32, pattern: &[u8]) -> Result<Bytes, Memory> {
    let mut text = Bytes::new(alloc);
    for number in 1..=count {
        push_copy(&mut text, number, pattern)?;
    }
    Ok(text)
}

fn push_copy(text: &mut Bytes, number: u32, pattern: &[u8]) -> Result<(), Memory> {
    for byte in pattern {
        if *byte == b'#' {
            push_decimal(text, u128::from(number))?;
        } else {
            text.push(*byte)?;
        }
    }
    Ok(())
}

const HEAD: &[u8] = b"define i64 @main() #0 {
entry:
";

const DECLARES: &[u8] = b"}
declare void @__quantum__rt__initialize(i8*)
declare %Qubit* @__quantum__rt__qubit_allocate()
declare void @__quantum__rt__qubit_release(%Qubit*)
declare i1 @__quantum__rt__read_result(%Result*)
declare i1 @__quantum__rt__result_equal(%Result*, %Result*)
declare void @__quantum__rt__result_record_output(%Result*, i8*)
declare void @__quantum__qis__h__body(%Qubit*)
declare void @__quantum__qis__x__body(%Qubit*)
declare void @__quantum__qis__z__body(%Qubit*)
declare void @__quantum__qis__cnot__body(%Qubit*, %Qubit*)
declare void @__quantum__qis__phase__body(i64, %Qubit*)
declare void @__quantum__qis__mz__body(%Qubit*, %Result*) #1
attributes #0 = { \"entry_point\" \"required_num_qubits\"=\"";

const IRREVERSIBLE: &[u8] = b"attributes #1 = { \"irreversible\" }
";

const LOWERED_HEAD: &[u8] = b"%Qubit = type opaque
%Result = type opaque

define i64 @main() #0 {
entry:
  call void @__quantum__rt__initialize(i8* null)
";

const INITIALIZE: &[u8] = b"}

declare void @__quantum__rt__initialize(i8*)

";

const FLAGS: &[u8] = b"!0 = !{i32 1, !\"qir_major_version\", i32 1}
!1 = !{i32 7, !\"qir_minor_version\", i32 0}
!2 = !{i32 1, !\"dynamic_qubit_management\", i1 false}
!3 = !{i32 1, !\"dynamic_result_management\", i1 false}
";
