//! Texts of modules.
ghost use Rattle.ir_module.specs.Numbered.{Numbered};

use admission::{Checked, admit};
use ir_module::Module;
use ir_reader::read;
use ir_values::{Bytes, Memory};
use std::alloc::Global;

/// Two qubits that are made equal and measured, with a record of both bits: eight instructions up to the records, three
/// records and the return.
const PAIR: &str = "%Qubit = type opaque
%Result = type opaque

@0 = internal constant [3 x i8] c\"r0\\00\"
@1 = internal constant [3 x i8] c\"r1\\00\"

define i64 @main() #0 {
entry:
  call void @__quantum__rt__initialize(i8* null)
  br label %body

body:
  call void @__quantum__qis__h__body(%Qubit* null)
  call void @__quantum__qis__cnot__body(%Qubit* null, %Qubit* inttoptr (i64 1 to %Qubit*))
  br label %measurements

measurements:
  call void @__quantum__qis__mz__body(%Qubit* null, %Result* null)
  call void @__quantum__qis__mz__body(%Qubit* inttoptr (i64 1 to %Qubit*), %Result* inttoptr (i64 1 to %Result*))
  br label %output

output:
  call void @__quantum__rt__tuple_record_output(i64 2, i8* null)
  call void @__quantum__rt__result_record_output(%Result* null, i8* getelementptr inbounds ([3 x i8], [3 x i8]* @0, i32 0, i32 0))
  call void @__quantum__rt__result_record_output(%Result* inttoptr (i64 1 to %Result*), i8* getelementptr inbounds ([3 x i8], [3 x i8]* @1, i32 0, i32 0))
  ret i64 0
}

declare void @__quantum__rt__initialize(i8*)

declare void @__quantum__qis__h__body(%Qubit*)

declare void @__quantum__qis__cnot__body(%Qubit*, %Qubit*)

declare void @__quantum__qis__mz__body(%Qubit*, %Result*) #1

declare void @__quantum__rt__tuple_record_output(i64, i8*)

declare void @__quantum__rt__result_record_output(%Result*, i8*)

attributes #0 = { \"entry_point\" \"qir_profiles\"=\"base_profile\" \"output_labeling_schema\"=\"labeled\" \"required_num_qubits\"=\"2\" \"required_num_results\"=\"2\" }
attributes #1 = { \"irreversible\" }
";

/// A loop of three turns, each a call that calls a gate: a branch, three times six instructions, a branch and a return.
const TURNS: &str = "define i64 @main() #0 {
entry:
  br label %loop
loop:
  %i = phi i64 [ 0, %entry ], [ %n, %loop ]
  call void @turn(i64 %i, %Qubit* null)
  %n = add i64 %i, 1
  %c = icmp slt i64 %n, 3
  br i1 %c, label %loop, label %done
done:
  ret i64 0
}
define void @turn(i64 %n, %Qubit* %q) {
b:
  call void @__quantum__qis__phase__body(i64 %n, %Qubit* %q)
  ret void
}
declare void @__quantum__qis__phase__body(i64, %Qubit*)
attributes #0 = { \"entry_point\" \"required_num_qubits\"=\"1\" }
";

/// What stands before the body of an entry, and what stands behind it.
const HEAD: &str = "define i64 @main() #0 {\nentry:\n";

const TAIL: &str = "}
declare void @__quantum__rt__initialize(i8*)
declare %Qubit* @__quantum__rt__qubit_allocate()
declare void @__quantum__rt__qubit_release(%Qubit*)
declare i1 @__quantum__rt__read_result(%Result*)
declare i1 @__quantum__rt__result_equal(%Result*, %Result*)
declare void @__quantum__rt__result_record_output(%Result*, i8*)
declare void @__quantum__qis__h__body(%Qubit*)
declare void @__quantum__qis__x__body(%Qubit*)
declare void @__quantum__qis__z__body(%Qubit*)
declare void @__quantum__qis__cnot__body(%Qubit*, %Qubit*)
declare void @__quantum__qis__phase__body(i64, %Qubit*)
declare void @__quantum__qis__mz__body(%Qubit*, %Result*) #1
attributes #1 = { \"irreversible\" }
attributes #0 = { \"entry_point\" \"required_num_qubits\"=\"3\" \"required_num_results\"=\"2\" }
";

/// Bodies of entries, by names.
const BODIES: [(&str, &str); 12] = [
    // The state of qubit 0 is moved to qubit 2, which is corrected by two bits.
    (
        "moved",
        "  call void @__quantum__qis__h__body(%Qubit* inttoptr (i64 1 to %Qubit*))
  call void @__quantum__qis__cnot__body(%Qubit* inttoptr (i64 1 to %Qubit*), %Qubit* inttoptr (i64 2 to %Qubit*))
  call void @__quantum__qis__cnot__body(%Qubit* null, %Qubit* inttoptr (i64 1 to %Qubit*))
  call void @__quantum__qis__h__body(%Qubit* null)
  call void @__quantum__qis__mz__body(%Qubit* null, %Result* null)
  call void @__quantum__qis__mz__body(%Qubit* inttoptr (i64 1 to %Qubit*), %Result* inttoptr (i64 1 to %Result*))
  %a = call i1 @__quantum__rt__read_result(%Result* inttoptr (i64 1 to %Result*))
  br i1 %a, label %fx, label %j
fx:
  call void @__quantum__qis__x__body(%Qubit* inttoptr (i64 2 to %Qubit*))
  br label %j
j:
  %b = call i1 @__quantum__rt__read_result(%Result* null)
  br i1 %b, label %fz, label %e
fz:
  call void @__quantum__qis__z__body(%Qubit* inttoptr (i64 2 to %Qubit*))
  br label %e
e:
  ret i64 0
",
    ),
    (
        "sum",
        "  call void @__quantum__qis__mz__body(%Qubit* null, %Result* null)
  %a = call i1 @__quantum__rt__read_result(%Result* null)
  %z = zext i1 %a to i64
  %s = add nsw i64 9223372036854775807, %z
  ret i64 0
",
    ),
    (
        "one way",
        "  call void @__quantum__qis__mz__body(%Qubit* null, %Result* null)
  %a = call i1 @__quantum__rt__read_result(%Result* null)
  br i1 %a, label %t, label %j
t:
  %x = add i64 1, 1
  br label %j
j:
  call void @__quantum__qis__phase__body(i64 %x, %Qubit* null)
  ret i64 0
",
    ),
    (
        "equal",
        "  call void @__quantum__qis__mz__body(%Qubit* null, %Result* null)
  call void @__quantum__qis__mz__body(%Qubit* inttoptr (i64 1 to %Qubit*), %Result* inttoptr (i64 1 to %Result*))
  %e = call i1 @__quantum__rt__result_equal(%Result* null, %Result* inttoptr (i64 1 to %Result*))
  br i1 %e, label %t, label %f
t:
  call void @__quantum__qis__x__body(%Qubit* inttoptr (i64 2 to %Qubit*))
  ret i64 0
f:
  ret i64 0
",
    ),
    (
        "overflow",
        "  %x = sdiv i64 -9223372036854775808, -1\n  ret i64 0\n",
    ),
    (
        "unset",
        "  call void @__quantum__rt__result_record_output(%Result* null, i8* null)\n  ret i64 0\n",
    ),
    ("flag", "  %x = add nuw i8 255, 1\n  ret i64 0\n"),
    (
        "unbound",
        "  %y = add i64 %x, 1\n  %x = add i64 1, 1\n  ret i64 0\n",
    ),
    (
        "released",
        "  %a = call %Qubit* @__quantum__rt__qubit_allocate()\n  call void @__quantum__rt__qubit_release(%Qubit* %a)\n  call void @__quantum__qis__h__body(%Qubit* %a)\n  ret i64 0\n",
    ),
    (
        "flip",
        "  call void @__quantum__qis__x__body(%Qubit* null)\n  call void @__quantum__qis__mz__body(%Qubit* null, %Result* null)\n  ret i64 0\n",
    ),
    (
        "half",
        "  call void @__quantum__qis__h__body(%Qubit* null)\n  ret i64 0\n",
    ),
    (
        "calls itself",
        "  call void @f()\n  ret i64 0\n}\ndefine void @f() {\nb:\n  call void @f()\n  ret void\n",
    ),
];

/// The body of this name.
fn body_of(name: &str) -> Option<&'static str> {
    for (of, body) in BODIES {
        if of == name {
            return Some(body);
        }
    }
    None
}

/// A text of three parts.
fn text_of(alloc: Global, head: &str, body: &str, tail: &str) -> Result<Bytes, Memory> {
    let mut text = Bytes::new(alloc);
    text.extend_from_slice(head.as_bytes())?;
    text.extend_from_slice(body.as_bytes())?;
    text.extend_from_slice(tail.as_bytes())?;
    Ok(text)
}

fn admitted_module(alloc: Global, m: Module) -> Option<Checked>
    requires { Numbered m }
{
    admit(alloc, m).ok()
}

/// The module of a text that reads and has no fault.
fn admitted(alloc: Global, text: &[u8]) -> Option<Checked> {
    if text.len() > 1_000_000 {
        return None;
    }
    match read(alloc, text) {
        Ok(parsed) => admitted_module(alloc, parsed.module),
        Err(_) => None,
    }
}

/// The module of a body.
fn with_body(alloc: Global, name: &str) -> Option<Checked> {
    let text = text_of(alloc, HEAD, body_of(name)?, TAIL).ok()?;
    admitted(alloc, text.as_slice())
}

/// The module of this name: `pair`, `turns`, or that of a body, with three qubits and two results.
pub fn module_of(alloc: Global, name: &str) -> Option<Checked> {
    if name == "pair" {
        admitted(alloc, PAIR.as_bytes())
    } else if name == "turns" {
        admitted(alloc, TURNS.as_bytes())
    } else {
        with_body(alloc, name)
    }
}
