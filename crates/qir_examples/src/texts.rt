//! The texts and programs that the examples are about.
use crate::forms::Program;

/// A Bell pair in the four blocks of the Base Profile, with labels.
pub const BELL: &[u8] = b"%Qubit = type opaque
%Result = type opaque

@0 = internal constant [3 x i8] c\"r0\\00\"
@1 = internal constant [3 x i8] c\"r1\\00\"

define i64 @main() #0 {
entry:
  call void @__quantum__rt__initialize(i8* null)
  br label %body

body:
  call void @__quantum__qis__h__body(%Qubit* null)
  call void @__quantum__qis__cnot__body(%Qubit* null, %Qubit* inttoptr (i64 1 to %Qubit*))
  br label %measurements

measurements:
  call void @__quantum__qis__mz__body(%Qubit* null, %Result* null)
  call void @__quantum__qis__mz__body(%Qubit* inttoptr (i64 1 to %Qubit*), %Result* inttoptr (i64 1 to %Result*))
  br label %output

output:
  call void @__quantum__rt__tuple_record_output(i64 2, i8* null)
  call void @__quantum__rt__result_record_output(%Result* null, i8* getelementptr inbounds ([3 x i8], [3 x i8]* @0, i32 0, i32 0))
  call void @__quantum__rt__result_record_output(%Result* inttoptr (i64 1 to %Result*), i8* getelementptr inbounds ([3 x i8], [3 x i8]* @1, i32 0, i32 0))
  ret i64 0
}

declare void @__quantum__rt__initialize(i8*)

declare void @__quantum__qis__h__body(%Qubit*)

declare void @__quantum__qis__cnot__body(%Qubit*, %Qubit*)

declare void @__quantum__qis__mz__body(%Qubit*, %Result*) #1

declare void @__quantum__rt__tuple_record_output(i64, i8*)

declare void @__quantum__rt__result_record_output(%Result*, i8*)

attributes #0 = { \"entry_point\" \"qir_profiles\"=\"base_profile\" \"output_labeling_schema\"=\"labeled\" \"required_num_qubits\"=\"2\" \"required_num_results\"=\"2\" }
attributes #1 = { \"irreversible\" }

!llvm.module.flags = !{!0, !1, !2, !3}

!0 = !{i32 1, !\"qir_major_version\", i32 1}
!1 = !{i32 7, !\"qir_minor_version\", i32 0}
!2 = !{i32 1, !\"dynamic_qubit_management\", i1 false}
!3 = !{i32 1, !\"dynamic_result_management\", i1 false}
";

/// A program of one block, as a producer writes it.
pub const ONE_BLOCK: &[u8] = b"; ModuleID = 'bell'
source_filename = \"bell\"

%Qubit = type opaque
%Result = type opaque

define void @main() #0 {
entry:
  call void @__quantum__qis__h__body(%Qubit* inttoptr (i64 0 to %Qubit*))
  call void @__quantum__qis__mz__body(%Qubit* null, %Result* null)
  ret void
}

declare void @__quantum__qis__h__body(%Qubit*)
declare void @__quantum__qis__mz__body(%Qubit*, %Result* writeonly) #1
attributes #0 = { \"entry_point\" \"output_labeling_schema\" \"qir_profiles\"=\"base_profile\" \"required_num_qubits\"=\"1\" \"required_num_results\"=\"1\" }
attributes #1 = { \"irreversible\" }

!llvm.module.flags = !{!0, !1, !2, !3}

!0 = !{i32 1, !\"qir_major_version\", i32 1}
!1 = !{i32 7, !\"qir_minor_version\", i32 0}
!2 = !{i32 1, !\"dynamic_qubit_management\", i1 false}
!3 = !{i32 1, !\"dynamic_result_management\", i1 false}
";

/// The same program, canonical.
pub const ONE_BLOCK_PRINTED: &[u8] = b"%Qubit = type opaque
%Result = type opaque

define void @main() #0 {
entry:
  call void @__quantum__qis__h__body(%Qubit* null)
  call void @__quantum__qis__mz__body(%Qubit* null, %Result* null)
  ret void
}

declare void @__quantum__qis__h__body(%Qubit*)

declare void @__quantum__qis__mz__body(%Qubit*, %Result*) #1

attributes #0 = { \"entry_point\" \"output_labeling_schema\" \"qir_profiles\"=\"base_profile\" \"required_num_qubits\"=\"1\" \"required_num_results\"=\"1\" }
attributes #1 = { \"irreversible\" }

!llvm.module.flags = !{!0, !1, !2, !3}

!0 = !{i32 1, !\"qir_major_version\", i32 1}
!1 = !{i32 7, !\"qir_minor_version\", i32 0}
!2 = !{i32 1, !\"dynamic_qubit_management\", i1 false}
!3 = !{i32 1, !\"dynamic_result_management\", i1 false}
";

/// A function that is called three times by a counting loop.
pub const COUNTED_TURNS: &[u8] = b"define i64 @main() #0 {
entry:
  br label %loop
loop:
  %i = phi i64 [ 0, %entry ], [ %n, %loop ]
  call void @turn(i64 %i, %Qubit* null)
  %n = add i64 %i, 1
  %c = icmp slt i64 %n, 3
  br i1 %c, label %loop, label %done
done:
  ret i64 0
}
define void @turn(i64 %n, %Qubit* %q) {
b:
  call void @__quantum__qis__phase__body(i64 %n, %Qubit* %q)
  ret void
}
declare void @__quantum__qis__phase__body(i64, %Qubit*)
attributes #0 = { \"entry_point\" \"required_num_qubits\"=\"1\" }
";

/// A function that calls itself without an end.
pub const ENDLESS_RECURSION: &[u8] = b"define i64 @main() #0 {
entry:
  call void @f()
  ret i64 0
}
define void @f() {
b:
  call void @f()
  ret void
}
attributes #0 = { \"entry_point\" }
";

/// Two qubits whose lives don't overlap.
pub const TWO_ALLOCATIONS: Program<'static> = Program {
    qubits: 0,
    results: 0,
    body: b"  %a = call %Qubit* @__quantum__rt__qubit_allocate()
  call void @__quantum__qis__h__body(%Qubit* %a)
  call void @__quantum__rt__qubit_release(%Qubit* %a)
  %b = call %Qubit* @__quantum__rt__qubit_allocate()
  call void @__quantum__qis__h__body(%Qubit* %b)
  call void @__quantum__rt__qubit_release(%Qubit* %b)
  ret i64 0
",
};

/// A gate on a qubit with a fixed number and an allocated one.
pub const FIXED_AND_ALLOCATED: Program<'static> = Program {
    qubits: 2,
    results: 0,
    body: b"  %a = call %Qubit* @__quantum__rt__qubit_allocate()
  call void @__quantum__qis__cnot__body(%Qubit* inttoptr (i64 1 to %Qubit*), %Qubit* %a)
  call void @__quantum__qis__h__body(%Qubit* %a)
  call void @__quantum__rt__qubit_release(%Qubit* %a)
  ret i64 0
",
};

/// A gate on an allocated qubit.
pub const ONE_ALLOCATION: &[u8] = b"  %a = call %Qubit* @__quantum__rt__qubit_allocate()
  call void @__quantum__qis__h__body(%Qubit* %a)
  call void @__quantum__rt__qubit_release(%Qubit* %a)
  ret i64 0
";

/// A gate on a qubit that isn't below the required number.
pub const HIGH_QUBIT: Program<'static> = Program {
    qubits: 1,
    results: 0,
    body: b"  call void @__quantum__qis__h__body(%Qubit* inttoptr (i64 1 to %Qubit*))
  ret i64 0
",
};

/// A name that is read before it is defined.
pub const READ_BEFORE: Program<'static> = Program {
    qubits: 0,
    results: 0,
    body: b"  %y = add i64 %x, 1
  %x = add i64 1, 1
  ret i64 0
",
};

/// A gate behind a measurement.
pub const LATE_GATE: Program<'static> = Program {
    qubits: 1,
    results: 1,
    body: b"  call void @__quantum__qis__mz__body(%Qubit* null, %Result* null)
  call void @__quantum__qis__x__body(%Qubit* null)
  ret i64 0
",
};

/// Measures one qubit until its result is 0.
pub const UNTIL_ZERO: Program<'static> = Program {
    qubits: 1,
    results: 1,
    body: b"  br label %loop
loop:
  call void @__quantum__qis__h__body(%Qubit* null)
  call void @__quantum__qis__mz__body(%Qubit* null, %Result* null)
  %a = call i1 @__quantum__rt__read_result(%Result* null)
  br i1 %a, label %loop, label %done
done:
  ret i64 0
",
};

/// A loop without an end, in which nothing happens.
pub const ENDLESS_LOOP: Program<'static> = Program {
    qubits: 0,
    results: 0,
    body: b"  br label %a
a:
  br label %a
",
};

/// A qubit that is chosen by a result.
pub const CHOSEN_QUBIT: Program<'static> = Program {
    qubits: 2,
    results: 1,
    body: b"  call void @__quantum__qis__mz__body(%Qubit* null, %Result* null)
  %a = call i1 @__quantum__rt__read_result(%Result* null)
  %q = select i1 %a, %Qubit* null, %Qubit* inttoptr (i64 1 to %Qubit*)
  call void @__quantum__qis__x__body(%Qubit* %q)
  ret i64 0
",
};

/// A gate that is chosen by a result.
pub const CHOSEN_GATE: Program<'static> = Program {
    qubits: 1,
    results: 1,
    body: b"  call void @__quantum__qis__mz__body(%Qubit* null, %Result* null)
  %a = call i1 @__quantum__rt__read_result(%Result* null)
  %g = select i1 %a, void (%Qubit*)* @__quantum__qis__h__body, void (%Qubit*)* @__quantum__qis__x__body
  call void %g(%Qubit* null)
  ret i64 0
",
};

/// A double that is chosen by a result.
pub const CHOSEN_DOUBLE: Program<'static> = Program {
    qubits: 1,
    results: 1,
    body: b"  call void @__quantum__qis__mz__body(%Qubit* null, %Result* null)
  %a = call i1 @__quantum__rt__read_result(%Result* null)
  %d = select i1 %a, double 0.5, double 0.25
  ret i64 0
",
};

/// A qubit that is told by the way that a result chooses.
pub const QUBIT_OF_THE_WAY: Program<'static> = Program {
    qubits: 3,
    results: 1,
    body: b"  call void @__quantum__qis__mz__body(%Qubit* null, %Result* null)
  %a = call i1 @__quantum__rt__read_result(%Result* null)
  br i1 %a, label %t, label %f
t:
  br label %j
f:
  br label %j
j:
  %q = phi %Qubit* [ inttoptr (i64 1 to %Qubit*), %t ], [ inttoptr (i64 2 to %Qubit*), %f ]
  call void @__quantum__qis__x__body(%Qubit* %q)
  ret i64 0
",
};

/// Two ways with a choice each, of which the second in the text comes first on a path.
pub const CHOICES_ON_TWO_WAYS: Program<'static> = Program {
    qubits: 2,
    results: 2,
    body: b"  call void @__quantum__qis__mz__body(%Qubit* null, %Result* null)
  %a = call i1 @__quantum__rt__read_result(%Result* null)
  br i1 %a, label %t, label %f
f:
  %u = select i1 %a, %Qubit* null, %Qubit* inttoptr (i64 1 to %Qubit*)
  ret i64 0
t:
  %v = select i1 %a, %Result* null, %Result* inttoptr (i64 1 to %Result*)
  ret i64 0
",
};

/// Teleports a qubit, with the two corrections.
pub const TELEPORTATION: Program<'static> = Program {
    qubits: 3,
    results: 2,
    body: b"  call void @__quantum__qis__h__body(%Qubit* inttoptr (i64 1 to %Qubit*))
  call void @__quantum__qis__cnot__body(%Qubit* inttoptr (i64 1 to %Qubit*), %Qubit* inttoptr (i64 2 to %Qubit*))
  call void @__quantum__qis__cnot__body(%Qubit* null, %Qubit* inttoptr (i64 1 to %Qubit*))
  call void @__quantum__qis__h__body(%Qubit* null)
  call void @__quantum__qis__mz__body(%Qubit* null, %Result* null)
  call void @__quantum__qis__mz__body(%Qubit* inttoptr (i64 1 to %Qubit*), %Result* inttoptr (i64 1 to %Result*))
  %a = call i1 @__quantum__rt__read_result(%Result* inttoptr (i64 1 to %Result*))
  br i1 %a, label %fx, label %j
fx:
  call void @__quantum__qis__x__body(%Qubit* inttoptr (i64 2 to %Qubit*))
  br label %j
j:
  %b = call i1 @__quantum__rt__read_result(%Result* null)
  br i1 %b, label %fz, label %e
fz:
  call void @__quantum__qis__z__body(%Qubit* inttoptr (i64 2 to %Qubit*))
  br label %e
e:
  ret i64 0
",
};

/// A gate where two results are equal.
pub const EQUAL_RESULTS: Program<'static> = Program {
    qubits: 3,
    results: 2,
    body: b"  call void @__quantum__qis__mz__body(%Qubit* null, %Result* null)
  call void @__quantum__qis__mz__body(%Qubit* inttoptr (i64 1 to %Qubit*), %Result* inttoptr (i64 1 to %Result*))
  %e = call i1 @__quantum__rt__result_equal(%Result* null, %Result* inttoptr (i64 1 to %Result*))
  br i1 %e, label %t, label %f
t:
  call void @__quantum__qis__x__body(%Qubit* inttoptr (i64 2 to %Qubit*))
  ret i64 0
f:
  ret i64 0
",
};

/// A sum that never fits.
pub const OVERFLOW: Program<'static> = Program {
    qubits: 0,
    results: 0,
    body: b"  %s = add nsw i64 9223372036854775807, 1
  ret i64 0
",
};

/// A sum that a result may carry past the greatest integer.
pub const SUM_OF_A_RESULT: Program<'static> = Program {
    qubits: 1,
    results: 1,
    body: b"  call void @__quantum__qis__mz__body(%Qubit* null, %Result* null)
  %a = call i1 @__quantum__rt__read_result(%Result* null)
  %z = zext i1 %a to i64
  %s = add nsw i64 9223372036854775807, %z
  ret i64 0
",
};

/// A switch on a result.
pub const SWITCH_ON_A_RESULT: Program<'static> = Program {
    qubits: 1,
    results: 1,
    body: b"  call void @__quantum__qis__mz__body(%Qubit* null, %Result* null)
  %a = call i1 @__quantum__rt__read_result(%Result* null)
  %z = zext i1 %a to i8
  switch i8 %z, label %d [ i8 1, label %o ]
o:
  ret i64 0
d:
  ret i64 0
",
};

/// A gate alone.
pub const ONE_GATE: Program<'static> = Program {
    qubits: 1,
    results: 0,
    body: b"  call void @__quantum__qis__h__body(%Qubit* null)
  ret i64 0
",
};

/// A code that isn't 0.
pub const CODE_THREE: Program<'static> = Program {
    qubits: 1,
    results: 0,
    body: b"  call void @__quantum__qis__h__body(%Qubit* null)
  ret i64 3
",
};

/// The record of a result that was never measured.
pub const UNSET_RECORD: Program<'static> = Program {
    qubits: 0,
    results: 1,
    body: b"  call void @__quantum__rt__result_record_output(%Result* null, i8* null)
  ret i64 0
",
};

/// A gate on a qubit that was released.
pub const USE_AFTER_RELEASE: Program<'static> = Program {
    qubits: 0,
    results: 0,
    body: b"  %a = call %Qubit* @__quantum__rt__qubit_allocate()
  call void @__quantum__rt__qubit_release(%Qubit* %a)
  call void @__quantum__qis__h__body(%Qubit* %a)
  ret i64 0
",
};

/// A name that one of two ways defines.
pub const DEFINED_ON_ONE_WAY: Program<'static> = Program {
    qubits: 1,
    results: 1,
    body: b"  call void @__quantum__qis__mz__body(%Qubit* null, %Result* null)
  %a = call i1 @__quantum__rt__read_result(%Result* null)
  br i1 %a, label %t, label %j
t:
  %x = add i64 1, 1
  br label %j
j:
  call void @__quantum__qis__phase__body(i64 %x, %Qubit* null)
  ret i64 0
",
};

/// A measurement, and a gate whose angle is told by the way that its result chooses.
pub const CONDITIONAL: &[u8] = b"  call void @__quantum__qis__mz__body(%Qubit* null, %Result* null)
  %a# = call i1 @__quantum__rt__read_result(%Result* null)
  br i1 %a#, label %t#, label %f#
t#:
  br label %j#
f#:
  br label %j#
j#:
  %p# = phi i64 [ 1, %t# ], [ 2, %f# ]
  call void @__quantum__qis__phase__body(i64 %p#, %Qubit* null)
";
