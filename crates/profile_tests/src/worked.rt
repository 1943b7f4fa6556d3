//! Whole modules, and what each profile says of them.
use crate::given::{Check, told};
use profile_rules::Form;
use std::test::Fail;

// Two qubits in four blocks, as the Base Profile is published.
const FOUR_BLOCKS: &[u8] = b"%Qubit = type opaque
%Result = type opaque

@0 = internal constant [3 x i8] c\"r0\\00\"
@1 = internal constant [3 x i8] c\"r1\\00\"

define i64 @main() #0 {
entry:
  call void @__quantum__rt__initialize(i8* null)
  br label %body

body:
  call void @__quantum__qis__h__body(%Qubit* null)
  call void @__quantum__qis__cnot__body(%Qubit* null, %Qubit* inttoptr (i64 1 to %Qubit*))
  br label %measurements

measurements:
  call void @__quantum__qis__mz__body(%Qubit* null, %Result* null)
  call void @__quantum__qis__mz__body(%Qubit* inttoptr (i64 1 to %Qubit*), %Result* inttoptr (i64 1 to %Result*))
  br label %output

output:
  call void @__quantum__rt__tuple_record_output(i64 2, i8* null)
  call void @__quantum__rt__result_record_output(%Result* null, i8* getelementptr inbounds ([3 x i8], [3 x i8]* @0, i32 0, i32 0))
  call void @__quantum__rt__result_record_output(%Result* inttoptr (i64 1 to %Result*), i8* getelementptr inbounds ([3 x i8], [3 x i8]* @1, i32 0, i32 0))
  ret i64 0
}

declare void @__quantum__rt__initialize(i8*)

declare void @__quantum__qis__h__body(%Qubit*)

declare void @__quantum__qis__cnot__body(%Qubit*, %Qubit*)

declare void @__quantum__qis__mz__body(%Qubit*, %Result*) #1

declare void @__quantum__rt__tuple_record_output(i64, i8*)

declare void @__quantum__rt__result_record_output(%Result*, i8*)

attributes #0 = { \"entry_point\" \"qir_profiles\"=\"base_profile\" \"output_labeling_schema\"=\"labeled\" \"required_num_qubits\"=\"2\" \"required_num_results\"=\"2\" }
attributes #1 = { \"irreversible\" }

!llvm.module.flags = !{!0, !1, !2, !3}

!0 = !{i32 1, !\"qir_major_version\", i32 1}
!1 = !{i32 7, !\"qir_minor_version\", i32 0}
!2 = !{i32 1, !\"dynamic_qubit_management\", i1 false}
!3 = !{i32 1, !\"dynamic_result_management\", i1 false}
";

// One block that a producer writes.
const BELL: &[u8] = b"; ModuleID = 'bell'
source_filename = \"bell\"

%Qubit = type opaque
%Result = type opaque

define void @main() #0 {
entry:
  call void @__quantum__qis__h__body(%Qubit* inttoptr (i64 0 to %Qubit*))
  call void @__quantum__qis__mz__body(%Qubit* null, %Result* null)
  ret void
}

declare void @__quantum__qis__h__body(%Qubit*)
declare void @__quantum__qis__mz__body(%Qubit*, %Result* writeonly) #1
attributes #0 = { \"entry_point\" \"output_labeling_schema\" \"qir_profiles\"=\"base_profile\" \"required_num_qubits\"=\"1\" \"required_num_results\"=\"1\" }
attributes #1 = { \"irreversible\" }
!llvm.module.flags = !{!0, !1, !2, !3}

!0 = !{i32 1, !\"qir_major_version\", i32 1}
!1 = !{i32 7, !\"qir_minor_version\", i32 0}
!2 = !{i32 1, !\"dynamic_qubit_management\", i1 false}
!3 = !{i32 1, !\"dynamic_result_management\", i1 false}
";

const TURNED: &[u8] = b"define i64 @main() #0 {
entry:
  call void @__quantum__qis__mz__body(%Qubit* null, %Result* null)
  call void @__quantum__qis__x__body(%Qubit* null)
  ret i64 0
}
declare void @__quantum__rt__initialize(i8*)
declare %Qubit* @__quantum__rt__qubit_allocate()
declare void @__quantum__rt__qubit_release(%Qubit*)
declare i1 @__quantum__rt__read_result(%Result*)
declare i1 @__quantum__rt__result_equal(%Result*, %Result*)
declare void @__quantum__rt__result_record_output(%Result*, i8*)
declare void @__quantum__qis__h__body(%Qubit*)
declare void @__quantum__qis__x__body(%Qubit*)
declare void @__quantum__qis__z__body(%Qubit*)
declare void @__quantum__qis__cnot__body(%Qubit*, %Qubit*)
declare void @__quantum__qis__phase__body(i64, %Qubit*)
declare void @__quantum__qis__mz__body(%Qubit*, %Result*) #1
attributes #0 = { \"entry_point\" \"required_num_qubits\"=\"1\" \"required_num_results\"=\"1\" }
attributes #1 = { \"irreversible\" }
";

// A result is read in a loop.
const LOOP: &[u8] = b"define i64 @main() #0 {
entry:
  br label %loop
loop:
  call void @__quantum__qis__h__body(%Qubit* null)
  call void @__quantum__qis__mz__body(%Qubit* null, %Result* null)
  %a = call i1 @__quantum__rt__read_result(%Result* null)
  br i1 %a, label %loop, label %done
done:
  ret i64 0
}
declare void @__quantum__rt__initialize(i8*)
declare %Qubit* @__quantum__rt__qubit_allocate()
declare void @__quantum__rt__qubit_release(%Qubit*)
declare i1 @__quantum__rt__read_result(%Result*)
declare i1 @__quantum__rt__result_equal(%Result*, %Result*)
declare void @__quantum__rt__result_record_output(%Result*, i8*)
declare void @__quantum__qis__h__body(%Qubit*)
declare void @__quantum__qis__x__body(%Qubit*)
declare void @__quantum__qis__z__body(%Qubit*)
declare void @__quantum__qis__cnot__body(%Qubit*, %Qubit*)
declare void @__quantum__qis__phase__body(i64, %Qubit*)
declare void @__quantum__qis__mz__body(%Qubit*, %Result*) #1
attributes #0 = { \"entry_point\" \"required_num_qubits\"=\"1\" \"required_num_results\"=\"1\" }
attributes #1 = { \"irreversible\" }
";

// A qubit is chosen by a result.
const CHOICE: &[u8] = b"define i64 @main() #0 {
entry:
  call void @__quantum__qis__mz__body(%Qubit* null, %Result* null)
  %a = call i1 @__quantum__rt__read_result(%Result* null)
  %q = select i1 %a, %Qubit* null, %Qubit* inttoptr (i64 1 to %Qubit*)
  call void @__quantum__qis__x__body(%Qubit* %q)
  ret i64 0
}
declare void @__quantum__rt__initialize(i8*)
declare %Qubit* @__quantum__rt__qubit_allocate()
declare void @__quantum__rt__qubit_release(%Qubit*)
declare i1 @__quantum__rt__read_result(%Result*)
declare i1 @__quantum__rt__result_equal(%Result*, %Result*)
declare void @__quantum__rt__result_record_output(%Result*, i8*)
declare void @__quantum__qis__h__body(%Qubit*)
declare void @__quantum__qis__x__body(%Qubit*)
declare void @__quantum__qis__z__body(%Qubit*)
declare void @__quantum__qis__cnot__body(%Qubit*, %Qubit*)
declare void @__quantum__qis__phase__body(i64, %Qubit*)
declare void @__quantum__qis__mz__body(%Qubit*, %Result*) #1
attributes #0 = { \"entry_point\" \"required_num_qubits\"=\"2\" \"required_num_results\"=\"1\" }
attributes #1 = { \"irreversible\" }
";

#[test]
fn whole_modules(rt: HostRuntime) -> Result<(), Fail> {
    let rows: [(&[u8], Check, &[u8]); 8] = [
        (FOUR_BLOCKS, Check::Base(Form::Strict), b"OK\n"),
        (BELL, Check::Base(Form::Chain), b"OK\n"),
        (
            BELL,
            Check::Base(Form::Strict),
            b"FINDING\t7\t13\tB7\nFINDING\t7\t13\tB8\nFINDING\t9\t3\tB12\nFINDING\t10\t3\tB12\n",
        ),
        (
            TURNED,
            Check::Base(Form::Strict),
            b"FINDING\t1\t1\tB4\nFINDING\t1\t12\tB1\nFINDING\t1\t12\tB2\nFINDING\t1\t12\tB7\nFINDING\t3\t3\tB12\nFINDING\t4\t3\tB12\n",
        ),
        (
            TURNED,
            Check::Base(Form::Chain),
            b"FINDING\t1\t1\tB4\nFINDING\t1\t12\tB1\nFINDING\t1\t12\tB2\n",
        ),
        (
            LOOP,
            Check::Base(Form::Chain),
            b"FINDING\t1\t1\tB4\nFINDING\t1\t12\tB1\nFINDING\t1\t12\tB2\nFINDING\t1\t12\tB7\nFINDING\t7\t3\tB10\nFINDING\t8\t3\tB6\n",
        ),
        (
            LOOP,
            Check::Adaptive,
            b"FINDING\t1\t1\tA4\nFINDING\t1\t12\tA1\nFINDING\t1\t12\tA2\nFINDING\t8\t3\tA6\n",
        ),
        (
            CHOICE,
            Check::Adaptive,
            b"FINDING\t1\t1\tA4\nFINDING\t1\t12\tA1\nFINDING\t1\t12\tA2\nFINDING\t5\t3\tA10\nFINDING\t6\t3\tA13\n",
        ),
    ];
    for (text, check, expected) in rows {
        let found = told(rt.alloc(), text, check)?;
        assert_eq!(rt; found.as_slice(), expected);
    }
    Ok(())
}
