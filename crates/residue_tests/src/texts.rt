//! The texts of modules.
ghost use Rattle.residue.specs.Valid.{Valid};

use crate::residues::{adaptive, base, looping, plain, returning, switching};
use ir_printer::print;
use ir_values::{Bytes, Memory};
use kept_items::{Caps, Target};
use residue::Residue;
use residue_module::to_module;
use std::alloc::Global;
use std::process::Abort;
use std::test::Fail;

const BASE: &str = "\
%Qubit = type opaque
%Result = type opaque

@0 = internal constant [2 x i8] c\"r\\00\"

define i64 @main() #0 {
entry:
  call void @__quantum__rt__initialize(i8* null)
  br label %body

body:
  call void @__quantum__qis__h__body(%Qubit* inttoptr (i64 1 to %Qubit*))
  br label %measurements

measurements:
  call void @__quantum__qis__mz__body(%Qubit* inttoptr (i64 1 to %Qubit*), %Result* null)
  br label %output

output:
  call void @__quantum__rt__result_record_output(%Result* null, i8* getelementptr inbounds ([2 x i8], [2 x i8]* @0, i32 0, i32 0))
  ret i64 0
}

declare void @__quantum__rt__initialize(i8*)

declare void @__quantum__qis__h__body(%Qubit*)

declare void @__quantum__qis__mz__body(%Qubit*, %Result*) #1

declare void @__quantum__rt__result_record_output(%Result*, i8*)

attributes #0 = { \"entry_point\" \"qir_profiles\"=\"base_profile\" \"output_labeling_schema\"=\"labeled\" \"required_num_qubits\"=\"2\" \"required_num_results\"=\"1\" \"extra\" }
attributes #1 = { \"irreversible\" }

!llvm.module.flags = !{!0, !1, !2, !3}

!0 = !{i32 1, !\"qir_major_version\", i32 1}
!1 = !{i32 7, !\"qir_minor_version\", i32 0}
!2 = !{i32 1, !\"dynamic_qubit_management\", i1 false}
!3 = !{i32 1, !\"dynamic_result_management\", i1 false}
";

const ADAPTIVE: &str = "\
%Qubit = type opaque
%Result = type opaque

define i64 @main() #0 {
entry:
  call void @__quantum__rt__initialize(i8* null)
  call void @__quantum__qis__mz__body(%Qubit* null, %Result* inttoptr (i64 1 to %Result*))
  %v0 = call i1 @__quantum__rt__read_result(%Result* inttoptr (i64 1 to %Result*))
  %v1 = icmp eq i1 %v0, true
  br i1 %v1, label %b1, label %b2

b1:
  %v2 = call i1 @__quantum__rt__read_result(%Result* null)
  %v3 = zext i1 %v2 to i64
  br label %b2

b2:
  %v4 = phi i64 [ 5, %entry ], [ %v3, %b1 ]
  call void @__quantum__rt__int_record_output(i64 %v4, i8* null)
  ret i64 0
}

declare void @__quantum__rt__initialize(i8*)

declare void @__quantum__qis__mz__body(%Qubit*, %Result*) #1

declare i1 @__quantum__rt__read_result(%Result*)

declare void @__quantum__rt__int_record_output(i64, i8*)

attributes #0 = { \"entry_point\" \"qir_profiles\"=\"adaptive_profile\" \"output_labeling_schema\" \"required_num_qubits\"=\"1\" \"required_num_results\"=\"2\" }
attributes #1 = { \"irreversible\" }

";

const PLAIN: &str = "\
%Qubit = type opaque
%Result = type opaque

define i64 @main() #0 {
entry:
  call void @__quantum__rt__initialize(i8* null)
  %v0 = call i1 @__quantum__rt__read_result(%Result* null)
  %v1 = icmp ne i1 %v0, true
  br i1 %v1, label %b1, label %b2

b1:
  call void @__quantum__qis__x__body(%Qubit* null)
  br label %b2

b2:
  %v2 = phi i1 [ %v0, %entry ], [ true, %b1 ]
  call void @__quantum__rt__bool_record_output(i1 %v2, i8* null)
  ret i64 0
}

declare void @__quantum__rt__initialize(i8*)

declare i1 @__quantum__rt__read_result(%Result*)

declare void @__quantum__qis__x__body(%Qubit*)

declare void @__quantum__rt__bool_record_output(i1, i8*)

attributes #0 = { \"entry_point\" \"qir_profiles\"=\"adaptive_profile\" \"output_labeling_schema\" \"required_num_qubits\"=\"1\" \"required_num_results\"=\"1\" }

";

const SWITCHING: &str = "\
%Qubit = type opaque
%Result = type opaque

define i64 @main() #0 {
entry:
  call void @__quantum__rt__initialize(i8* null)
  %v0 = call i1 @__quantum__rt__read_result(%Result* null)
  switch i1 %v0, label %b2 [ i1 true, label %b1 ]

b1:
  call void @__quantum__qis__x__body(%Qubit* null)
  br label %b2

b2:
  ret i64 0
}

declare void @__quantum__rt__initialize(i8*)

declare i1 @__quantum__rt__read_result(%Result*)

declare void @__quantum__qis__x__body(%Qubit*)

attributes #0 = { \"entry_point\" \"qir_profiles\"=\"adaptive_profile\" \"output_labeling_schema\" \"required_num_qubits\"=\"1\" \"required_num_results\"=\"1\" }

";

const RETURNING: &str = "\
%Qubit = type opaque
%Result = type opaque

define i64 @main() #0 {
entry:
  call void @__quantum__rt__initialize(i8* null)
  %v0 = call i1 @__quantum__rt__read_result(%Result* null)
  br i1 %v0, label %b1, label %b2

b1:
  ret i64 3

b2:
  ret i64 0
}

declare void @__quantum__rt__initialize(i8*)

declare i1 @__quantum__rt__read_result(%Result*)

attributes #0 = { \"entry_point\" \"qir_profiles\"=\"adaptive_profile\" \"output_labeling_schema\" \"required_num_qubits\"=\"1\" \"required_num_results\"=\"1\" }

";

const LOOPING: &str = "\
%Qubit = type opaque
%Result = type opaque

define i64 @main() #0 {
entry:
  call void @__quantum__rt__initialize(i8* null)
  br label %b1

b1:
  %v0 = call i1 @__quantum__rt__read_result(%Result* null)
  br i1 %v0, label %b1, label %b2

b2:
  ret i64 0
}

declare void @__quantum__rt__initialize(i8*)

declare i1 @__quantum__rt__read_result(%Result*)

attributes #0 = { \"entry_point\" \"qir_profiles\"=\"adaptive_profile\" \"output_labeling_schema\" \"required_num_qubits\"=\"1\" \"required_num_results\"=\"1\" }

";

const FLAGS: &str = "\
!llvm.module.flags = !{!0, !1, !2, !3}

!0 = !{i32 1, !\"qir_major_version\", i32 1}
!1 = !{i32 7, !\"qir_minor_version\", i32 0}
!2 = !{i32 1, !\"dynamic_qubit_management\", i1 false}
!3 = !{i32 1, !\"dynamic_result_management\", i1 false}
";

const MORE_FLAGS: &str = "\
!llvm.module.flags = !{!0, !1, !2, !3, !4}

!0 = !{i32 1, !\"qir_major_version\", i32 1}
!1 = !{i32 7, !\"qir_minor_version\", i32 0}
!2 = !{i32 1, !\"dynamic_qubit_management\", i1 false}
!3 = !{i32 1, !\"dynamic_result_management\", i1 false}
";

const INTS_FLAG: &str = "!4 = !{i32 1, !\"int_computations\", i1 true}
";

const SWITCH_FLAG: &str = "!4 = !{i32 1, !\"multiple_target_branching\", i1 true}
";

const RETURNS_FLAG: &str = "!4 = !{i32 1, !\"multiple_return_points\", i1 true}
";

const LOOPS_FLAG: &str = "!4 = !{i32 1, !\"backwards_branching\", i1 true}
";

const EACH_FLAG: &str = "\
!llvm.module.flags = !{!0, !1, !2, !3, !4, !5, !6, !7}

!0 = !{i32 1, !\"qir_major_version\", i32 1}
!1 = !{i32 7, !\"qir_minor_version\", i32 0}
!2 = !{i32 1, !\"dynamic_qubit_management\", i1 false}
!3 = !{i32 1, !\"dynamic_result_management\", i1 false}
!4 = !{i32 1, !\"int_computations\", i1 true}
!5 = !{i32 1, !\"multiple_target_branching\", i1 true}
!6 = !{i32 1, !\"multiple_return_points\", i1 true}
!7 = !{i32 1, !\"backwards_branching\", i1 true}
";

const NONE: Caps = Caps {
    ints: false,
    switch: false,
    returns: false,
    loops: false,
};

const EACH: Caps = Caps {
    ints: true,
    switch: true,
    returns: true,
    loops: true,
};

const INTS: Caps = Caps {
    ints: true,
    switch: false,
    returns: false,
    loops: false,
};

const SWITCH: Caps = Caps {
    ints: false,
    switch: true,
    returns: false,
    loops: false,
};

const RETURNS: Caps = Caps {
    ints: false,
    switch: false,
    returns: true,
    loops: false,
};

const LOOPS: Caps = Caps {
    ints: false,
    switch: false,
    returns: false,
    loops: true,
};

/// These texts in a row.
fn joined(alloc: Global, pieces: &[&str]) -> Result<Bytes, Memory> {
    let mut text = Bytes::new(alloc);
    for piece in pieces {
        text.extend_from_slice(piece.as_bytes())?;
    }
    Ok(text)
}

/// The text of a residue's module for the target is these texts in a row.
fn has_text(
    rt: &impl Abort,
    alloc: Global,
    residue: &Residue,
    target: Target,
    pieces: &[&str],
) -> Result<(), Memory>
    requires { Valid residue.now target }
{
    let module = to_module(alloc, residue, target)?;
    let text = print(alloc, &module)?;
    assert_eq!(rt; text, joined(alloc, pieces)?);
    Ok(())
}

#[test]
fn base_stands_in_four_blocks(rt: HostRuntime) -> Result<(), Fail> {
    let alloc = rt.alloc();
    let residue = base(alloc)?;
    has_text(&rt, alloc, &residue, Target::Base, &[BASE])?;
    Ok(())
}

#[test]
fn a_block_for_each_part_and_a_flag_for_each_capability(rt: HostRuntime) -> Result<(), Fail> {
    let alloc = rt.alloc();
    let residue = adaptive(alloc)?;
    let target = Target::Adaptive(INTS);
    has_text(
        &rt,
        alloc,
        &residue,
        target,
        &[ADAPTIVE, MORE_FLAGS, INTS_FLAG],
    )?;
    let target = Target::Adaptive(EACH);
    has_text(&rt, alloc, &residue, target, &[ADAPTIVE, EACH_FLAG])?;
    Ok(())
}

#[test]
fn without_capabilities_bits_are_computed(rt: HostRuntime) -> Result<(), Fail> {
    let alloc = rt.alloc();
    let residue = plain(alloc)?;
    let target = Target::Adaptive(NONE);
    has_text(&rt, alloc, &residue, target, &[PLAIN, FLAGS])?;
    Ok(())
}

#[test]
fn a_switch_stands_under_its_flag(rt: HostRuntime) -> Result<(), Fail> {
    let alloc = rt.alloc();
    let residue = switching(alloc)?;
    let target = Target::Adaptive(SWITCH);
    has_text(
        &rt,
        alloc,
        &residue,
        target,
        &[SWITCHING, MORE_FLAGS, SWITCH_FLAG],
    )?;
    Ok(())
}

#[test]
fn two_codes_stand_under_their_flag(rt: HostRuntime) -> Result<(), Fail> {
    let alloc = rt.alloc();
    let residue = returning(alloc)?;
    let target = Target::Adaptive(RETURNS);
    has_text(
        &rt,
        alloc,
        &residue,
        target,
        &[RETURNING, MORE_FLAGS, RETURNS_FLAG],
    )?;
    Ok(())
}

#[test]
fn a_loop_stands_under_its_flag(rt: HostRuntime) -> Result<(), Fail> {
    let alloc = rt.alloc();
    let residue = looping(alloc)?;
    let target = Target::Adaptive(LOOPS);
    has_text(
        &rt,
        alloc,
        &residue,
        target,
        &[LOOPING, MORE_FLAGS, LOOPS_FLAG],
    )?;
    Ok(())
}
