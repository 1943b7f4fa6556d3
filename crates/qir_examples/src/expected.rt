//! The texts that lowering gives, worked out by hand.
use crate::forms::Lowered;

const H: &[u8] = b"declare void @__quantum__qis__h__body(%Qubit*)";

const CNOT: &[u8] = b"declare void @__quantum__qis__cnot__body(%Qubit*, %Qubit*)";

const PHASE: &[u8] = b"declare void @__quantum__qis__phase__body(i64, %Qubit*)";

const RECORD: &[u8] = b"declare void @__quantum__rt__result_record_output(%Result*, i8*)";

const MZ: &[u8] = b"declare void @__quantum__qis__mz__body(%Qubit*, %Result*) #1";

const X: &[u8] = b"declare void @__quantum__qis__x__body(%Qubit*)";

const READ: &[u8] = b"declare i1 @__quantum__rt__read_result(%Result*)";

const Z: &[u8] = b"declare void @__quantum__qis__z__body(%Qubit*)";

pub const TWO_NUMBERS: Lowered<'static> = Lowered {
    blocks: b"  br label %body

body:
  call void @__quantum__qis__h__body(%Qubit* null)
  call void @__quantum__qis__h__body(%Qubit* inttoptr (i64 1 to %Qubit*))
  br label %measurements

measurements:
  br label %output

output:
  ret i64 0
",
    declares: &[H],
    profile: "base",
    qubits: 2,
    results: 0,
    irreversible: false,
    capabilities: &[],
};

pub const BEHIND_THE_REQUIRED_QUBITS: Lowered<'static> = Lowered {
    blocks: b"  br label %body

body:
  call void @__quantum__qis__h__body(%Qubit* inttoptr (i64 2 to %Qubit*))
  br label %measurements

measurements:
  br label %output

output:
  ret i64 0
",
    declares: &[H],
    profile: "base",
    qubits: 3,
    results: 0,
    irreversible: false,
    capabilities: &[],
};

pub const SIDE_BY_SIDE: Lowered<'static> = Lowered {
    blocks: b"  br label %body

body:
  call void @__quantum__qis__cnot__body(%Qubit* inttoptr (i64 1 to %Qubit*), %Qubit* inttoptr (i64 2 to %Qubit*))
  call void @__quantum__qis__h__body(%Qubit* inttoptr (i64 2 to %Qubit*))
  br label %measurements

measurements:
  br label %output

output:
  ret i64 0
",
    declares: &[CNOT, H],
    profile: "base",
    qubits: 3,
    results: 0,
    irreversible: false,
    capabilities: &[],
};

pub const THREE_TURNS: Lowered<'static> = Lowered {
    blocks: b"  br label %body

body:
  call void @__quantum__qis__phase__body(i64 0, %Qubit* null)
  call void @__quantum__qis__phase__body(i64 1, %Qubit* null)
  call void @__quantum__qis__phase__body(i64 2, %Qubit* null)
  br label %measurements

measurements:
  br label %output

output:
  ret i64 0
",
    declares: &[PHASE],
    profile: "base",
    qubits: 1,
    results: 0,
    irreversible: false,
    capabilities: &[],
};

pub const RECORDED: Lowered<'static> = Lowered {
    blocks: b"  br label %body

body:
  br label %measurements

measurements:
  br label %output

output:
  call void @__quantum__rt__result_record_output(%Result* null, i8* null)
  ret i64 0
",
    declares: &[RECORD],
    profile: "base",
    qubits: 0,
    results: 1,
    irreversible: false,
    capabilities: &[],
};

pub const RETURNS_THREE: Lowered<'static> = Lowered {
    blocks: b"  br label %body

body:
  call void @__quantum__qis__h__body(%Qubit* null)
  br label %measurements

measurements:
  br label %output

output:
  ret i64 3
",
    declares: &[H],
    profile: "base",
    qubits: 1,
    results: 0,
    irreversible: false,
    capabilities: &[],
};

pub const MEASURED_FIRST: Lowered<'static> = Lowered {
    blocks: b"  call void @__quantum__qis__mz__body(%Qubit* null, %Result* null)
  call void @__quantum__qis__x__body(%Qubit* null)
  ret i64 0
",
    declares: &[MZ, X],
    profile: "adaptive",
    qubits: 1,
    results: 1,
    irreversible: true,
    capabilities: &[],
};

pub const KEPT_LOOP: Lowered<'static> = Lowered {
    blocks: b"  br label %b1

b1:
  call void @__quantum__qis__h__body(%Qubit* null)
  call void @__quantum__qis__mz__body(%Qubit* null, %Result* null)
  %v0 = call i1 @__quantum__rt__read_result(%Result* null)
  br i1 %v0, label %b1, label %b2

b2:
  ret i64 0
",
    declares: &[H, MZ, READ],
    profile: "adaptive",
    qubits: 1,
    results: 1,
    irreversible: true,
    capabilities: &[b"backwards_branching"],
};

pub const KEPT_EMPTY_LOOP: Lowered<'static> = Lowered {
    blocks: b"  br label %b1

b1:
  br label %b1
",
    declares: &[],
    profile: "adaptive",
    qubits: 0,
    results: 0,
    irreversible: false,
    capabilities: &[b"backwards_branching"],
};

pub const GATE_ON_EACH_WAY: Lowered<'static> = Lowered {
    blocks: b"  call void @__quantum__qis__mz__body(%Qubit* null, %Result* null)
  %v0 = call i1 @__quantum__rt__read_result(%Result* null)
  br i1 %v0, label %b1, label %b3

b1:
  call void @__quantum__qis__x__body(%Qubit* inttoptr (i64 1 to %Qubit*))
  br label %b2

b2:
  ret i64 0

b3:
  call void @__quantum__qis__x__body(%Qubit* inttoptr (i64 2 to %Qubit*))
  br label %b2
",
    declares: &[MZ, READ, X],
    profile: "adaptive",
    qubits: 3,
    results: 1,
    irreversible: true,
    capabilities: &[],
};

pub const CORRECTIONS: Lowered<'static> = Lowered {
    blocks: b"  call void @__quantum__qis__h__body(%Qubit* inttoptr (i64 1 to %Qubit*))
  call void @__quantum__qis__cnot__body(%Qubit* inttoptr (i64 1 to %Qubit*), %Qubit* inttoptr (i64 2 to %Qubit*))
  call void @__quantum__qis__cnot__body(%Qubit* null, %Qubit* inttoptr (i64 1 to %Qubit*))
  call void @__quantum__qis__h__body(%Qubit* null)
  call void @__quantum__qis__mz__body(%Qubit* null, %Result* null)
  call void @__quantum__qis__mz__body(%Qubit* inttoptr (i64 1 to %Qubit*), %Result* inttoptr (i64 1 to %Result*))
  %v0 = call i1 @__quantum__rt__read_result(%Result* inttoptr (i64 1 to %Result*))
  br i1 %v0, label %b1, label %b2

b1:
  call void @__quantum__qis__x__body(%Qubit* inttoptr (i64 2 to %Qubit*))
  br label %b2

b2:
  %v1 = call i1 @__quantum__rt__read_result(%Result* null)
  br i1 %v1, label %b3, label %b4

b3:
  call void @__quantum__qis__z__body(%Qubit* inttoptr (i64 2 to %Qubit*))
  br label %b4

b4:
  ret i64 0
",
    declares: &[H, CNOT, MZ, READ, X, Z],
    profile: "adaptive",
    qubits: 3,
    results: 2,
    irreversible: true,
    capabilities: &[],
};

pub const TWO_READS: Lowered<'static> = Lowered {
    blocks: b"  call void @__quantum__qis__mz__body(%Qubit* null, %Result* null)
  call void @__quantum__qis__mz__body(%Qubit* inttoptr (i64 1 to %Qubit*), %Result* inttoptr (i64 1 to %Result*))
  %v0 = call i1 @__quantum__rt__read_result(%Result* null)
  %v1 = call i1 @__quantum__rt__read_result(%Result* inttoptr (i64 1 to %Result*))
  %v2 = icmp eq i1 %v0, %v1
  br i1 %v2, label %b1, label %b2

b1:
  call void @__quantum__qis__x__body(%Qubit* inttoptr (i64 2 to %Qubit*))
  br label %b3

b2:
  br label %b3

b3:
  ret i64 0
",
    declares: &[MZ, READ, X],
    profile: "adaptive",
    qubits: 3,
    results: 2,
    irreversible: true,
    capabilities: &[],
};

pub const KEPT_SUM: Lowered<'static> = Lowered {
    blocks: b"  call void @__quantum__qis__mz__body(%Qubit* null, %Result* null)
  %v0 = call i1 @__quantum__rt__read_result(%Result* null)
  %v1 = zext i1 %v0 to i64
  %v2 = add nsw i64 9223372036854775807, %v1
  ret i64 0
",
    declares: &[MZ, READ],
    profile: "adaptive",
    qubits: 1,
    results: 1,
    irreversible: true,
    capabilities: &[b"int_computations"],
};

pub const KEPT_SWITCH: Lowered<'static> = Lowered {
    blocks: b"  call void @__quantum__qis__mz__body(%Qubit* null, %Result* null)
  %v0 = call i1 @__quantum__rt__read_result(%Result* null)
  %v1 = zext i1 %v0 to i8
  switch i8 %v1, label %b2 [ i8 1, label %b1 ]

b1:
  br label %b3

b2:
  br label %b3

b3:
  ret i64 0
",
    declares: &[MZ, READ],
    profile: "adaptive",
    qubits: 1,
    results: 1,
    irreversible: true,
    capabilities: &[b"int_computations", b"multiple_target_branching"],
};

pub const KEPT_CODE: Lowered<'static> = Lowered {
    blocks: b"  call void @__quantum__qis__h__body(%Qubit* null)
  ret i64 3
",
    declares: &[H],
    profile: "adaptive",
    qubits: 1,
    results: 0,
    irreversible: false,
    capabilities: &[b"multiple_return_points"],
};
