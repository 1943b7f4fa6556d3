//! Required numbers, and the numbers of qubits and results.
use crate::rows::{PRINTED, Row, check};
use crate::texts::Text;
use qir_cli::Status;
use std::test::Fail;

#[test]
fn required_numbers_are_at_most_1_000_000_000(rt: HostRuntime) -> Result<(), Fail> {
    let rows: [Row; 6] = [
        (
            Text::Needs(
                "",
                " \"required_num_qubits\"=\"0\" \"required_num_results\"=\"0\"",
            ),
            "print",
            Status::Done,
            PRINTED,
        ),
        (
            Text::Needs(
                "",
                " \"required_num_qubits\"=\"1000000000\" \"required_num_results\"=\"1000000000\"",
            ),
            "print",
            Status::Done,
            PRINTED,
        ),
        (
            Text::Needs("", " \"required_num_qubits\"=\"1000000001\""),
            "print",
            Status::Refused,
            "REFUSED\ttype\t7\t1\t12\tBadNumberAttr\n",
        ),
        (
            Text::Needs("", " \"required_num_results\"=\"1000000001\""),
            "print",
            Status::Refused,
            "REFUSED\ttype\t7\t1\t12\tBadNumberAttr\n",
        ),
        (
            Text::Needs("", " \"required_num_qubits\"=\"18446744073709551616\""),
            "print",
            Status::Refused,
            "REFUSED\ttype\t7\t1\t12\tBadNumberAttr\n",
        ),
        (
            Text::Needs("", " \"required_num_qubits\"=\"00\""),
            "print",
            Status::Refused,
            "REFUSED\ttype\t7\t1\t12\tBadNumberAttr\n",
        ),
    ];
    check(&rt, rt.alloc(), rows.as_slice())
}

/// A number is below the required one, which is at most 1,000,000,000 also where the entry names none.
#[test]
fn numbers_of_handles_are_below_the_required(rt: HostRuntime) -> Result<(), Fail> {
    let rows: [Row; 9] = [
        (
            Text::Needs(
                "  call void @__quantum__qis__h__body(%Qubit* inttoptr (i64 1 to %Qubit*))\n",
                " \"required_num_qubits\"=\"2\"",
            ),
            "print",
            Status::Done,
            PRINTED,
        ),
        (
            Text::Needs(
                "  call void @__quantum__qis__h__body(%Qubit* inttoptr (i64 2 to %Qubit*))\n",
                " \"required_num_qubits\"=\"2\"",
            ),
            "print",
            Status::Refused,
            "REFUSED\ttype\t8\t3\t3\tIdRange\n",
        ),
        (
            Text::Needs(
                "  call void @__quantum__qis__h__body(%Qubit* null)\n",
                " \"required_num_qubits\"=\"0\"",
            ),
            "print",
            Status::Refused,
            "REFUSED\ttype\t8\t3\t3\tIdRange\n",
        ),
        (
            Text::Body(
                "  call void @__quantum__qis__h__body(%Qubit* inttoptr (i64 999999999 to %Qubit*))\n",
            ),
            "print",
            Status::Done,
            PRINTED,
        ),
        (
            Text::Body(
                "  call void @__quantum__qis__h__body(%Qubit* inttoptr (i64 1000000000 to %Qubit*))\n",
            ),
            "print",
            Status::Refused,
            "REFUSED\ttype\t8\t3\t3\tIdRange\n",
        ),
        (
            Text::Body(
                "  call void @__quantum__qis__mz__body(%Qubit* null, %Result* inttoptr (i64 999999999 to %Result*))\n",
            ),
            "print",
            Status::Done,
            PRINTED,
        ),
        (
            Text::Body(
                "  call void @__quantum__qis__mz__body(%Qubit* null, %Result* inttoptr (i64 1000000000 to %Result*))\n",
            ),
            "print",
            Status::Refused,
            "REFUSED\ttype\t8\t3\t3\tIdRange\n",
        ),
        (
            Text::Body(
                "  call void @__quantum__qis__h__body(%Qubit* inttoptr (i64 18446744073709551615 to %Qubit*))\n",
            ),
            "print",
            Status::Refused,
            "REFUSED\ttype\t8\t3\t3\tIdRange\n",
        ),
        (
            Text::Body(
                "  call void @__quantum__qis__h__body(%Qubit* inttoptr (i64 18446744073709551616 to %Qubit*))\n",
            ),
            "print",
            Status::Refused,
            "REFUSED\tread\t9\t3\t60\tLiteralRange\n",
        ),
    ];
    check(&rt, rt.alloc(), rows.as_slice())
}
