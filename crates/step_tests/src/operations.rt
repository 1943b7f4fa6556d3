//! Operations: their arguments, and the order of the Base Profile.
use crate::given::{BARE, text_of, told};
use kept_items::Target;
use std::test::Fail;

#[test]
fn operations_in_the_order_of_the_base_profile(rt: HostRuntime) -> Result<(), Fail> {
    let rows: [(&'static str, &'static str); 7] = [
        (
            "  call void @__quantum__qis__h__body(%Qubit* null)\n  call void @__quantum__qis__x__body(%Qubit* null)\n  call void @__quantum__qis__mz__body(%Qubit* null, %Result* null)\n  call void @__quantum__qis__reset__body(%Qubit* null)\n  call void @__quantum__rt__result_record_output(%Result* null, i8* null)\n  ret i64 0\n",
            "operation, operation, operation, operation, record, exits 0",
        ),
        (
            "  call void @__quantum__qis__mz__body(%Qubit* null, %Result* null)\n  call void @__quantum__qis__h__body(%Qubit* null)\n  ret i64 0\n",
            "operation, phase",
        ),
        (
            "  call void @__quantum__qis__reset__body(%Qubit* null)\n  call void @__quantum__qis__h__body(%Qubit* null)\n  ret i64 0\n",
            "operation, phase",
        ),
        (
            "  %r = call %Result* @__quantum__qis__m__body(%Qubit* null)\n  call void @__quantum__qis__h__body(%Qubit* null)\n  ret i64 0\n",
            "operation, phase",
        ),
        (
            "  call void @__quantum__rt__tuple_record_output(i64 0, i8* null)\n  call void @__quantum__qis__h__body(%Qubit* null)\n  ret i64 0\n",
            "record, phase",
        ),
        (
            "  call void @__quantum__rt__tuple_record_output(i64 0, i8* null)\n  call void @__quantum__qis__mz__body(%Qubit* null, %Result* null)\n  ret i64 0\n",
            "record, phase",
        ),
        (
            "  call void @__quantum__rt__tuple_record_output(i64 0, i8* null)\n  %r = call %Result* @__quantum__qis__m__body(%Qubit* null)\n  ret i64 0\n",
            "record, phase",
        ),
    ];
    for (body, expected) in rows {
        let text = text_of(rt.alloc(), "", body)?;
        let found = told(rt.alloc(), text.as_slice(), Target::Base)?;
        assert_eq!(rt; found.as_slice(), expected.as_bytes(), "{body}");
    }
    Ok(())
}

#[test]
fn operations_in_any_order_of_the_adaptive_profile(rt: HostRuntime) -> Result<(), Fail> {
    let rows: [(&'static str, &'static str); 3] = [
        (
            "  call void @__quantum__qis__mz__body(%Qubit* null, %Result* null)\n  call void @__quantum__qis__h__body(%Qubit* null)\n  ret i64 0\n",
            "operation, operation, exits 0",
        ),
        (
            "  call void @__quantum__rt__tuple_record_output(i64 0, i8* null)\n  call void @__quantum__qis__mz__body(%Qubit* null, %Result* null)\n  ret i64 0\n",
            "record, operation, exits 0",
        ),
        (
            "  %r = call %Result* @__quantum__qis__m__body(%Qubit* null)\n  %s = call %Result* @__quantum__qis__m__body(%Qubit* null)\n  %d = call i1 @__quantum__rt__read_result(%Result* %s)\n  call void @__quantum__rt__bool_record_output(i1 %d, i8* null)\n  ret i64 0\n",
            "operation, operation result 1, read ?, record, exits 0",
        ),
    ];
    for (body, expected) in rows {
        let text = text_of(rt.alloc(), "", body)?;
        let found = told(rt.alloc(), text.as_slice(), BARE)?;
        assert_eq!(rt; found.as_slice(), expected.as_bytes(), "{body}");
    }
    Ok(())
}

/// What every run would stop at comes before the order.
#[test]
fn operations_on_wrong_arguments(rt: HostRuntime) -> Result<(), Fail> {
    let rows: [(&'static str, &'static str); 4] = [
        (
            "  %a = call %Qubit* @__quantum__rt__qubit_allocate()\n  call void @__quantum__rt__qubit_release(%Qubit* %a)\n  call void @__quantum__qis__h__body(%Qubit* %a)\n  ret i64 0\n",
            "passes qubit 0, passes qubit 0, released",
        ),
        (
            "  %a = call %Qubit* @__quantum__rt__qubit_allocate()\n  call void @__quantum__rt__qubit_release(%Qubit* %a)\n  call void @__quantum__qis__mz__body(%Qubit* null, %Result* null)\n  call void @__quantum__qis__h__body(%Qubit* %a)\n  ret i64 0\n",
            "passes qubit 0, passes qubit 0, operation qubit 0, released",
        ),
        (
            "  %a = call %Qubit* @__quantum__rt__qubit_allocate()\n  call void @__quantum__rt__qubit_release(%Qubit* %a)\n  %r = call %Result* @__quantum__qis__m__body(%Qubit* %a)\n  ret i64 0\n",
            "passes qubit 0, passes qubit 0, released",
        ),
        (
            "  %r = call %Result* @__quantum__rt__result_get_one()\n  call void @__quantum__qis__mz__body(%Qubit* null, %Result* %r)\n  ret i64 0\n",
            "passes one, constant result",
        ),
    ];
    for (body, expected) in rows {
        let text = text_of(rt.alloc(), "", body)?;
        let found = told(rt.alloc(), text.as_slice(), Target::Base)?;
        assert_eq!(rt; found.as_slice(), expected.as_bytes(), "{body}");
    }
    Ok(())
}
