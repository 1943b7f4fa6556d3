//! Calls and returns, allocations and releases, constant results, and results that are read.
use crate::given::{ALL, BARE, INTS, READ, RETURNS, text_of, told};
use kept_items::Target;
use std::test::Fail;

#[test]
fn functions_with_a_body(rt: HostRuntime) -> Result<(), Fail> {
    let rows: [(&'static str, &'static str); 3] = [
        (
            "  %x = call i64 @twice(i64 3)\n  ret i64 %x\n}\ndefine i64 @twice(i64 %n) {\nb:\n  %m = mul i64 %n, 2\n  ret i64 %m\n",
            "passes 3, passes 6, passes 6, exits 6",
        ),
        (
            "  call void @turn()\n  ret i64 0\n}\ndefine void @turn() {\nb:\n  ret void\n",
            "passes, passes, exits 0",
        ),
        (
            "  %f = select i1 true, i64 (i64)* @twice, i64 (i64)* @twice\n  %x = call i64 %f(i64 3)\n  ret i64 %x\n}\ndefine i64 @twice(i64 %n) {\nb:\n  %m = mul i64 %n, 2\n  ret i64 %m\n",
            "passes function, passes 3, passes 6, passes 6, exits 6",
        ),
    ];
    for (body, expected) in rows {
        let text = text_of(rt.alloc(), "", body)?;
        let found = told(rt.alloc(), text.as_slice(), Target::Base)?;
        assert_eq!(rt; found.as_slice(), expected.as_bytes(), "{body}");
    }
    Ok(())
}

#[test]
fn returns_of_the_entry(rt: HostRuntime) -> Result<(), Fail> {
    let rows: [(&'static str, Target, &'static str); 6] = [
        ("  ret i64 -1\n", Target::Base, "exits -1"),
        ("  ret i64 0\n", BARE, "exits 0"),
        ("  ret i64 5\n", BARE, "capability"),
        ("  ret i64 5\n", RETURNS, "exits 5"),
        (
            "  %d = call i1 @__quantum__rt__read_result(%Result* null)\n  %x = zext i1 %d to i64\n  ret i64 %x\n",
            INTS,
            "read ?, convert ?, capability",
        ),
        (
            "  %d = call i1 @__quantum__rt__read_result(%Result* null)\n  %x = zext i1 %d to i64\n  ret i64 %x\n",
            ALL,
            "read ?, convert ?, exits ?",
        ),
    ];
    for (body, target, expected) in rows {
        let text = text_of(rt.alloc(), "", body)?;
        let found = told(rt.alloc(), text.as_slice(), target)?;
        assert_eq!(rt; found.as_slice(), expected.as_bytes(), "{body}");
    }
    Ok(())
}

#[test]
fn allocations_and_calls_that_are_dropped(rt: HostRuntime) -> Result<(), Fail> {
    let rows: [(&'static str, &'static str); 6] = [
        (
            "  call void @__quantum__rt__initialize(i8* null)\n  ret i64 0\n",
            "passes, exits 0",
        ),
        (
            "  call void @__quantum__rt__result_update_reference_count(%Result* null, i32 1)\n  ret i64 0\n",
            "passes, exits 0",
        ),
        (
            "  %a = call %Qubit* @__quantum__rt__qubit_allocate()\n  call void @__quantum__qis__h__body(%Qubit* %a)\n  call void @__quantum__rt__qubit_release(%Qubit* %a)\n  ret i64 0\n",
            "passes qubit 0, operation qubit 0, passes, exits 0",
        ),
        (
            "  %a = call %Qubit* @__quantum__rt__qubit_allocate()\n  call void @__quantum__rt__qubit_release(%Qubit* %a)\n  %b = call %Qubit* @__quantum__rt__qubit_allocate()\n  call void @__quantum__qis__h__body(%Qubit* %b)\n  ret i64 0\n",
            "passes qubit 0, passes, passes qubit 1, operation, exits 0",
        ),
        (
            "  %a = call %Qubit* @__quantum__rt__qubit_allocate()\n  call void @__quantum__rt__qubit_release(%Qubit* %a)\n  call void @__quantum__rt__qubit_release(%Qubit* %a)\n  ret i64 0\n",
            "passes qubit 0, passes qubit 0, released",
        ),
        (
            "  call void @__quantum__rt__qubit_release(%Qubit* null)\n  ret i64 0\n",
            "bad release",
        ),
    ];
    for (body, expected) in rows {
        let text = text_of(rt.alloc(), "", body)?;
        let found = told(rt.alloc(), text.as_slice(), Target::Base)?;
        assert_eq!(rt; found.as_slice(), expected.as_bytes(), "{body}");
    }
    Ok(())
}

/// Constant results are read and compared under every target, others not under the Base Profile.
#[test]
fn results_under_the_base_profile(rt: HostRuntime) -> Result<(), Fail> {
    let rows: [(&'static str, &'static str); 4] = [
        (
            "  %r = call %Result* @__quantum__rt__result_get_one()\n  %d = call i1 @__quantum__rt__read_result(%Result* %r)\n  %x = zext i1 %d to i64\n  ret i64 %x\n",
            "passes one, passes 1, passes 1, exits 1",
        ),
        (
            "  %r = call %Result* @__quantum__rt__result_get_one()\n  %s = call %Result* @__quantum__rt__result_get_zero()\n  %d = call i1 @__quantum__rt__result_equal(%Result* %r, %Result* %s)\n  %x = zext i1 %d to i64\n  ret i64 %x\n",
            "passes one, passes one zero, passes 0, passes 0, exits 0",
        ),
        (
            "  %d = call i1 @__quantum__rt__read_result(%Result* null)\n  ret i64 0\n",
            "forbidden",
        ),
        (
            "  %d = call i1 @__quantum__rt__result_equal(%Result* null, %Result* null)\n  ret i64 0\n",
            "forbidden",
        ),
    ];
    for (body, expected) in rows {
        let text = text_of(rt.alloc(), "", body)?;
        let found = told(rt.alloc(), text.as_slice(), Target::Base)?;
        assert_eq!(rt; found.as_slice(), expected.as_bytes(), "{body}");
    }
    Ok(())
}

#[test]
fn results_under_the_adaptive_profile(rt: HostRuntime) -> Result<(), Fail> {
    let rows: [(&'static str, &'static str); 3] = [
        (
            "  call void @__quantum__rt__bool_record_output(i1 %d, i8* null)\n  ret i64 0\n",
            "read ?, record, exits 0",
        ),
        (
            "  %e = call i1 @__quantum__rt__result_equal(%Result* null, %Result* inttoptr (i64 1 to %Result*))\n  call void @__quantum__rt__bool_record_output(i1 %e, i8* null)\n  ret i64 0\n",
            "read, equal ?, record, exits 0",
        ),
        (
            "  %r = call %Result* @__quantum__rt__result_get_one()\n  %e = call i1 @__quantum__rt__result_equal(%Result* %r, %Result* null)\n  call void @__quantum__rt__bool_record_output(i1 %e, i8* null)\n  ret i64 0\n",
            "read, passes one, equal ?, record, exits 0",
        ),
    ];
    for (body, expected) in rows {
        let text = text_of(rt.alloc(), READ, body)?;
        let found = told(rt.alloc(), text.as_slice(), BARE)?;
        assert_eq!(rt; found.as_slice(), expected.as_bytes(), "{body}");
    }
    Ok(())
}
