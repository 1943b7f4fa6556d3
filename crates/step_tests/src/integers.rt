//! Integer instructions and `select`: folded where the operands are known, kept or refused where one isn't.
use crate::given::{ALL, BARE, INTS, READ, RETURNS, text_of, told};
use kept_items::Target;
use std::test::Fail;

#[test]
fn known_integers_are_folded(rt: HostRuntime) -> Result<(), Fail> {
    let rows: [(&'static str, &'static str); 8] = [
        ("  %x = add i64 2, 3\n  ret i64 %x\n", "passes 5, exits 5"),
        (
            "  %x = icmp slt i64 -1, 0\n  %y = zext i1 %x to i64\n  ret i64 %y\n",
            "passes 1, passes 1, exits 1",
        ),
        (
            "  %x = trunc i64 300 to i8\n  %y = zext i8 %x to i64\n  ret i64 %y\n",
            "passes 44, passes 44, exits 44",
        ),
        (
            "  %x = add i8 127, 1\n  %y = sext i8 %x to i64\n  ret i64 %y\n",
            "passes 128, passes 18446744073709551488, exits -128",
        ),
        ("  %x = add nsw i8 127, 1\n  ret i64 0\n", "poison"),
        ("  %x = shl i8 1, 8\n  ret i64 0\n", "poison"),
        ("  %x = sdiv i64 1, 0\n  ret i64 0\n", "division by zero"),
        ("  %x = sdiv i8 -128, -1\n  ret i64 0\n", "overflow"),
    ];
    for (body, expected) in rows {
        let text = text_of(rt.alloc(), "", body)?;
        let found = told(rt.alloc(), text.as_slice(), Target::Base)?;
        assert_eq!(rt; found.as_slice(), expected.as_bytes(), "{body}");
    }
    Ok(())
}

/// On one bit some are free, all others need computations on integers.
#[test]
fn dynamic_integers_are_kept_or_refused(rt: HostRuntime) -> Result<(), Fail> {
    let rows: [(&'static str, Target, &'static str); 8] = [
        (
            "  %x = and i1 %d, true\n  call void @__quantum__rt__bool_record_output(i1 %x, i8* null)\n  ret i64 0\n",
            BARE,
            "read ?, binary ?, record, exits 0",
        ),
        (
            "  %x = or i1 true, %d\n  call void @__quantum__rt__bool_record_output(i1 %x, i8* null)\n  ret i64 0\n",
            BARE,
            "read ?, binary ?, record, exits 0",
        ),
        (
            "  %x = icmp ne i1 %d, true\n  call void @__quantum__rt__bool_record_output(i1 %x, i8* null)\n  ret i64 0\n",
            BARE,
            "read ?, icmp ?, record, exits 0",
        ),
        (
            "  %x = add i1 %d, true\n  ret i64 0\n",
            BARE,
            "read ?, capability",
        ),
        (
            "  %x = add i1 %d, true\n  ret i64 0\n",
            INTS,
            "read ?, binary, exits 0",
        ),
        (
            "  %x = zext i1 %d to i64\n  ret i64 0\n",
            BARE,
            "read ?, capability",
        ),
        (
            "  %x = zext i1 %d to i64\n  %y = icmp eq i64 %x, 3\n  ret i64 0\n",
            INTS,
            "read ?, convert ?, icmp, exits 0",
        ),
        (
            "  %x = zext i1 %d to i64\n  %y = udiv i64 %x, 0\n  ret i64 0\n",
            INTS,
            "read ?, convert ?, binary, exits 0",
        ),
    ];
    for (body, target, expected) in rows {
        let text = text_of(rt.alloc(), READ, body)?;
        let found = told(rt.alloc(), text.as_slice(), target)?;
        assert_eq!(rt; found.as_slice(), expected.as_bytes(), "{body}");
    }
    Ok(())
}

#[test]
fn select_by_a_known_bit(rt: HostRuntime) -> Result<(), Fail> {
    let rows: [(&'static str, &'static str); 3] = [
        (
            "  %x = select i1 true, i64 5, i64 6\n  ret i64 %x\n",
            "passes 5, exits 5",
        ),
        (
            "  %x = select i1 false, i64 5, i64 6\n  ret i64 %x\n",
            "passes 6, exits 6",
        ),
        (
            "  %x = select i1 false, %Qubit* null, %Qubit* inttoptr (i64 1 to %Qubit*)\n  call void @__quantum__qis__h__body(%Qubit* %x)\n  ret i64 0\n",
            "passes fixed 1, operation, exits 0",
        ),
    ];
    for (body, expected) in rows {
        let text = text_of(rt.alloc(), "", body)?;
        let found = told(rt.alloc(), text.as_slice(), Target::Base)?;
        assert_eq!(rt; found.as_slice(), expected.as_bytes(), "{body}");
    }
    Ok(())
}

/// Equal values are one value, and integers are chosen as others are computed.
#[test]
fn select_by_a_dynamic_bit(rt: HostRuntime) -> Result<(), Fail> {
    let rows: [(&'static str, Target, &'static str); 6] = [
        (
            "  %x = select i1 %d, i64 5, i64 5\n  ret i64 %x\n",
            RETURNS,
            "read ?, passes 5, exits 5",
        ),
        (
            "  %x = select i1 %d, %Qubit* null, %Qubit* null\n  call void @__quantum__qis__h__body(%Qubit* %x)\n  ret i64 0\n",
            BARE,
            "read ?, passes fixed 0, operation, exits 0",
        ),
        (
            "  %x = select i1 %d, i1 false, i1 true\n  call void @__quantum__rt__bool_record_output(i1 %x, i8* null)\n  ret i64 0\n",
            BARE,
            "read ?, select ?, record, exits 0",
        ),
        (
            "  %x = select i1 %d, i64 5, i64 6\n  ret i64 0\n",
            BARE,
            "read ?, capability",
        ),
        (
            "  %x = select i1 %d, i64 5, i64 6\n  ret i64 %x\n",
            ALL,
            "read ?, select ?, exits ?",
        ),
        (
            "  %x = select i1 %d, i1 %d, i1 %d\n  ret i64 0\n",
            BARE,
            "read ?, select, exits 0",
        ),
    ];
    for (body, target, expected) in rows {
        let text = text_of(rt.alloc(), READ, body)?;
        let found = told(rt.alloc(), text.as_slice(), target)?;
        assert_eq!(rt; found.as_slice(), expected.as_bytes(), "{body}");
    }
    Ok(())
}

/// Qubits, results, functions, labels and doubles that differ are never chosen by a Dynamic bit.
#[test]
fn no_choice_of_other_values(rt: HostRuntime) -> Result<(), Fail> {
    let rows: [(&'static str, &'static str); 5] = [
        (
            "  %x = select i1 %d, %Qubit* null, %Qubit* inttoptr (i64 1 to %Qubit*)\n  ret i64 0\n",
            "read ?, handle",
        ),
        (
            "  %x = select i1 %d, %Result* null, %Result* inttoptr (i64 1 to %Result*)\n  ret i64 0\n",
            "read ?, handle",
        ),
        (
            "  %x = select i1 %d, void (%Qubit*)* @__quantum__qis__h__body, void (%Qubit*)* @__quantum__qis__x__body\n  ret i64 0\n",
            "read ?, target",
        ),
        (
            "  %x = select i1 %d, i8* null, i8* getelementptr inbounds ([2 x i8], [2 x i8]* @0, i32 0, i32 0)\n  ret i64 0\n",
            "read ?, token",
        ),
        (
            "  %x = select i1 %d, double 1.0, double 2.0\n  ret i64 0\n",
            "read ?, token",
        ),
    ];
    for (body, expected) in rows {
        let text = text_of(rt.alloc(), READ, body)?;
        let found = told(rt.alloc(), text.as_slice(), ALL)?;
        assert_eq!(rt; found.as_slice(), expected.as_bytes(), "{body}");
    }
    Ok(())
}
