//! One module for each rule and form: where it is broken, and its nearest neighbour where it isn't.
use crate::given::{ADAPTIVE, BARE, BASE, Check, Flags, NO_RESULTS, NO_SCHEMA, Row, text_of, told};
use profile_rules::Form;
use std::test::Fail;

#[test]
fn rules_of_the_base_profile(rt: HostRuntime) -> Result<(), Fail> {
    let rows: [Row; 20] = [
        Row {
            body: "  call void @__quantum__qis__h__body(%Qubit* null)\n  ret i64 0\n",
            attributes: BASE,
            flags: Flags::Four,
            check: Check::Base(Form::Chain),
            told: "OK\n",
        },
        // another profile is named
        Row {
            body: "  call void @__quantum__qis__h__body(%Qubit* null)\n  ret i64 0\n",
            attributes: ADAPTIVE,
            flags: Flags::Four,
            check: Check::Base(Form::Chain),
            told: "FINDING\t1\t12\tB1\n",
        },
        // no labelling schema
        Row {
            body: "  call void @__quantum__qis__h__body(%Qubit* null)\n  ret i64 0\n",
            attributes: NO_SCHEMA,
            flags: Flags::Four,
            check: Check::Base(Form::Chain),
            told: "FINDING\t1\t12\tB2\n",
        },
        // no number of results
        Row {
            body: "  call void @__quantum__qis__h__body(%Qubit* null)\n  ret i64 0\n",
            attributes: NO_RESULTS,
            flags: Flags::Four,
            check: Check::Base(Form::Chain),
            told: "FINDING\t1\t12\tB3\n",
        },
        // no minor version
        Row {
            body: "  call void @__quantum__qis__h__body(%Qubit* null)\n  ret i64 0\n",
            attributes: BASE,
            flags: Flags::Three,
            check: Check::Base(Form::Chain),
            told: "FINDING\t1\t1\tB4\n",
        },
        // another body
        Row {
            body: "  call void @__quantum__qis__h__body(%Qubit* null)\n  ret i64 0\n}\ndefine void @turn() {\nb:\n  ret void\n",
            attributes: BASE,
            flags: Flags::Four,
            check: Check::Base(Form::Chain),
            told: "FINDING\t6\t13\tB5\n",
        },
        // a branch on a value ends the walk
        Row {
            body: "  br i1 true, label %a, label %b\na:\n  ret i64 0\nb:\n  ret i64 0\n",
            attributes: BASE,
            flags: Flags::Four,
            check: Check::Base(Form::Chain),
            told: "FINDING\t1\t12\tB7\nFINDING\t3\t3\tB6\n",
        },
        // a walk that never returns, and one that does
        Row {
            body: "  br label %a\na:\n  br label %a\n",
            attributes: BASE,
            flags: Flags::Four,
            check: Check::Base(Form::Chain),
            told: "FINDING\t1\t12\tB7\n",
        },
        Row {
            body: "  br label %a\na:\n  ret i64 0\n",
            attributes: BASE,
            flags: Flags::Four,
            check: Check::Base(Form::Chain),
            told: "OK\n",
        },
        // an instruction that is no call
        Row {
            body: "  %x = add i64 1, 1\n  ret i64 0\n",
            attributes: BASE,
            flags: Flags::Four,
            check: Check::Base(Form::Chain),
            told: "FINDING\t3\t3\tB9\n",
        },
        // a result is read
        Row {
            body: "  %a = call i1 @__quantum__rt__read_result(%Result* null)\n  ret i64 0\n",
            attributes: BASE,
            flags: Flags::Four,
            check: Check::Base(Form::Chain),
            told: "FINDING\t3\t3\tB10\n",
        },
        // a qubit is allocated and passed
        Row {
            body: "  %q = call %Qubit* @__quantum__rt__qubit_allocate()\n  call void @__quantum__qis__h__body(%Qubit* %q)\n  ret i64 0\n",
            attributes: BASE,
            flags: Flags::Four,
            check: Check::Base(Form::Chain),
            told: "FINDING\t3\t3\tB10\nFINDING\t4\t3\tB11\n",
        },
        // the second instruction initialises, and the first one
        Row {
            body: "  call void @__quantum__qis__h__body(%Qubit* null)\n  call void @__quantum__rt__initialize(i8* null)\n  ret i64 0\n",
            attributes: BASE,
            flags: Flags::Four,
            check: Check::Base(Form::Chain),
            told: "FINDING\t4\t3\tB14\n",
        },
        Row {
            body: "  call void @__quantum__rt__initialize(i8* null)\n  call void @__quantum__qis__h__body(%Qubit* null)\n  ret i64 0\n",
            attributes: BASE,
            flags: Flags::Four,
            check: Check::Base(Form::Chain),
            told: "OK\n",
        },
        // four blocks with their calls, and with others'
        Row {
            body: "  call void @__quantum__rt__initialize(i8* null)\n  br label %b\nb:\n  call void @__quantum__qis__h__body(%Qubit* null)\n  br label %c\nc:\n  call void @__quantum__qis__mz__body(%Qubit* null, %Result* null)\n  br label %d\nd:\n  call void @__quantum__rt__result_record_output(%Result* null, i8* null)\n  ret i64 0\n",
            attributes: BASE,
            flags: Flags::Four,
            check: Check::Base(Form::Strict),
            told: "OK\n",
        },
        Row {
            body: "  br label %b\nb:\n  call void @__quantum__qis__mz__body(%Qubit* null, %Result* null)\n  br label %c\nc:\n  call void @__quantum__qis__h__body(%Qubit* null)\n  br label %d\nd:\n  call void @__quantum__rt__result_record_output(%Result* null, i8* null)\n  ret i64 0\n",
            attributes: BASE,
            flags: Flags::Four,
            check: Check::Base(Form::Strict),
            told: "FINDING\t5\t3\tB12\nFINDING\t8\t3\tB12\n",
        },
        Row {
            body: "  br label %b\nb:\n  call void @__quantum__qis__mz__body(%Qubit* null, %Result* null)\n  br label %c\nc:\n  call void @__quantum__qis__h__body(%Qubit* null)\n  br label %d\nd:\n  call void @__quantum__rt__result_record_output(%Result* null, i8* null)\n  ret i64 0\n",
            attributes: BASE,
            flags: Flags::Four,
            check: Check::Base(Form::Chain),
            told: "OK\n",
        },
        // one block
        Row {
            body: "  call void @__quantum__qis__h__body(%Qubit* null)\n  ret i64 0\n",
            attributes: BASE,
            flags: Flags::Four,
            check: Check::Base(Form::Strict),
            told: "FINDING\t1\t12\tB7\nFINDING\t3\t3\tB12\n",
        },
        // a measurement without its mark
        Row {
            body: "  br label %b\nb:\n  br label %c\nc:\n  call void @__quantum__qis__m__body(%Qubit* null, %Result* null)\n  br label %d\nd:\n  ret i64 0\n",
            attributes: BASE,
            flags: Flags::Four,
            check: Check::Base(Form::Strict),
            told: "FINDING\t19\t14\tB13\n",
        },
        Row {
            body: "  br label %b\nb:\n  br label %c\nc:\n  call void @__quantum__qis__m__body(%Qubit* null, %Result* null)\n  br label %d\nd:\n  ret i64 0\n",
            attributes: BASE,
            flags: Flags::Four,
            check: Check::Base(Form::Chain),
            told: "OK\n",
        },
    ];
    for row in rows {
        let text = text_of(rt.alloc(), &row)?;
        let found = told(rt.alloc(), text.as_slice(), row.check)?;
        assert_eq!(rt; found.as_slice(), row.told.as_bytes());
    }
    Ok(())
}

#[test]
fn rules_of_the_adaptive_profile(rt: HostRuntime) -> Result<(), Fail> {
    let rows: [Row; 21] = [
        Row {
            body: "  call void @__quantum__qis__h__body(%Qubit* null)\n  ret i64 0\n",
            attributes: ADAPTIVE,
            flags: Flags::Four,
            check: Check::Adaptive,
            told: "OK\n",
        },
        // another profile is named
        Row {
            body: "  call void @__quantum__qis__h__body(%Qubit* null)\n  ret i64 0\n",
            attributes: BASE,
            flags: Flags::Four,
            check: Check::Adaptive,
            told: "FINDING\t1\t12\tA1\n",
        },
        // no labelling schema and no number of results
        Row {
            body: "  call void @__quantum__qis__h__body(%Qubit* null)\n  ret i64 0\n",
            attributes: BARE,
            flags: Flags::Three,
            check: Check::Adaptive,
            told: "FINDING\t1\t1\tA4\nFINDING\t1\t12\tA2\nFINDING\t1\t12\tA3\n",
        },
        // another body
        Row {
            body: "  call void @__quantum__qis__h__body(%Qubit* null)\n  ret i64 0\n}\ndefine void @turn() {\nb:\n  ret void\n",
            attributes: ADAPTIVE,
            flags: Flags::Four,
            check: Check::Adaptive,
            told: "FINDING\t6\t13\tA5\n",
        },
        Row {
            body: "  call void @__quantum__qis__h__body(%Qubit* null)\n  ret i64 0\n}\ndefine void @turn() {\nb:\n  ret void\n",
            attributes: ADAPTIVE,
            flags: Flags::And("ir_functions"),
            check: Check::Adaptive,
            told: "OK\n",
        },
        // a block that leads back to itself
        Row {
            body: "  br label %a\na:\n  br label %a\n",
            attributes: ADAPTIVE,
            flags: Flags::Four,
            check: Check::Adaptive,
            told: "FINDING\t5\t3\tA6\n",
        },
        Row {
            body: "  br label %a\na:\n  br label %a\n",
            attributes: ADAPTIVE,
            flags: Flags::And("backwards_branching"),
            check: Check::Adaptive,
            told: "OK\n",
        },
        // a switch
        Row {
            body: "  switch i64 0, label %a [ i64 0, label %a ]\na:\n  ret i64 0\n",
            attributes: ADAPTIVE,
            flags: Flags::Four,
            check: Check::Adaptive,
            told: "FINDING\t3\t3\tA7\n",
        },
        Row {
            body: "  switch i64 0, label %a [ i64 0, label %a ]\na:\n  ret i64 0\n",
            attributes: ADAPTIVE,
            flags: Flags::And("multiple_target_branching"),
            check: Check::Adaptive,
            told: "OK\n",
        },
        // a second return
        Row {
            body: "  br i1 true, label %a, label %b\na:\n  ret i64 0\nb:\n  ret i64 0\n",
            attributes: ADAPTIVE,
            flags: Flags::Four,
            check: Check::Adaptive,
            told: "FINDING\t7\t3\tA8\n",
        },
        Row {
            body: "  br i1 true, label %a, label %b\na:\n  ret i64 0\nb:\n  ret i64 0\n",
            attributes: ADAPTIVE,
            flags: Flags::And("multiple_return_points"),
            check: Check::Adaptive,
            told: "OK\n",
        },
        // integers of many bits, and of one
        Row {
            body: "  %x = add i64 1, 1\n  ret i64 0\n",
            attributes: ADAPTIVE,
            flags: Flags::Four,
            check: Check::Adaptive,
            told: "FINDING\t3\t3\tA9\n",
        },
        Row {
            body: "  %x = add i64 1, 1\n  ret i64 0\n",
            attributes: ADAPTIVE,
            flags: Flags::And("int_computations"),
            check: Check::Adaptive,
            told: "OK\n",
        },
        Row {
            body: "  %x = xor i1 true, false\n  ret i64 0\n",
            attributes: ADAPTIVE,
            flags: Flags::Four,
            check: Check::Adaptive,
            told: "OK\n",
        },
        // a qubit is chosen and passed
        Row {
            body: "  %a = call i1 @__quantum__rt__read_result(%Result* null)\n  %q = select i1 %a, %Qubit* null, %Qubit* inttoptr (i64 1 to %Qubit*)\n  call void @__quantum__qis__h__body(%Qubit* %q)\n  ret i64 0\n",
            attributes: ADAPTIVE,
            flags: Flags::Four,
            check: Check::Adaptive,
            told: "FINDING\t4\t3\tA10\nFINDING\t5\t3\tA13\n",
        },
        // a qubit is allocated
        Row {
            body: "  %q = call %Qubit* @__quantum__rt__qubit_allocate()\n  ret i64 0\n",
            attributes: ADAPTIVE,
            flags: Flags::Four,
            check: Check::Adaptive,
            told: "FINDING\t3\t3\tA11\n",
        },
        // an integer is recorded
        Row {
            body: "  call void @__quantum__rt__int_record_output(i64 1, i8* null)\n  ret i64 0\n",
            attributes: ADAPTIVE,
            flags: Flags::Four,
            check: Check::Adaptive,
            told: "FINDING\t3\t3\tA12\n",
        },
        Row {
            body: "  call void @__quantum__rt__int_record_output(i64 1, i8* null)\n  ret i64 0\n",
            attributes: ADAPTIVE,
            flags: Flags::And("int_computations"),
            check: Check::Adaptive,
            told: "OK\n",
        },
        // a count is computed
        Row {
            body: "  %n = add i64 1, 1\n  call void @__quantum__rt__tuple_record_output(i64 %n, i8* null)\n  ret i64 0\n",
            attributes: ADAPTIVE,
            flags: Flags::And("int_computations"),
            check: Check::Adaptive,
            told: "FINDING\t4\t3\tA14\n",
        },
        // the second instruction initialises
        Row {
            body: "  call void @__quantum__qis__h__body(%Qubit* null)\n  call void @__quantum__rt__initialize(i8* null)\n  ret i64 0\n",
            attributes: ADAPTIVE,
            flags: Flags::Four,
            check: Check::Adaptive,
            told: "FINDING\t4\t3\tA15\n",
        },
        // a function calls itself
        Row {
            body: "  call void @__quantum__qis__h__body(%Qubit* null)\n  ret i64 0\n}\ndefine void @turn() {\nb:\n  call void @turn()\n  ret void\n",
            attributes: ADAPTIVE,
            flags: Flags::And("ir_functions"),
            check: Check::Adaptive,
            told: "FINDING\t8\t3\tA16\n",
        },
    ];
    for row in rows {
        let text = text_of(rt.alloc(), &row)?;
        let found = told(rt.alloc(), text.as_slice(), row.check)?;
        assert_eq!(rt; found.as_slice(), row.told.as_bytes());
    }
    Ok(())
}
