//! Records: which of them the targets have.
use crate::given::{ALL, BARE, INTS, READ, text_of, told};
use kept_items::Target;
use std::test::Fail;

#[test]
fn records_of_the_base_profile(rt: HostRuntime) -> Result<(), Fail> {
    let rows: [(&'static str, &'static str); 8] = [
        (
            "  call void @__quantum__rt__tuple_record_output(i64 2, i8* null)\n  ret i64 0\n",
            "record, exits 0",
        ),
        (
            "  call void @__quantum__rt__array_record_output(i64 2, i8* null)\n  ret i64 0\n",
            "record, exits 0",
        ),
        (
            "  call void @__quantum__rt__result_record_output(%Result* null, i8* null)\n  ret i64 0\n",
            "record, exits 0",
        ),
        (
            "  %r = call %Result* @__quantum__rt__result_get_one()\n  call void @__quantum__rt__result_record_output(%Result* %r, i8* null)\n  ret i64 0\n",
            "passes one, forbidden",
        ),
        (
            "  %r = call %Result* @__quantum__rt__result_get_zero()\n  call void @__quantum__rt__result_record_output(%Result* %r, i8* null)\n  ret i64 0\n",
            "passes zero, forbidden",
        ),
        (
            "  call void @__quantum__rt__bool_record_output(i1 true, i8* null)\n  ret i64 0\n",
            "forbidden",
        ),
        (
            "  call void @__quantum__rt__double_record_output(double 1.0, i8* null)\n  ret i64 0\n",
            "forbidden",
        ),
        (
            "  call void @__quantum__rt__int_record_output(i64 5, i8* null)\n  ret i64 0\n",
            "forbidden",
        ),
    ];
    for (body, expected) in rows {
        let text = text_of(rt.alloc(), "", body)?;
        let found = told(rt.alloc(), text.as_slice(), Target::Base)?;
        assert_eq!(rt; found.as_slice(), expected.as_bytes(), "{body}");
    }
    Ok(())
}

#[test]
fn records_of_the_adaptive_profile(rt: HostRuntime) -> Result<(), Fail> {
    let rows: [(&'static str, Target, &'static str); 7] = [
        (
            "  call void @__quantum__rt__bool_record_output(i1 true, i8* null)\n  ret i64 0\n",
            BARE,
            "read, record, exits 0",
        ),
        (
            "  call void @__quantum__rt__double_record_output(double 1.0, i8* null)\n  ret i64 0\n",
            BARE,
            "read, record, exits 0",
        ),
        (
            "  call void @__quantum__rt__int_record_output(i64 5, i8* null)\n  ret i64 0\n",
            BARE,
            "read, capability",
        ),
        (
            "  call void @__quantum__rt__int_record_output(i64 5, i8* null)\n  ret i64 0\n",
            INTS,
            "read, record, exits 0",
        ),
        (
            "  %r = call %Result* @__quantum__rt__result_get_one()\n  call void @__quantum__rt__result_record_output(%Result* %r, i8* null)\n  ret i64 0\n",
            ALL,
            "read, passes one, forbidden",
        ),
        (
            "  %x = zext i1 %d to i64\n  call void @__quantum__rt__tuple_record_output(i64 %x, i8* null)\n  ret i64 0\n",
            ALL,
            "read ?, convert ?, forbidden",
        ),
        (
            "  %x = zext i1 %d to i64\n  call void @__quantum__rt__array_record_output(i64 %x, i8* null)\n  ret i64 0\n",
            ALL,
            "read ?, convert ?, forbidden",
        ),
    ];
    for (body, target, expected) in rows {
        let text = text_of(rt.alloc(), READ, body)?;
        let found = told(rt.alloc(), text.as_slice(), target)?;
        assert_eq!(rt; found.as_slice(), expected.as_bytes(), "{body}");
    }
    Ok(())
}
