//! Branches, switches and phis, and names without a value.
use crate::given::{ALL, BARE, INTS, READ, SWITCH, text_of, told};
use kept_items::Target;
use std::test::Fail;

#[test]
fn known_values_take_one_edge(rt: HostRuntime) -> Result<(), Fail> {
    let rows: [(&'static str, &'static str); 5] = [
        (
            "  br i1 true, label %a, label %b\na:\n  ret i64 1\nb:\n  ret i64 2\n",
            "passes, exits 1",
        ),
        (
            "  br i1 false, label %a, label %b\na:\n  ret i64 1\nb:\n  ret i64 2\n",
            "passes, exits 2",
        ),
        (
            "  switch i64 2, label %a [ i64 1, label %a i64 2, label %b ]\na:\n  ret i64 1\nb:\n  ret i64 2\n",
            "passes, exits 2",
        ),
        (
            "  switch i64 3, label %a [ i64 1, label %b i64 2, label %b ]\na:\n  ret i64 1\nb:\n  ret i64 2\n",
            "passes, exits 1",
        ),
        (
            "  br label %a\na:\n  %x = phi i64 [ 7, %entry ]\n  ret i64 %x\n",
            "passes 7, exits 7",
        ),
    ];
    for (body, expected) in rows {
        let text = text_of(rt.alloc(), "", body)?;
        let found = told(rt.alloc(), text.as_slice(), Target::Base)?;
        assert_eq!(rt; found.as_slice(), expected.as_bytes(), "{body}");
    }
    Ok(())
}

/// The edge of one comes first, and the edges of a switch in the order of its cases, that of no case last.
#[test]
fn dynamic_values_take_each_edge(rt: HostRuntime) -> Result<(), Fail> {
    let rows: [(&'static str, Target, &'static str); 7] = [
        (
            "  br i1 %d, label %a, label %b\na:\n  %x = phi i64 [ 7, %entry ]\n  ret i64 %x\nb:\n  %y = phi i64 [ 8, %entry ]\n  ret i64 %y\n",
            BARE,
            "read ?, 2 ways 7, capability",
        ),
        (
            "  br label %a\na:\n  %x = phi i1 [ %d, %entry ]\n  call void @__quantum__rt__bool_record_output(i1 %x, i8* null)\n  ret i64 0\n",
            BARE,
            "read ?, passes ?, record, exits 0",
        ),
        (
            "  switch i1 %d, label %a [ i1 true, label %b ]\na:\n  %x = phi i64 [ 7, %entry ]\n  ret i64 %x\nb:\n  %y = phi i64 [ 8, %entry ]\n  ret i64 %y\n",
            SWITCH,
            "read ?, 2 ways 8, capability",
        ),
        (
            "  switch i1 %d, label %a [ i1 true, label %a ]\na:\n  ret i64 0\n",
            INTS,
            "read ?, capability",
        ),
        (
            "  %x = zext i1 %d to i8\n  switch i8 %x, label %a [ i8 1, label %a i8 2, label %a ]\na:\n  ret i64 0\n",
            INTS,
            "read ?, convert ?, capability",
        ),
        (
            "  %x = zext i1 %d to i8\n  switch i8 %x, label %a [ i8 1, label %a i8 2, label %a ]\na:\n  ret i64 0\n",
            ALL,
            "read ?, convert ?, 3 ways, exits 0",
        ),
        (
            "  switch i1 %d, label %a [ ]\na:\n  ret i64 0\n",
            SWITCH,
            "read ?, passes, exits 0",
        ),
    ];
    for (body, target, expected) in rows {
        let text = text_of(rt.alloc(), READ, body)?;
        let found = told(rt.alloc(), text.as_slice(), target)?;
        assert_eq!(rt; found.as_slice(), expected.as_bytes(), "{body}");
    }
    Ok(())
}

/// `%x` has no value behind the edge from the entry: that comes before all else, and a phi of it has no value either.
#[test]
fn names_without_a_value(rt: HostRuntime) -> Result<(), Fail> {
    let rows: [(&'static str, &'static str); 4] = [
        (
            "  br i1 true, label %a, label %b\nb:\n  %x = add i64 1, 1\n  br label %a\na:\n  %y = add i64 %x, 1\n  ret i64 0\n",
            "passes, unbound",
        ),
        (
            "  br i1 true, label %a, label %b\nb:\n  %x = add i64 1, 1\n  br label %a\na:\n  call void @__quantum__rt__int_record_output(i64 %x, i8* null)\n  ret i64 0\n",
            "passes, unbound",
        ),
        (
            "  br i1 true, label %a, label %b\nb:\n  %x = add i64 1, 1\n  br label %a\na:\n  %y = phi i64 [ %x, %entry ], [ 0, %b ]\n  ret i64 %y\n",
            "passes, unbound",
        ),
        (
            "  br i1 true, label %a, label %b\nb:\n  %x = add i64 1, 1\n  br label %a\na:\n  %y = phi i64 [ %x, %entry ], [ 0, %b ]\n  ret i64 0\n",
            "passes, exits 0",
        ),
    ];
    for (body, expected) in rows {
        let text = text_of(rt.alloc(), "", body)?;
        let found = told(rt.alloc(), text.as_slice(), Target::Base)?;
        assert_eq!(rt; found.as_slice(), expected.as_bytes(), "{body}");
    }
    Ok(())
}
