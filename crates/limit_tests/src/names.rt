//! Numbers of names, groups and nodes.
use crate::rows::{PRINTED, Row, check};
use crate::texts::Text;
use qir_cli::Status;
use std::test::Fail;

/// Of a function, a constant, a group, a node, a local and a label.
#[test]
fn numbers_of_names_are_at_most_4_294_967_295(rt: HostRuntime) -> Result<(), Fail> {
    let rows: [Row; 12] = [
        (
            Text::Item("declare void @4294967295()\n"),
            "print",
            Status::Done,
            PRINTED,
        ),
        (
            Text::Item("declare void @4294967296()\n"),
            "print",
            Status::Refused,
            "REFUSED\tread\t9\t1\t14\tLiteralRange\n",
        ),
        (
            Text::Item("@4294967295 = constant [0 x i8] c\"\"\n"),
            "print",
            Status::Done,
            PRINTED,
        ),
        (
            Text::Item("@4294967296 = constant [0 x i8] c\"\"\n"),
            "print",
            Status::Refused,
            "REFUSED\tread\t9\t1\t1\tLiteralRange\n",
        ),
        (
            Text::Item("attributes #4294967295 = { }\n"),
            "print",
            Status::Done,
            PRINTED,
        ),
        (
            Text::Item("attributes #4294967296 = { }\n"),
            "print",
            Status::Refused,
            "REFUSED\tread\t9\t1\t12\tLiteralRange\n",
        ),
        (
            Text::Item("!4294967295 = !{}\n"),
            "print",
            Status::Done,
            PRINTED,
        ),
        (
            Text::Item("!4294967296 = !{}\n"),
            "print",
            Status::Refused,
            "REFUSED\tread\t9\t1\t1\tLiteralRange\n",
        ),
        (
            Text::Body("  %4294967295 = add i64 1, 1\n"),
            "print",
            Status::Done,
            PRINTED,
        ),
        (
            Text::Body("  %4294967296 = add i64 1, 1\n"),
            "print",
            Status::Refused,
            "REFUSED\tread\t9\t3\t3\tLiteralRange\n",
        ),
        (
            Text::Body("  br label %4294967295\n4294967295:\n"),
            "print",
            Status::Done,
            PRINTED,
        ),
        (
            Text::Body("  br label %a\n4294967296:\n"),
            "print",
            Status::Refused,
            "REFUSED\tread\t9\t4\t1\tLiteralRange\n",
        ),
    ];
    check(&rt, rt.alloc(), rows.as_slice())
}
