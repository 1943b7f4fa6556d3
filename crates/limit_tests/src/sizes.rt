//! Lengths of texts, budgets, steps, and nested types.
use crate::rows::{LOWERED, PRINTED, Row, check};
use crate::texts::Text;
use qir_cli::Status;
use std::test::Fail;

#[test]
fn texts_have_at_most_4_194_304_bytes(rt: HostRuntime) -> Result<(), Fail> {
    let rows: [Row; 4] = [
        (Text::Long(4_194_304), "print", Status::Done, PRINTED),
        (
            Text::Long(4_194_305),
            "print",
            Status::Refused,
            "REFUSED\tinput\t1\t1\t1\tTooLong\n",
        ),
        (
            Text::Long(4_194_304),
            "trace bits 1",
            Status::Done,
            "END\t0\n",
        ),
        (
            Text::Long(4_194_305),
            "trace bits 1",
            Status::Refused,
            "REFUSED\tinput\t1\t1\t1\tTooLong\n",
        ),
    ];
    check(&rt, rt.alloc(), rows.as_slice())
}

/// 333,332 rounds are 999,996 instructions, and four stand round them. A recursion without an end is cut.
#[test]
fn shots_have_at_most_1_000_000_steps(rt: HostRuntime) -> Result<(), Fail> {
    let rows: [Row; 9] = [
        (Text::Body(""), "trace bits 0", Status::BadWords, ""),
        (Text::Body(""), "trace bits 1", Status::Done, "END\t0\n"),
        (
            Text::Body("  %x = add i64 1, 1\n"),
            "trace bits 1",
            Status::Stopped,
            "STOP\tCut\n",
        ),
        (
            Text::Rounds(333_332),
            "trace bits 999999",
            Status::Stopped,
            "STOP\tCut\n",
        ),
        (
            Text::Rounds(333_332),
            "trace bits 1000000",
            Status::Done,
            "END\t0\n",
        ),
        (
            Text::LaterRounds(333_332),
            "trace bits 1000000",
            Status::Stopped,
            "STOP\tCut\n",
        ),
        (Text::Body(""), "trace bits 1000001", Status::BadWords, ""),
        (
            Text::Recursion,
            "trace script 1000 -",
            Status::Stopped,
            "STOP\tCut\n",
        ),
        (
            Text::Recursion,
            "run script ordered 1000001 -",
            Status::BadWords,
            "",
        ),
    ];
    check(&rt, rt.alloc(), rows.as_slice())
}

/// A return is one configuration, as each instruction before it; three rounds are nine, and four stand round them.
#[test]
fn budgets_are_1_to_1_000_000_configurations(rt: HostRuntime) -> Result<(), Fail> {
    let rows: [Row; 10] = [
        (Text::Body(""), "lower base 0", Status::BadWords, ""),
        (Text::Body(""), "lower base 1", Status::Done, LOWERED),
        (
            Text::Body("  %x = add i64 1, 1\n"),
            "lower base 1",
            Status::Refused,
            "REFUSED\tlower\tU4\t4\t3\tBudget\n",
        ),
        (
            Text::Body("  %x = add i64 1, 1\n"),
            "lower base 2",
            Status::Done,
            LOWERED,
        ),
        (
            Text::Rounds(3),
            "lower adaptive 12 -",
            Status::Refused,
            "REFUSED\tlower\tU4\t12\t3\tBudget\n",
        ),
        (
            Text::Rounds(3),
            "lower adaptive 13 -",
            Status::Done,
            LOWERED,
        ),
        (
            Text::Rounds(3),
            "lower adaptive 1000000 -",
            Status::Done,
            LOWERED,
        ),
        (
            Text::Rounds(3),
            "lower adaptive 1000001 -",
            Status::BadWords,
            "",
        ),
        (Text::Body(""), "lower base 1000001", Status::BadWords, ""),
        (
            Text::Recursion,
            "lower base 1000",
            Status::Refused,
            "REFUSED\tlower\tU4\t8\t3\tBudget\n",
        ),
    ];
    check(&rt, rt.alloc(), rows.as_slice())
}

#[test]
fn sixty_four_function_pointer_types_nest(rt: HostRuntime) -> Result<(), Fail> {
    let rows: [Row; 2] = [
        (Text::Nested(64), "print", Status::Done, PRINTED),
        (
            Text::Nested(65),
            "print",
            Status::Refused,
            "REFUSED\tread\t12\t1\t406\tTooDeep\n",
        ),
    ];
    check(&rt, rt.alloc(), rows.as_slice())
}
