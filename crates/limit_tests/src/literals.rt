//! Integers by their widths, widths, and lengths of byte strings.
use crate::rows::{PRINTED, Row, check};
use crate::texts::Text;
use qir_cli::Status;
use std::test::Fail;

/// The least and the greatest of each width, one less and one more.
#[test]
fn integers_have_their_widths(rt: HostRuntime) -> Result<(), Fail> {
    let rows: [Row; 15] = [
        (
            Text::Body("  %x = add i1 -1, 1\n"),
            "print",
            Status::Done,
            PRINTED,
        ),
        (
            Text::Body("  %x = add i1 -2, 1\n"),
            "print",
            Status::Refused,
            "REFUSED\tread\t9\t3\t15\tLiteralRange\n",
        ),
        (
            Text::Body("  %x = add i1 2, 1\n"),
            "print",
            Status::Refused,
            "REFUSED\tread\t9\t3\t15\tLiteralRange\n",
        ),
        (
            Text::Body("  %x = add i8 -128, 255\n"),
            "print",
            Status::Done,
            PRINTED,
        ),
        (
            Text::Body("  %x = add i8 -129, 255\n"),
            "print",
            Status::Refused,
            "REFUSED\tread\t9\t3\t15\tLiteralRange\n",
        ),
        (
            Text::Body("  %x = add i8 256, 255\n"),
            "print",
            Status::Refused,
            "REFUSED\tread\t9\t3\t15\tLiteralRange\n",
        ),
        (
            Text::Body("  %x = add i16 -32768, 65535\n"),
            "print",
            Status::Done,
            PRINTED,
        ),
        (
            Text::Body("  %x = add i16 -32769, 65535\n"),
            "print",
            Status::Refused,
            "REFUSED\tread\t9\t3\t16\tLiteralRange\n",
        ),
        (
            Text::Body("  %x = add i16 65536, 65535\n"),
            "print",
            Status::Refused,
            "REFUSED\tread\t9\t3\t16\tLiteralRange\n",
        ),
        (
            Text::Body("  %x = add i32 -2147483648, 4294967295\n"),
            "print",
            Status::Done,
            PRINTED,
        ),
        (
            Text::Body("  %x = add i32 -2147483649, 4294967295\n"),
            "print",
            Status::Refused,
            "REFUSED\tread\t9\t3\t16\tLiteralRange\n",
        ),
        (
            Text::Body("  %x = add i32 4294967296, 4294967295\n"),
            "print",
            Status::Refused,
            "REFUSED\tread\t9\t3\t16\tLiteralRange\n",
        ),
        (
            Text::Body("  %x = add i64 -9223372036854775808, 18446744073709551615\n"),
            "print",
            Status::Done,
            PRINTED,
        ),
        (
            Text::Body("  %x = add i64 -9223372036854775809, 0\n"),
            "print",
            Status::Refused,
            "REFUSED\tread\t9\t3\t16\tLiteralRange\n",
        ),
        (
            Text::Body("  %x = add i64 18446744073709551616, 0\n"),
            "print",
            Status::Refused,
            "REFUSED\tread\t9\t3\t16\tLiteralRange\n",
        ),
    ];
    check(&rt, rt.alloc(), rows.as_slice())
}

/// Integers of metadata have 1 to 128 bits, and no integer has a magnitude of 2^128.
#[test]
fn metadata_has_wider_integers(rt: HostRuntime) -> Result<(), Fail> {
    let rows: [Row; 8] = [
        (
            Text::Item("!0 = !{i1 -1, i1 1}\n"),
            "print",
            Status::Done,
            PRINTED,
        ),
        (
            Text::Item("!0 = !{i0 0}\n"),
            "print",
            Status::Refused,
            "REFUSED\tread\t8\t1\t8\tLeftOut\n",
        ),
        (
            Text::Item("!0 = !{i129 0}\n"),
            "print",
            Status::Refused,
            "REFUSED\tread\t8\t1\t8\tLeftOut\n",
        ),
        (
            Text::Item("!0 = !{i128 340282366920938463463374607431768211455}\n"),
            "print",
            Status::Done,
            PRINTED,
        ),
        (
            Text::Item("!0 = !{i128 340282366920938463463374607431768211456}\n"),
            "print",
            Status::Refused,
            "REFUSED\tread\t4\t1\t13\tNumberTooWide\n",
        ),
        (
            Text::Item("!0 = !{i128 -170141183460469231731687303715884105728}\n"),
            "print",
            Status::Done,
            PRINTED,
        ),
        (
            Text::Item("!0 = !{i128 -170141183460469231731687303715884105729}\n"),
            "print",
            Status::Refused,
            "REFUSED\tread\t9\t1\t13\tLiteralRange\n",
        ),
        (
            Text::Body("  %x = add i64 340282366920938463463374607431768211456, 0\n"),
            "print",
            Status::Refused,
            "REFUSED\tread\t4\t3\t16\tNumberTooWide\n",
        ),
    ];
    check(&rt, rt.alloc(), rows.as_slice())
}

#[test]
fn byte_strings_have_their_lengths(rt: HostRuntime) -> Result<(), Fail> {
    let rows: [Row; 4] = [
        (
            Text::Item("@a = constant [2 x i8] c\"ab\"\n"),
            "print",
            Status::Done,
            PRINTED,
        ),
        (
            Text::Item("@a = constant [1 x i8] c\"ab\"\n"),
            "print",
            Status::Refused,
            "REFUSED\tread\t10\t1\t24\tStringLength\n",
        ),
        (
            Text::Item("@a = constant [3 x i8] c\"ab\"\n"),
            "print",
            Status::Refused,
            "REFUSED\tread\t10\t1\t24\tStringLength\n",
        ),
        (
            Text::Item("@a = constant [340282366920938463463374607431768211455 x i8] c\"ab\"\n"),
            "print",
            Status::Refused,
            "REFUSED\tread\t10\t1\t62\tStringLength\n",
        ),
    ];
    check(&rt, rt.alloc(), rows.as_slice())
}
