//! Short texts that LLVM's assembler, version 14, takes or refuses, and what the reader says of them. Whether LLVM takes a
//! text was found by running it; what the reader has to say comes from the rules of `docs/LANGUAGE.md`.
use ir_module::Place;
use ir_reader::{ReadStop, read};
use ir_values::Memory;
use std::alloc::Global;
use std::process::Abort;
use std::test::Fail;

/// A text, whether LLVM takes it, and the number of the code, the line and the column with which the reader refuses it, or
/// zeros where it reads.
type Row = (&'static str, bool, (u8, u32, u32));

fn told(rt: &impl Abort, alloc: Global, text: &[u8]) -> Result<(u8, u32, u32), Memory> {
    assert!(rt; text.len() < 1000);
    match read(alloc, text) {
        Ok(_) => Ok((0, 0, 0)),
        Err(
            ReadStop::Refused {
                code,
                place: Place { line, column },
            },
        ) => Ok((code.number(), line, column)),
        Err(ReadStop::Memory) => Err(Memory),
    }
}

#[test]
fn texts_that_llvm_takes_or_refuses(rt: HostRuntime) -> Result<(), Fail> {
    let rows: [Row; 46] = [
        ("", true, (0, 0, 0)),
        ("; nothing\n", true, (0, 0, 0)),
        ("source_filename = \"a.c\"\n", true, (0, 0, 0)),
        ("target triple = \"x86_64-pc-linux-gnu\"\n", true, (0, 0, 0)),
        (
            "%Qubit = type opaque\n%Qubit = type opaque\n",
            false,
            (0, 0, 0),
        ),
        ("declare void @f(i64)\n", true, (0, 0, 0)),
        (
            "declare void @f(i64)\ndeclare void @f(i64)\n",
            false,
            (6, 2, 14),
        ),
        ("declare void @f(i8* nocapture readonly)\n", true, (0, 0, 0)),
        ("declare void @f(i8* noalias)\n", true, (5, 1, 21)),
        ("declare void @f(i64, ...)\n", true, (8, 1, 22)),
        ("declare i7 @f()\n", true, (8, 1, 9)),
        ("declare ptr @f()\n", false, (8, 1, 9)),
        ("declare {i1} @f()\n", true, (8, 1, 9)),
        (
            "define internal void @f() {\n  ret void\n}\n",
            true,
            (0, 0, 0),
        ),
        ("define void @f() {\n}\n", false, (5, 2, 1)),
        (
            "define void @f() {\n  br label %a\na:\n  ret void\n}\n",
            true,
            (0, 0, 0),
        ),
        (
            "define void @f() {\n  ret void\n  ret void\n}\n",
            true,
            (5, 3, 3),
        ),
        ("define i64 @f() {\n  ret i64 00\n}\n", true, (0, 0, 0)),
        ("define i8 @f() {\n  ret i8 256\n}\n", true, (9, 2, 10)),
        ("define i8 @f() {\n  ret i8 -128\n}\n", true, (0, 0, 0)),
        ("define i1 @f() {\n  ret i1 2\n}\n", true, (9, 2, 10)),
        (
            "define i64 @f(i64 %a) {\n  %b = add i64 %a, 1\n  ret i64 %b\n}\n",
            true,
            (0, 0, 0),
        ),
        (
            "define i64 @f(i64 %a) {\n  %b = add nsw nuw i64 %a, 1\n  ret i64 %b\n}\n",
            true,
            (0, 0, 0),
        ),
        (
            "define i64 @f(i64 %a) {\n  %b = add nsw nsw i64 %a, 1\n  ret i64 %b\n}\n",
            false,
            (5, 2, 16),
        ),
        (
            "define i64 @f(i64 %a) {\n  %b = add exact i64 %a, 1\n  ret i64 %b\n}\n",
            false,
            (5, 2, 12),
        ),
        ("define i64 @f(i64) {\n  ret i64 %0\n}\n", true, (0, 0, 0)),
        (
            "define i64 @f(i64) {\n  %2 = add i64 %0, 1\n  ret i64 %2\n}\n",
            true,
            (0, 0, 0),
        ),
        (
            "define i64 @f(i64) {\n  %9 = add i64 %0, 1\n  ret i64 %9\n}\n",
            false,
            (0, 0, 0),
        ),
        (
            "define i64 @f(i64 %a) {\n  ret i64 %b\n}\n",
            false,
            (7, 2, 11),
        ),
        (
            "define i64 @f(i64 %a) {\n  %a = add i64 1, 1\n  ret i64 %a\n}\n",
            false,
            (6, 2, 3),
        ),
        (
            "define i64 @f(i64 %\"a\") {\n  ret i64 %a\n}\n",
            true,
            (0, 0, 0),
        ),
        (
            "define double @f() {\n  ret double 0.1\n}\n",
            true,
            (0, 0, 0),
        ),
        (
            "define double @f() {\n  ret double 1e3\n}\n",
            false,
            (5, 2, 14),
        ),
        (
            "@0 = internal constant [3 x i8] c\"r0\\00\"\n",
            true,
            (0, 0, 0),
        ),
        (
            "@0 = internal constant [4 x i8] c\"r0\\00\"\n",
            false,
            (10, 1, 33),
        ),
        ("@0 = global i8 0\n", true, (8, 1, 6)),
        (
            "!0 = !{i32 1, !\"a\", i32 1}\n!llvm.module.flags = !{!0}\n",
            true,
            (0, 0, 0),
        ),
        (
            "!0 = !{i32 1, !\"a\"}\n!llvm.module.flags = !{!0}\n",
            false,
            (11, 1, 1),
        ),
        ("!llvm.module.flags = !{!0}\n", false, (7, 1, 24)),
        (
            "attributes #0 = { \"a\"=\"b\" nounwind }\n",
            true,
            (0, 0, 0),
        ),
        (
            "attributes #0 = { \"a\" }\nattributes #0 = { \"a\" }\n",
            true,
            (6, 2, 12),
        ),
        (
            "define i64 @f() {\n  %a = call i64 @f() #3\n  ret i64 %a\n}\n",
            true,
            (7, 2, 22),
        ),
        ("define void @f() {\n  unreachable\n}\n", true, (8, 2, 3)),
        ("declare void @f(i8*\n", false, (5, 2, 1)),
        ("$", false, (1, 1, 1)),
        ("source_filename = \"a", false, (2, 1, 19)),
    ];
    for (text, _, expected) in rows {
        assert_eq!(rt; told(&rt, rt.alloc(), text.as_bytes())?, expected, "{text}");
    }
    Ok(())
}
