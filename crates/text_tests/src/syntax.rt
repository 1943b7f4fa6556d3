//! Syntax trees of texts, and the code and byte of their first faults.
ghost use Rattle.std.specs.Prelude.{◌<◌, ◌-◌, ◌^◌, length};

use ir_syntax::{SyntaxCode, SyntaxFault, SyntaxStop, read_syntax};
use std::alloc::Global;
use std::process::Abort;
use std::test::Fail;

/// How many items the text has, or what reading it stops at.
fn items_of(alloc: Global, text: &[u8]) -> Result<usize, SyntaxStop>
    requires { length text.now < 2 ^ 32 - 1 }
{
    Ok(read_syntax(alloc, text)?.len())
}

#[test]
fn each_sort_of_item_is_read(rt: HostRuntime) {
    let text = b"; a comment\n\
        source_filename = \"a.ll\"\n\
        target triple = \"\"\n\
        %Qubit = type opaque\n\
        @0 = private unnamed_addr constant [2 x i8] c\"a\\00\", align 1\n\
        declare dso_local void @h(%Qubit* nocapture, void (i64)*) local_unnamed_addr #1\n\
        define i64 @main(i1 %c, i64) #0 {\n\
        entry:\n\
          call void @h(%Qubit* null, void (i64)* %f) #1\n\
          br i1 %c, label %\"end\", label %end\n\
        end:\n\
          %n = phi i64 [ -1, %entry ]\n\
          ret i64 %n\n\
        }\n\
        attributes #0 = { \"entry_point\" \"required_num_qubits\"=\"1\" nounwind i64 }\n\
        !llvm.module.flags = !{!0, !1}\n\
        !0 = !{i32 1, !\"qir_major_version\", i32 1}\n\
        !1 = !{i32 5, !\"widths\", !{i1 true, i128 -1, !\"\"}, !0, null}\n";
    assert_eq!(rt; items_of(rt.alloc(), text), Ok(10));
    assert_eq!(rt; items_of(rt.alloc(), b""), Ok(0));
}

#[test]
fn each_fault_has_its_code_and_its_byte(rt: HostRuntime) {
    let rows: [(&[u8], SyntaxCode, u32); 24] = [
        (b"declare void @f() ?", SyntaxCode::BadByte, 18),
        (
            b"@0 = internal constant [3 x i8] c\"r1\\0",
            SyntaxCode::OpenString,
            32,
        ),
        (
            b"@0 = internal constant [3 x i8] c\"r1\\0\"",
            SyntaxCode::BadEscape,
            36,
        ),
        (
            b"!0 = !{i64 340282366920938463463374607431768211456}",
            SyntaxCode::NumberTooWide,
            11,
        ),
        (b"declare void @f() \"ab", SyntaxCode::OpenString, 18),
        (b"declare void @f(", SyntaxCode::Syntax, 16),
        (b"declare void @f()\n0", SyntaxCode::Syntax, 18),
        (b"declare void @f() {", SyntaxCode::Syntax, 18),
        (b"declare i08 @f()", SyntaxCode::Syntax, 8),
        (
            b"define void @f() { ret void ret void }",
            SyntaxCode::Syntax,
            28,
        ),
        (
            b"define void @f() { %x = add i1 0, 0 %y = phi",
            SyntaxCode::Syntax,
            41,
        ),
        (b"define void @f() { %x = select <", SyntaxCode::Syntax, 31),
        (
            b"define void @f() { call void @g(i8* getelementptr inbounds ([3 x i8], [4",
            SyntaxCode::Syntax,
            71,
        ),
        (b"declare { i8 } @f()", SyntaxCode::LeftOut, 8),
        (b"declare void @f(%T*)", SyntaxCode::LeftOut, 16),
        (b"declare i7 @f()", SyntaxCode::LeftOut, 8),
        (b"declare ptr @f()", SyntaxCode::LeftOut, 8),
        (b"declare void @f(...)", SyntaxCode::LeftOut, 16),
        (
            b"define void @f() { %p = alloca i8",
            SyntaxCode::LeftOut,
            24,
        ),
        (b"!0 = !{i0 1}", SyntaxCode::LeftOut, 7),
        (
            b"define i64 @f() { %x = add i8 256, 0",
            SyntaxCode::LiteralRange,
            30,
        ),
        (b"!0 = !{i2 -3}", SyntaxCode::LiteralRange, 10),
        (
            b"attributes #4294967296 = { }",
            SyntaxCode::LiteralRange,
            11,
        ),
        (
            b"@0 = constant [2 x i8] c\"a\" ?",
            SyntaxCode::StringLength,
            23,
        ),
    ];
    for (text, code, place) in rows {
        assert!(rt; text.len() < 100);
        let fault = SyntaxFault { code, place };
        assert_eq!(rt; items_of(rt.alloc(), text), Err(SyntaxStop::Refused(fault)));
    }
}
