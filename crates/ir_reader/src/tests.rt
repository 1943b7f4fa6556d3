use super::*;
use ir_module::Place;
use ir_values::{Bytes, Memory};
use std::alloc::Global;
use std::process::Abort;
use std::test::Fail;

/// A text, and the number of the code, the line and the column with which it is refused.
type Row = (&'static str, u8, u32, u32);

/// What the reader answers on a text: the number of the code, the line and the column, or zeros where it reads.
fn told(rt: &impl Abort, alloc: Global, text: &[u8]) -> Result<(u8, u32, u32), Memory> {
    assert!(rt; text.len() < 100_000);
    match read(alloc, text) {
        Ok(_) => Ok((0, 0, 0)),
        Err(
            ReadStop::Refused {
                code,
                place: Place { line, column },
            },
        ) => Ok((code.number(), line, column)),
        Err(ReadStop::Memory) => Err(Memory),
    }
}

fn all_are_told(rt: &impl Abort, alloc: Global, rows: &[Row]) -> Result<(), Fail> {
    for (text, code, line, column) in rows {
        let told = told(rt, alloc, text.as_bytes())?;
        assert_eq!(rt; told, (*code, *line, *column), "{text}");
    }
    Ok(())
}

#[test]
fn each_fault_of_the_syntax_has_its_place(rt: HostRuntime) -> Result<(), Fail> {
    let rows: [Row; 17] = [
        ("", 0, 0, 0),
        ("@a = ?", 1, 1, 6),
        // an open string is told at the first byte of its token, a bad escape at its backslash
        ("@0 = internal constant [3 x i8] c\"r1\\0", 2, 1, 33),
        ("@0 = internal constant [3 x i8] c\"r1\\0\"", 3, 1, 37),
        // a magnitude of 2^128, and one less
        (
            "define i64 @main() #0 {\nentry:\n  %x = add i64 340282366920938463463374607431768211456, 0\n",
            4,
            3,
            16,
        ),
        (
            "define i64 @main() #0 {\nentry:\n  %x = add i64 340282366920938463463374607431768211455, 0\n",
            9,
            3,
            16,
        ),
        // the end is a token at the place behind the last byte
        ("%Qubi", 5, 1, 6),
        ("@a = constant [1 x i8] c\"a\", align\n", 5, 2, 1),
        // a comment ends at a line feed, and a carriage return ends no line
        ("; a\r @\n\r\tdefine", 5, 2, 9),
        ("define void @f() {\n  %a = alloca i8\n}\n", 8, 2, 8),
        ("declare <2 x i8> @f()\n", 8, 1, 9),
        ("declare void @f(i8*, ...)\n", 8, 1, 22),
        (
            "define i64 @main() #0 {\nentry:\n  %x = add i8 256, 0\n  ret i64 0\n}\n",
            9,
            3,
            15,
        ),
        ("declare void @4294967296()\n", 9, 1, 14),
        ("@a = constant [2 x i8] c\"abc\"\n", 10, 1, 24),
        // a fault of the tokens behind the first fault isn't told
        ("declare @f(i8) ?\n", 5, 1, 9),
        // names are looked at only where the whole text has a tree
        ("declare void @f()\ndeclare void @f()\ndeclare", 5, 3, 8),
    ];
    all_are_told(&rt, rt.alloc(), rows.as_slice())
}

#[test]
fn each_fault_of_the_names_has_its_place(rt: HostRuntime) -> Result<(), Fail> {
    let rows: [Row; 13] = [
        // a second definition, of a function, a value, a parameter without a name, a label, a block without one
        ("declare void @f()\ndeclare void @f()\n", 6, 2, 14),
        (
            "define void @f(i1 %a) {\n  %a = icmp eq i1 %a, %a\n  ret void\n}\n",
            6,
            2,
            3,
        ),
        ("define void @f(i1 %0, i1) {\n  ret void\n}\n", 6, 1, 23),
        (
            "define void @f() {\na:\n  ret void\na:\n  ret void\n}\n",
            6,
            4,
            1,
        ),
        ("define void @f(i1 %0) {\n  ret void\n}\n", 6, 2, 3),
        // uses without a definition, of a label, a group and a node
        ("define void @f() {\n  br label %a\n}\n", 7, 2, 12),
        ("declare void @f() #0\n", 7, 1, 19),
        ("!a = !{!0}\n", 7, 1, 8),
        // the first in text order is told
        (
            "define void @f() {\n  br label %a\n}\ndeclare void @f()\n",
            7,
            2,
            12,
        ),
        ("declare void @f()\ndeclare void @f() #0\n", 6, 2, 14),
        // another length than the constant's, told at the word
        (
            "@a = constant [1 x i8] c\"a\"\ndefine i8* @f() {\n  ret i8* getelementptr inbounds ([2 x i8], [2 x i8]* @a, i32 0, i32 0)\n}\n",
            10,
            3,
            11,
        ),
        // a flag of another shape, told where the node is defined
        ("!llvm.module.flags = !{!0}\n!0 = !{i32 1}\n", 11, 2, 1),
        ("!0 = !{i32 1}\n", 0, 0, 0),
    ];
    all_are_told(&rt, rt.alloc(), rows.as_slice())
}

/// A declaration whose parameter nests so many function pointer types.
fn nested(alloc: Global, depth: usize) -> Result<Bytes, Memory> {
    let mut text = Bytes::new(alloc);
    text.extend_from_slice(b"declare void @f(")?;
    for _ in 0..depth {
        text.extend_from_slice(b"void (")?;
    }
    for _ in 0..depth {
        text.extend_from_slice(b")*")?;
    }
    text.extend_from_slice(b")\n")?;
    Ok(text)
}

/// The 65th parenthesis of such types is the one too many.
#[test]
fn sixty_four_function_types_nest(rt: HostRuntime) -> Result<(), Fail> {
    for (depth, expected) in [(64, (0, 0, 0)), (65, (12, 1, 406))] {
        let text = nested(rt.alloc(), depth)?;
        assert_eq!(rt;
            told(&rt, rt.alloc(), text.as_slice())?,
            expected,
            "{depth}"
        );
    }
    Ok(())
}

/// The codes in the order of their numbers.
#[test]
fn codes_have_their_numbers_and_names(rt: HostRuntime) {
    let rows: [(ReadCode, &[u8]); 12] = [
        (ReadCode::BadByte, b"BadByte"),
        (ReadCode::OpenString, b"OpenString"),
        (ReadCode::BadEscape, b"BadEscape"),
        (ReadCode::NumberTooWide, b"NumberTooWide"),
        (ReadCode::Syntax, b"Syntax"),
        (ReadCode::Duplicate, b"Duplicate"),
        (ReadCode::Unknown, b"Unknown"),
        (ReadCode::LeftOut, b"LeftOut"),
        (ReadCode::LiteralRange, b"LiteralRange"),
        (ReadCode::StringLength, b"StringLength"),
        (ReadCode::BadFlag, b"BadFlag"),
        (ReadCode::TooDeep, b"TooDeep"),
    ];
    for (i, (code, name)) in rows.iter().enumerate() {
        assert_eq!(rt; code.number() as usize, i + 1);
        assert_eq!(rt; code.name(), *name);
    }
}

/// What stands before the first function of a text.
const CONSTANTS: &[u8] = b"%Qubit = type opaque
%Result = type opaque

@0 = internal constant [3 x i8] c\"r0\\00\"
@1 = internal constant [3 x i8] c\"r1\\00\"

";

/// Its functions and groups, without the last line feed.
const FUNCTIONS: &[u8] = b"define i64 @main() #0 {
entry:
  call void @__quantum__rt__initialize(i8* null)
  br label %body

body:
  call void @__quantum__qis__h__body(%Qubit* null)
  call void @__quantum__qis__cnot__body(%Qubit* null, %Qubit* inttoptr (i64 1 to %Qubit*))
  br label %measurements

measurements:
  call void @__quantum__qis__mz__body(%Qubit* null, %Result* null)
  call void @__quantum__qis__mz__body(%Qubit* inttoptr (i64 1 to %Qubit*), %Result* inttoptr (i64 1 to %Result*))
  br label %output

output:
  call void @__quantum__rt__tuple_record_output(i64 2, i8* null)
  call void @__quantum__rt__result_record_output(%Result* null, i8* getelementptr inbounds ([3 x i8], [3 x i8]* @0, i32 0, i32 0))
  call void @__quantum__rt__result_record_output(%Result* inttoptr (i64 1 to %Result*), i8* getelementptr inbounds ([3 x i8], [3 x i8]* @1, i32 0, i32 0))
  ret i64 0
}

declare void @__quantum__rt__initialize(i8*)

declare void @__quantum__qis__h__body(%Qubit*)

declare void @__quantum__qis__cnot__body(%Qubit*, %Qubit*)

declare void @__quantum__qis__mz__body(%Qubit*, %Result*) #1

declare void @__quantum__rt__tuple_record_output(i64, i8*)

declare void @__quantum__rt__result_record_output(%Result*, i8*)

attributes #0 = { \"entry_point\" \"qir_profiles\"=\"base_profile\" \"output_labeling_schema\"=\"labeled\" \"required_num_qubits\"=\"2\" \"required_num_results\"=\"2\" }
attributes #1 = { \"irreversible\" }";

/// Its flags.
const FLAGS: &[u8] = b"

!llvm.module.flags = !{!0, !1, !2, !3}

!0 = !{i32 1, !\"qir_major_version\", i32 1}
!1 = !{i32 7, !\"qir_minor_version\", i32 0}
!2 = !{i32 1, !\"dynamic_qubit_management\", i1 false}
!3 = !{i32 1, !\"dynamic_result_management\", i1 false}
";

/// Of the beginnings of a text that reach into its functions five read: up to the last group, to the two line feeds
/// behind it, and with all flags, with and without the last line feed.
#[test]
fn beginnings_that_use_nothing_undefined_read(rt: HostRuntime) -> Result<(), Fail> {
    let mut text = Bytes::new(rt.alloc());
    for part in [CONSTANTS, FUNCTIONS, FLAGS] {
        text.extend_from_slice(part)?;
    }
    let whole = text.len();
    let groups = CONSTANTS.len() + FUNCTIONS.len();
    for end in CONSTANTS.len() + 1..whole + 1 {
        let reads = told(&rt, rt.alloc(), text.as_slice().split_at(end).0)? == (0, 0, 0);
        let defined = (groups..groups + 3).contains(&end) || end + 1 == whole || end == whole;
        assert_eq!(rt; reads, defined, "{end}");
    }
    Ok(())
}
