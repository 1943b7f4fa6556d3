//! The tokens of whole texts, and what they spell.
ghost use Rattle.std.specs.Prelude.{◌<◌, ◌^◌, length};

use ir_text::{LexCode, LexError};
use ir_tokens::{Kind, Lines, Position, Token, name_at, scan, spelling, string_at};
use ir_values::{Bytes, Name};
use std::alloc::Global;
use std::process::Abort;
use std::test::Fail;

/// The text has these tokens, by kind, place and number, and this fault.
fn reads(
    rt: &impl Abort,
    alloc: Global,
    text: &[u8],
    tokens: &[(Kind, u32, u128)],
    fault: Option<LexError>,
) -> Result<(), Fail>
    requires { length text.now < 2 ^ 32 }
{
    let scanned = scan(alloc, text)?;
    assert_eq!(rt; scanned.tokens.len(), tokens.len());
    for (token, (kind, place, number)) in scanned.tokens.iter().zip(tokens) {
        assert_eq!(rt; token.kind.number(), kind.number());
        assert_eq!(rt; token.place, *place);
        assert_eq!(rt; token.number.value(), *number);
    }
    assert_eq!(rt; scanned.fault, fault);
    Ok(())
}

#[test]
fn words_and_widths(rt: HostRuntime) -> Result<(), Fail> {
    let tokens = [
        (Kind::Ret, 0, 0),
        (Kind::I8, 4, 8),
        (Kind::SameWidth, 7, 8),
        (Kind::OddWidth, 11, 7),
        (Kind::LeftOutWord, 14, 0),
        (Kind::Ptr, 17, 0),
        (Kind::LeftOutWord, 21, 0),
        (Kind::OtherWord, 26, 0),
        (Kind::End, 30, 0),
    ];
    reads(
        &rt,
        rt.alloc(),
        b"ret i8 i08 i7 i0 ptr load frob",
        &tokens,
        None,
    )
}

#[test]
fn names(rt: HostRuntime) -> Result<(), Fail> {
    let tokens = [
        (Kind::QubitName, 0, 0),
        (Kind::QubitName, 7, 0),
        (Kind::Local, 18, 0),
        (Kind::Global, 23, 5),
        (Kind::Label, 26, 4),
        (Kind::Group, 29, 7),
        (Kind::Node, 32, 8),
        (Kind::Bang, 35, 0),
        (Kind::End, 36, 0),
    ];
    reads(
        &rt,
        rt.alloc(),
        b"%Qubit %\"Qubi\\74\" %\"5\" @5 4: #7 !8 !",
        &tokens,
        None,
    )
}

#[test]
fn literals_and_a_fault(rt: HostRuntime) -> Result<(), Fail> {
    let tokens = [
        (Kind::Minus, 0, 7),
        (Kind::Nat, 3, 18_446_744_073_709_551_617),
        (Kind::ByteStr, 24, 2),
        (Kind::Str, 32, 0),
        (Kind::DoubleLiteral, 35, 0),
        (Kind::Bad, 39, 0),
    ];
    let fault = LexError {
        code: LexCode::OpenString,
        at: 39,
    };
    reads(
        &rt,
        rt.alloc(),
        b"-7 18446744073709551617 c\"a\\0A\" \"\" 1.5 \"ab",
        &tokens,
        Some(fault),
    )
}

#[test]
fn names_and_strings_by_their_tokens(rt: HostRuntime) -> Result<(), Fail> {
    let text = b"%\"a\\5C\" 5: @\"5\" c\"a\\00\"";
    let scanned = scan(rt.alloc(), text)?;
    let [local, label, global, string, _] = scanned.tokens.as_slice() else {
        return Ok(assert!(rt; false));
    };
    assert_eq!(rt; spelling(text, label.place), b"5:".as_slice());
    assert_eq!(rt;
        name_at(rt.alloc(), text, *local)?,
        Name::Text(Bytes::from_slice(rt.alloc(), b"a\\")?)
    );
    assert_eq!(rt; name_at(rt.alloc(), text, *label)?, Name::Number(5));
    assert_eq!(rt;
        name_at(rt.alloc(), text, *global)?,
        Name::Text(Bytes::from_slice(rt.alloc(), b"5")?)
    );
    assert_eq!(rt;
        string_at(rt.alloc(), text, *string)?.as_slice(),
        b"a\0".as_slice()
    );
    Ok(())
}

#[test]
fn lines_and_columns(rt: HostRuntime) {
    let mut lines = Lines::new(b"a\n\nbc");
    for (place, line, column) in [
        (0, 1, 1),
        (1, 1, 2),
        (2, 2, 1),
        (4, 3, 2),
        (9, 3, 3),
        (1, 1, 2),
    ] {
        assert_eq!(rt; lines.position(place), Position { line, column });
    }
}

#[test]
fn a_token_has_24_bytes(rt: HostRuntime) {
    assert_eq!(rt; std::mem::size_of::<Token>(), 24);
}
