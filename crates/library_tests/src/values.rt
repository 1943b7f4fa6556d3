//! Values: doubles, signatures, integers, lists, names and the classes of functions.
use ir_values::{
    BinOp, Bytes, Cause, Class, Conv, Copies, Exact, Flags, GlobalId, Int, Name, Pred, Room, Seq,
    Sig, Token, Ty, TyWord, Tys, Value, Width, binary, call_class, compare, convert, parse_decimal,
    push_decimal, push_signed,
};
use std::alloc::Global;
use std::test::Fail;

#[test]
fn doubles_are_spelled_so(rt: HostRuntime) -> Result<(), Fail> {
    let cases: [(&[u8], bool); 14] = [
        (b"1.", true),
        (b"-0.25", true),
        (b"+1.5e-10", true),
        (b"2.E3", true),
        (b"0x0123456789abcDEF", true),
        (b"", false),
        (b"1", false),
        (b".5", false),
        (b"1.5e", false),
        (b"1.5e+", false),
        (b"1.5.", false),
        (b"0x0123456789abcde", false),
        (b"0x0123456789abcdef0", false),
        (b"-0x0123456789abcdef", false),
    ];
    for (text, expected) in cases {
        match Token::new(Bytes::from_slice(rt.alloc(), text)?) {
            Some(token) => {
                assert!(rt; expected);
                assert_eq!(rt; token.as_slice(), text);
                assert!(rt; token.same(&token.copy(rt.alloc())?));
            }
            None => assert!(rt; !expected),
        }
    }
    Ok(())
}

#[test]
fn a_signature_is_its_words(rt: HostRuntime) -> Result<(), Fail> {
    let alloc = rt.alloc();
    let inner = Sig::new(alloc, &Ty::Void, &Tys::new(alloc))?;
    let mut params = Tys::new(alloc);
    params.push(Ty::Func(inner))?;
    params.push(Ty::Qubit)?;
    let sig = Sig::new(alloc, &Ty::Int(Width::W1), &params)?;
    let expected = [
        TyWord::Func(2),
        TyWord::Int(Width::W1),
        TyWord::Func(0),
        TyWord::Void,
        TyWord::Qubit,
    ];
    assert_eq!(rt; sig.words().as_slice(), expected.as_slice());
    assert!(rt; sig.same(&sig.copy(alloc)?));
    Ok(())
}

#[test]
fn integers_keep_their_width(rt: HostRuntime) {
    let cases = [
        (Width::W1, 1, Some(-1)),
        (Width::W1, 2, None),
        (Width::W8, 127, Some(127)),
        (Width::W8, 128, Some(-128)),
        (Width::W8, 256, None),
        (Width::W32, 0xffff_ffff, Some(-1)),
        (Width::W64, 0x8000_0000_0000_0000, Some(i64::MIN)),
    ];
    for (width, bits, expected) in cases {
        assert_eq!(rt; Int::new(width, bits).map(|i| i.signed()), expected);
    }
}

#[test]
fn lists_and_rooms_hold_their_items(rt: HostRuntime) -> Result<(), Fail> {
    let alloc = rt.alloc();
    let mut room = Room::new(alloc);
    room.reserve(2)?;
    room.push(Width::W8)?;
    room.push(Width::W16)?;
    assert_eq!(rt; room.as_slice(), [Width::W8, Width::W16].as_slice());
    let mut list = room.into_seq();
    list.set(0, Width::W64);
    list.append(list.copy(alloc)?)?;
    assert_eq!(rt; list.len(), 4);
    assert_eq!(rt; list.pop(), Some(Width::W16));
    assert!(rt; !list.is_empty());
    assert_eq!(rt; *list.at(2), Width::W64);
    assert_eq!(rt; Seq::from_vec(list.into_vec()).as_slice().len(), 3);
    Ok(())
}

#[test]
fn equal_values_are_one(rt: HostRuntime) -> Result<(), Fail> {
    let alloc = rt.alloc();
    let name = Name::Text(Bytes::from_slice(alloc, b"q")?);
    assert!(rt; name.same(&name.copy(alloc)?));
    assert!(rt; !name.same(&Name::Number(1)));
    assert!(rt; !Value::Id(3).same(&Value::Alloc(3)));
    assert!(rt; Value::Label(GlobalId(2)).same(&Value::Label(GlobalId(2))));
    Ok(())
}

#[test]
fn decimals_are_read_and_written(rt: HostRuntime) -> Result<(), Fail> {
    let cases: [(&[u8], Option<u64>); 9] = [
        (b"0", Some(0)),
        (b"10", Some(10)),
        (b"18446744073709551615", Some(u64::MAX)),
        (b"18446744073709551616", None),
        (b"", None),
        (b"01", None),
        (b"+1", None),
        (b"-1", None),
        (b"1 ", None),
    ];
    for (text, expected) in cases {
        assert_eq!(rt; parse_decimal(text), expected);
    }
    let mut text = Bytes::new(rt.alloc());
    push_decimal(
        &mut text,
        340_282_366_920_938_463_463_374_607_431_768_211_455,
    )?;
    push_signed(&mut text, -9_223_372_036_854_775_808)?;
    let expected = b"340282366920938463463374607431768211455-9223372036854775808";
    assert_eq!(rt; text.as_slice(), expected.as_slice());
    Ok(())
}

#[test]
fn a_name_has_the_text_that_it_was_given(rt: HostRuntime) -> Result<(), Fail> {
    let name = Name::Text(Bytes::from_slice(rt.alloc(), b"main")?);
    assert_eq!(rt; name.text(), b"main".as_slice());
    assert_eq!(rt; Name::Number(7).text(), b"".as_slice());
    Ok(())
}

/// What a signed division and a comparison give of two values of width 8, and what the first is when
/// it is extended by its sign.
fn computed(a: u64, b: u64) -> Option<(Result<u64, Cause>, bool, u64)> {
    let a = Int::new(Width::W8, a)?;
    let b = Int::new(Width::W8, b)?;
    let flags = Flags {
        nuw: false,
        nsw: false,
        exact: false,
    };
    let quotient = binary(BinOp::SDiv, flags, a, b).map(|i| i.bits());
    let wide = convert(Conv::SExt, a, Width::W16).bits();
    Some((quotient, compare(Pred::Slt, a, b), wide))
}

#[test]
fn integers_are_computed_with(rt: HostRuntime) {
    assert_eq!(rt; computed(0xf9, 4), Some((Ok(0xff), true, 0xfff9)));
    assert_eq!(rt; computed(7, 0), Some((Err(Cause::DivZero), false, 7)));
}

#[test]
fn a_gate_has_its_class(rt: HostRuntime) -> Result<(), Fail> {
    let alloc = rt.alloc();
    let mut params = Tys::new(alloc);
    params.push(Ty::Qubit)?;
    let sig = Sig::new(alloc, &Ty::Void, &params)?;
    let name = Bytes::from_slice(alloc, b"__quantum__qis__h__body")?;
    assert_eq!(rt; call_class(&name, &sig), Some(Class::Gate));
    Ok(())
}
