//! A backend whose qubits are classical bits. Operations are words, answers are letters.
ghost use Rattle.std.specs.Prelude.{◌≡◌, count_by};
ghost use Rattle.backend_api.specs.Operations.{is_result};

use backend_api::{Answer, Arg, Args, Backend, Op, QubitRef, ResultRef, Stop, Turned};
use bit_backend::Bits;
use ir_values::{Bytes, Copies, Int, Memory, Token, Width};
use std::alloc::Global;
use std::process::Abort;
use std::test::Fail;

fn bytes_of(alloc: Global, text: &[u8]) -> Result<Bytes, Memory> {
    let mut bytes = Bytes::new(alloc);
    bytes.extend_from_slice(text)?;
    Ok(bytes)
}

/// The argument that a letter stands for: `a` for the qubit `Alloc(0)`, `r` for the result 0, `d` for a
/// double, `i` for an integer, and a digit for the qubit of that fixed number.
fn arg_of(alloc: Global, letter: u8) -> Result<Arg, Fail> {
    Ok(match letter {
        b'a' => Arg::Qubit(QubitRef::Alloc(0)),
        b'r' => Arg::Res(ResultRef::Id(0)),
        b'd' => Arg::Double(Token::new(bytes_of(alloc, b"0.5")?).ok_or("a double")?),
        b'i' => Arg::Int(Int::new(Width::W64, 0).ok_or("an integer")?),
        _ => Arg::Qubit(QubitRef::Id(u64::from(letter.wrapping_sub(b'0')))),
    })
}

fn args_of(alloc: Global, letters: &[u8]) -> Result<Args, Fail> {
    let mut args = Args::new(alloc);
    for letter in letters {
        args.push(arg_of(alloc, *letter)?)?;
    }
    Ok(args)
}

/// The whole name of an instruction. A name with `__` stands as it is.
fn name_of(alloc: Global, name: &str) -> Result<Bytes, Memory> {
    if name.contains("__") {
        return bytes_of(alloc, name.as_bytes());
    }
    let mut whole = bytes_of(alloc, b"__quantum__qis__")?;
    whole.extend_from_slice(name.as_bytes())?;
    whole.extend_from_slice(b"__body")?;
    Ok(whole)
}

/// The operation of a word: its name, a colon and a letter for each argument, as `mz:0r`.
fn op_of(alloc: Global, word: &str) -> Result<Op, Fail> {
    let (name, letters) = word.split_once(':').ok_or("a colon")?;
    Ok(Op {
        name: name_of(alloc, name)?,
        args: args_of(alloc, letters.as_bytes())?,
    })
}

fn count_results(args: &[Arg]) -> usize
    ensures { result ≡ count_by is_result args.now }
{
    let mut count = 0;
    for arg in args {
        if let Arg::Res(_) = arg {
            count += 1;
        }
    }
    count
}

/// What a backend answers to a gate or a measurement.
fn answer_of<B: Backend>(backend: &mut B, op: Op) -> Result<Result<Answer, Turned>, Fail> {
    match count_results(op.args.as_slice()) {
        0 => Ok(backend.gate(op).map(|()| Answer::Done)),
        1 => Ok(backend.measure(op).map(Answer::Bit)),
        _ => Err(Fail::from("an operation has at most one result")),
    }
}

/// What bits answer to the operation of a word: `.` that a gate is done, `0` or `1` to a measurement, and
/// `-` that the operation is not supported. Then it came back whole, and is no event.
fn letter_of(rt: &impl Abort, alloc: Global, bits: &mut Bits, word: &str) -> Result<char, Fail> {
    let events = bits.events().len();
    match answer_of(bits, op_of(alloc, word)?)? {
        Ok(Answer::Done) => Ok('.'),
        Ok(Answer::Bit(bit)) => Ok(if bit { '1' } else { '0' }),
        Err(turned) => {
            assert_eq!(rt; turned.why, Stop::Unsupported, "{word}");
            assert!(rt;
                turned.op == op_of(alloc, word)?,
                "{word} came back as another operation"
            );
            assert_eq!(rt; bits.events().len(), events, "{word}");
            Ok('-')
        }
    }
}

/// Expects these answers, a letter for each word.
fn check(
    rt: &impl Abort,
    alloc: Global,
    bits: &mut Bits,
    words: &str,
    answers: &str,
) -> Result<(), Fail> {
    let mut answers = answers.chars();
    for word in words.split(' ') {
        let letter = letter_of(rt, alloc, bits, word)?;
        assert_eq!(rt; Some(letter), answers.next(), "{word} of {words}");
    }
    assert_eq!(rt; answers.next(), None, "more answers than words: {words}");
    Ok(())
}

/// Qubits 0, 1 and 2 whose bits are the digits of a binary number, that of qubit 0 last.
fn bits_of(rt: &impl Abort, alloc: Global, number: u8) -> Result<Bits, Fail> {
    let mut bits = Bits::new(alloc);
    for (digit, word) in [(1, "x:0"), (2, "x:1"), (4, "x:2")] {
        if number & digit != 0 {
            check(rt, alloc, &mut bits, word, ".")?;
        }
    }
    Ok(bits)
}

/// The bits of the qubits 0, 1 and 2 as a number.
fn number_of(rt: &impl Abort, alloc: Global, bits: &mut Bits) -> Result<u8, Fail> {
    let mut number = 0;
    for word in ["mz:2r", "mz:1r", "mz:0r"] {
        let bit = letter_of(rt, alloc, bits, word)? == '1';
        number = number << 1 | u8::from(bit);
    }
    Ok(number)
}

/// Expects that the operation of a word answers these letters to bits of the numbers 0 to 7, and makes
/// them the bits of these numbers.
fn check_numbers(
    rt: &impl Abort,
    alloc: Global,
    word: &str,
    answers: &str,
    behind: [u8; 8],
) -> Result<(), Fail> {
    let mut answers = answers.chars();
    for (before, behind) in (0u8..).zip(behind) {
        let mut bits = bits_of(rt, alloc, before)?;
        let letter = letter_of(rt, alloc, &mut bits, word)?;
        assert_eq!(rt; Some(letter), answers.next(), "{word} after {before}");
        assert_eq!(rt;
            number_of(rt, alloc, &mut bits)?,
            behind,
            "{word} after {before}"
        );
    }
    Ok(())
}

#[test]
fn operations_change_and_answer_bits(rt: HostRuntime) -> Result<(), Fail> {
    let alloc = rt.alloc();

    // The operation, its answers to the bits of 0 to 7, and the numbers of the bits behind it.
    let rows = [
        ("x:0", "........", [1, 0, 3, 2, 5, 4, 7, 6]),
        ("reset:0", "........", [0, 0, 2, 2, 4, 4, 6, 6]),
        ("swap:01", "........", [0, 2, 1, 3, 4, 6, 5, 7]),
        ("swap:02", "........", [0, 4, 2, 6, 1, 5, 3, 7]),
        ("cnot:01", "........", [0, 3, 2, 1, 4, 7, 6, 5]),
        ("cnot:10", "........", [0, 1, 3, 2, 4, 5, 7, 6]),
        ("cx:01", "........", [0, 3, 2, 1, 4, 7, 6, 5]),
        ("ccx:012", "........", [0, 1, 2, 7, 4, 5, 6, 3]),
        ("mz:0r", "01010101", [0, 1, 2, 3, 4, 5, 6, 7]),
        ("m:1r", "00110011", [0, 1, 2, 3, 4, 5, 6, 7]),
        ("mresetz:0r", "01010101", [0, 0, 2, 2, 4, 4, 6, 6]),
        ("h:0", "--------", [0, 1, 2, 3, 4, 5, 6, 7]),
    ];
    for (word, answers, behind) in rows {
        check_numbers(&rt, alloc, word, answers, behind)?;
    }
    Ok(())
}

#[test]
fn bits_follow_the_history(rt: HostRuntime) -> Result<(), Fail> {
    let alloc = rt.alloc();
    let rows = [
        ("mz:0r", "0"),
        ("x:0 mz:0r m:0r mresetz:0r mz:0r", ".1110"),
        ("x:0 x:0 mz:0r x:0 reset:0 mz:0r", "..0..0"),
        ("x:0 h:0 mz:0r", ".-1"),
        ("x:0 cnot:00 swap:00 mz:0r", ".--1"),
        // A fixed qubit is not an allocated one of the same number.
        ("x:a mz:ar mz:0r swap:0a mz:0r mz:ar", ".10.10"),
        ("x:0 swap:01 cx:12 ccx:120 mz:0r mz:1r mz:2r", "....111"),
    ];
    for (words, answers) in rows {
        check(&rt, alloc, &mut Bits::new(alloc), words, answers)?;
    }
    Ok(())
}

#[test]
fn other_operations_come_back(rt: HostRuntime) -> Result<(), Fail> {
    let alloc = rt.alloc();
    let rows = [
        // Names: with qubits of known gates, and with a qubit and a result.
        (
            "h:0 xx:0 x__adj:0 x__body:0 __quantum__qis__x:0 __quantum__qis____body:0",
            "------",
        ),
        (
            "__quantum__rt__x__body:0 __quantum__qis__x__body__adj:0 __:0",
            "---",
        ),
        ("mx:0r h:0r x:0r reset:0r cnot:01r mz__leak:0r", "------"),
        // Arguments: too few or too many, of other types, and one qubit twice.
        (
            "x: x:01 x:d x:0d reset:0i swap:0 swap:012 cnot:0d ccx:01 ccx:0123",
            "----------",
        ),
        (
            "mz:0 mresetz:0 mz:r mz:r0 mz:01r mz:0r1 m:dr mresetz:0rd",
            "--------",
        ),
        ("swap:00 cnot:11 cx:aa ccx:001 ccx:010 ccx:011", "------"),
    ];
    for (words, answers) in rows {
        let mut bits = bits_of(&rt, alloc, 5)?;
        check(&rt, alloc, &mut bits, words, answers)?;
        assert_eq!(rt; number_of(&rt, alloc, &mut bits)?, 5);
    }
    Ok(())
}

#[test]
fn events_are_the_answered_operations(rt: HostRuntime) -> Result<(), Fail> {
    let alloc = rt.alloc();
    let mut bits = Bits::new(alloc);
    assert!(rt; bits.events().is_empty());
    check(
        &rt,
        alloc,
        &mut bits,
        "x:0 h:0 mz:0r mz:0 mresetz:1r",
        ".-1-0",
    )?;
    let answered = [
        ("x:0", Answer::Done),
        ("mz:0r", Answer::Bit(true)),
        ("mresetz:1r", Answer::Bit(false)),
    ];
    assert_eq!(rt; bits.events().len(), answered.len());
    for (event, (word, answer)) in bits.events().iter().zip(answered) {
        assert!(rt; event.op == op_of(alloc, word)?, "{word}");
        assert_eq!(rt; event.answer, answer, "{word}");
    }
    Ok(())
}
