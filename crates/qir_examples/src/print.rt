//! `print`, and what admission says of modules.
use crate::forms::{Lowered, Program};
use crate::given::{Outcome, answer, blanks, bytes};
use crate::texts::{BELL, HIGH_QUBIT, ONE_ALLOCATION, ONE_BLOCK, ONE_BLOCK_PRINTED, READ_BEFORE};
use ir_values::Bytes;
use qir_cli::Status;
use std::alloc::Global;
use std::test::Fail;

/// An operand of another width than its instruction.
const WIDTHS: Program<'static> = Program {
    qubits: 0,
    results: 0,
    body: b"  %x = add i64 1, 1\n  %y = and i1 %x, true\n  ret i64 0\n",
};

const BACK_TO_THE_ENTRY: Program<'static> = Program {
    qubits: 0,
    results: 0,
    body: b"  br label %entry\n",
};

const NO_ENTRY: &[u8] = b"REFUSED\ttype\t6\t1\t1\tNoEntry\n";

fn print(alloc: Global, text: &[u8]) -> Result<Outcome, Fail> {
    answer(alloc, "print", text)
}

#[test]
fn texts_are_printed_as_their_canonical_text(rt: HostRuntime) -> Result<(), Fail> {
    let text: &[u8] =
        b"declare dso_local void\n@f( i64 ) ; a comment\ndefine void @main( ) #0 { ret void }
attributes #0 = { \"entry_point\" }";
    let expected: &[u8] = b"%Qubit = type opaque
%Result = type opaque

declare void @f(i64)

define void @main() #0 {
0:
  ret void
}

attributes #0 = { \"entry_point\" }
";
    let done = print(rt.alloc(), text)?;
    assert_eq!(rt; done.status, Status::Done);
    assert_eq!(rt; done.written.as_slice(), expected);
    Ok(())
}

/// A canonical text is printed as it is.
#[test]
fn canonical_text_stays(rt: HostRuntime) -> Result<(), Fail> {
    let rows: [(&[u8], &[u8]); 3] = [
        (BELL, BELL),
        (ONE_BLOCK, ONE_BLOCK_PRINTED),
        (ONE_BLOCK_PRINTED, ONE_BLOCK_PRINTED),
    ];
    for (text, expected) in rows {
        let done = print(rt.alloc(), text)?;
        assert_eq!(rt; done.status, Status::Done);
        assert_eq!(rt; done.written.as_slice(), expected);
    }
    Ok(())
}

#[test]
fn texts_that_spell_no_module_are_refused(rt: HostRuntime) -> Result<(), Fail> {
    let alloc = rt.alloc();
    let rows: [(Bytes, &[u8]); 2] = [
        (
            blanks(alloc, 4_194_305)?,
            b"REFUSED\tinput\t1\t1\t1\tTooLong\n",
        ),
        (bytes(alloc, b"%Qubi")?, b"REFUSED\tread\t5\t1\t6\tSyntax\n"),
    ];
    for (text, line) in rows {
        let refused = print(alloc, text.as_slice())?;
        assert_eq!(rt; refused.status, Status::Refused);
        assert_eq!(rt; refused.written.as_slice(), line);
    }
    Ok(())
}

/// A name may be read where nothing has defined it yet.
#[test]
fn a_name_may_be_read_before_its_definition(rt: HostRuntime) -> Result<(), Fail> {
    let alloc = rt.alloc();
    let text = READ_BEFORE.text(alloc)?;
    let done = print(alloc, text.as_slice())?;
    assert_eq!(rt; done.status, Status::Done);
    Ok(())
}

/// The first rule that a module breaks is told, with its place.
#[test]
fn modules_that_break_a_rule_are_refused(rt: HostRuntime) -> Result<(), Fail> {
    let alloc = rt.alloc();
    let rows: [(Bytes, &[u8]); 5] = [
        (Bytes::new(alloc), NO_ENTRY),
        (blanks(alloc, 4_194_304)?, NO_ENTRY),
        (
            HIGH_QUBIT.text(alloc)?,
            b"REFUSED\ttype\t8\t3\t3\tIdRange\n",
        ),
        (WIDTHS.text(alloc)?, b"REFUSED\ttype\t1\t4\t3\tTypes\n"),
        (
            BACK_TO_THE_ENTRY.text(alloc)?,
            b"REFUSED\ttype\t3\t3\t3\tEntryBlock\n",
        ),
    ];
    for (text, line) in rows {
        let refused = print(alloc, text.as_slice())?;
        assert_eq!(rt; refused.status, Status::Refused);
        assert_eq!(rt; refused.written.as_slice(), line);
    }
    Ok(())
}

/// A lowered text may need more qubits than a module may require.
#[test]
fn the_greatest_required_number_is_not_passed(rt: HostRuntime) -> Result<(), Fail> {
    let alloc = rt.alloc();
    let program = Program {
        qubits: 1_000_000_000,
        results: 0,
        body: ONE_ALLOCATION,
    };
    let lowered = Lowered {
        blocks: b"  br label %body

body:
  call void @__quantum__qis__h__body(%Qubit* inttoptr (i64 1000000000 to %Qubit*))
  br label %measurements

measurements:
  br label %output

output:
  ret i64 0
",
        declares: &[b"declare void @__quantum__qis__h__body(%Qubit*)"],
        profile: "base",
        qubits: 1_000_000_001,
        results: 0,
        irreversible: false,
        capabilities: &[],
    };
    let expected = lowered.text(alloc)?;
    let text = program.text(alloc)?;
    let done = answer(alloc, "lower base 4", text.as_slice())?;
    assert_eq!(rt; done.status, Status::Done);
    assert_eq!(rt; done.written.as_slice(), expected.as_slice());
    let refused = print(alloc, expected.as_slice())?;
    assert_eq!(rt; refused.status, Status::Refused);
    assert_eq!(rt;
        refused.written.as_slice(),
        b"REFUSED\ttype\t7\t4\t12\tBadNumberAttr\n".as_slice()
    );
    Ok(())
}
