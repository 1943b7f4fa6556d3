//! What `lower` refuses: the first instruction in path order that isn't decided or permitted.
use crate::forms::Program;
use crate::given::{answer, blanks};
use crate::texts::{
    CHOICES_ON_TWO_WAYS, CHOSEN_DOUBLE, CHOSEN_GATE, CHOSEN_QUBIT, CODE_THREE, COUNTED_TURNS,
    DEFINED_ON_ONE_WAY, ENDLESS_LOOP, ENDLESS_RECURSION, HIGH_QUBIT, LATE_GATE, OVERFLOW,
    QUBIT_OF_THE_WAY, READ_BEFORE, SUM_OF_A_RESULT, SWITCH_ON_A_RESULT, TWO_ALLOCATIONS,
    UNTIL_ZERO, USE_AFTER_RELEASE,
};
use qir_cli::Status;
use std::test::Fail;

/// The programs, the words, and the line that is written.
#[test]
fn the_first_instruction_in_path_order_is_told(rt: HostRuntime) -> Result<(), Fail> {
    let alloc = rt.alloc();
    let rows: [(Program<'_>, &str, &[u8]); 23] = [
        (
            TWO_ALLOCATIONS,
            "lower base 6",
            b"REFUSED\tlower\tU4\t9\t3\tBudget\n",
        ),
        (
            QUBIT_OF_THE_WAY,
            "lower adaptive 7 -",
            b"REFUSED\tlower\tU4\t12\t3\tBudget\n",
        ),
        (
            CHOSEN_QUBIT,
            "lower adaptive 10 -",
            b"REFUSED\tlower\tU1\t5\t3\tHandle\n",
        ),
        (
            CHOICES_ON_TWO_WAYS,
            "lower adaptive 10 -",
            b"REFUSED\tlower\tU1\t10\t3\tHandle\n",
        ),
        (
            UNTIL_ZERO,
            "lower adaptive 100 -",
            b"REFUSED\tlower\tU3\t8\t3\tLoop\n",
        ),
        (
            UNTIL_ZERO,
            "lower adaptive 5 -",
            b"REFUSED\tlower\tU3\t8\t3\tLoop\n",
        ),
        (
            UNTIL_ZERO,
            "lower adaptive 4 -",
            b"REFUSED\tlower\tU4\t8\t3\tBudget\n",
        ),
        (
            UNTIL_ZERO,
            "lower adaptive 5 loops",
            b"REFUSED\tlower\tU4\t10\t3\tBudget\n",
        ),
        (
            ENDLESS_LOOP,
            "lower base 2",
            b"REFUSED\tlower\tU3\t5\t3\tLoop\n",
        ),
        (
            ENDLESS_LOOP,
            "lower base 1",
            b"REFUSED\tlower\tU4\t5\t3\tBudget\n",
        ),
        (
            ENDLESS_LOOP,
            "lower adaptive 2 -",
            b"REFUSED\tlower\tU3\t5\t3\tLoop\n",
        ),
        (
            UNTIL_ZERO,
            "lower base 100",
            b"REFUSED\tlower\tF1\t7\t3\tForbidden\n",
        ),
        (
            LATE_GATE,
            "lower base 10",
            b"REFUSED\tlower\tF2\t4\t3\tPhase\n",
        ),
        (
            SUM_OF_A_RESULT,
            "lower adaptive 5 -",
            b"REFUSED\tlower\tF3\t5\t3\tCapability\n",
        ),
        (
            SWITCH_ON_A_RESULT,
            "lower adaptive 6 ints",
            b"REFUSED\tlower\tF3\t6\t3\tCapability\n",
        ),
        (
            CODE_THREE,
            "lower adaptive 2 -",
            b"REFUSED\tlower\tF3\t4\t3\tCapability\n",
        ),
        (
            OVERFLOW,
            "lower base 10",
            b"REFUSED\tlower\tF4\t3\t3\tPoison\n",
        ),
        (
            USE_AFTER_RELEASE,
            "lower base 10",
            b"REFUSED\tlower\tF4\t5\t3\tReleased\n",
        ),
        (
            READ_BEFORE,
            "lower base 10",
            b"REFUSED\tlower\tF4\t3\t3\tUnbound\n",
        ),
        (
            DEFINED_ON_ONE_WAY,
            "lower adaptive 20 -",
            b"REFUSED\tlower\tF4\t10\t3\tUnbound\n",
        ),
        (
            CHOSEN_GATE,
            "lower adaptive 9 ints,switch,returns,loops",
            b"REFUSED\tlower\tU2\t5\t3\tTarget\n",
        ),
        (
            CHOSEN_DOUBLE,
            "lower adaptive 9 ints",
            b"REFUSED\tlower\tU5\t5\t3\tToken\n",
        ),
        (
            HIGH_QUBIT,
            "lower base 7",
            b"REFUSED\ttype\t8\t3\t3\tIdRange\n",
        ),
    ];
    for (program, line, expected) in rows {
        let text = program.text(alloc)?;
        let told = answer(alloc, line, text.as_slice())?;
        assert_eq!(rt; told.status, Status::Refused);
        assert_eq!(rt; told.written.as_slice(), expected);
    }
    Ok(())
}

/// The texts, the words, and the line that is written.
#[test]
fn whole_texts_are_refused(rt: HostRuntime) -> Result<(), Fail> {
    let rows: [(&[u8], &str, &[u8]); 5] = [
        (
            COUNTED_TURNS,
            "lower base 19",
            b"REFUSED\tlower\tU4\t11\t3\tBudget\n",
        ),
        (
            ENDLESS_RECURSION,
            "lower base 1000",
            b"REFUSED\tlower\tU4\t8\t3\tBudget\n",
        ),
        (b"", "lower base 7", b"REFUSED\ttype\t6\t1\t1\tNoEntry\n"),
        (
            b"%Qubi",
            "lower base 7",
            b"REFUSED\tread\t5\t1\t6\tSyntax\n",
        ),
        (
            b"declare void @f()\ndeclare void @f()\n",
            "lower adaptive 7 -",
            b"REFUSED\tread\t6\t2\t14\tDuplicate\n",
        ),
    ];
    for (text, line, expected) in rows {
        let told = answer(rt.alloc(), line, text)?;
        assert_eq!(rt; told.status, Status::Refused);
        assert_eq!(rt; told.written.as_slice(), expected);
    }
    Ok(())
}

/// One more byte than an input has.
#[test]
fn a_long_text_is_refused(rt: HostRuntime) -> Result<(), Fail> {
    let alloc = rt.alloc();
    let long = blanks(alloc, 4_194_305)?;
    let told = answer(alloc, "lower base 7", long.as_slice())?;
    assert_eq!(rt; told.status, Status::Refused);
    assert_eq!(rt;
        told.written.as_slice(),
        b"REFUSED\tinput\t1\t1\t1\tTooLong\n".as_slice()
    );
    Ok(())
}
