//! Flags that no program stands beside.
use ir_printer::print;
use ir_reader::read;
use std::test::Fail;

const FLAGS: &[u8] = b"!llvm.module.flags = !{!7}
!7 = !{i32 5, !\"int_computations\", !{!\"i64\"}}
";

const PRINTED: &[u8] = b"%Qubit = type opaque
%Result = type opaque

!llvm.module.flags = !{!0}

!0 = !{i32 5, !\"int_computations\", !1}
!1 = !{!\"i64\"}
";

/// A node within a node gets a number of its own, behind those that are listed.
#[test]
fn nodes_are_numbered_in_the_order_of_their_use(rt: HostRuntime) -> Result<(), Fail> {
    let alloc = rt.alloc();
    let Ok(parsed) = read(alloc, FLAGS) else {
        return Err(Fail::from("the text spells a module"));
    };
    let printed = print(alloc, &parsed.module)?;
    assert_eq!(rt; printed.as_slice(), PRINTED);
    Ok(())
}
