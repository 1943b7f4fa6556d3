//! Copies of records.
use ir_values::{Bytes, Copies, GlobalId, Token};
use output_records::{Record, Records, Shown};
use std::alloc::Global;
use std::test::Fail;

fn double(alloc: Global) -> Result<Shown, Fail> {
    let mut bytes = Bytes::new(alloc);
    bytes.extend_from_slice(b"0.5")?;
    Ok(Shown::Double(Token::new(bytes).ok_or("a double")?))
}

#[test]
fn copies_equal_their_sources(rt: HostRuntime) -> Result<(), Fail> {
    let alloc = rt.alloc();
    let mut records = Records::new(alloc);
    for label in [None, Some(GlobalId(3))] {
        for shown in [
            Shown::Tuple(2),
            Shown::Array(3),
            Shown::Res(true),
            Shown::Bool(true),
            Shown::Int(-7),
            double(alloc)?,
        ] {
            records.push(Record { shown, label })?;
        }
    }
    assert_eq!(rt; records.copy(alloc)?, records);
    Ok(())
}
