//! Texts at an edge: each spells a module with an entry, but for what it is about.
use ir_values::{Bytes, Memory, push_decimal};
use qir_examples::given::bytes;
use std::alloc::Global;

/// What a text is about.
#[derive(Clone, Copy)]
pub enum Text {
    /// An entry that returns, with so many bytes in all.
    Long(usize),
    /// An item before the entry, in the first line.
    Item(&'static str),
    /// Instructions of the entry, from the third line on.
    Body(&'static str),
    /// Instructions of the entry, and its attributes besides `"entry_point"`.
    Needs(&'static str, &'static str),
    /// A declaration in the first line whose parameter nests so many function pointer types.
    Nested(usize),
    /// A loop of so many rounds, each of three instructions, between two instructions before it and two behind it.
    Rounds(u32),
    /// The same with one instruction more before it.
    LaterRounds(u32),
    /// A function that calls itself without an end.
    Recursion,
}

impl Text {
    pub fn bytes(&self, alloc: Global) -> Result<Bytes, Memory> {
        match self {
            Text::Long(length) => long(alloc, *length),
            Text::Item(item) => module(alloc, item, "", ""),
            Text::Body(body) => module(alloc, "", body, ""),
            Text::Needs(body, attributes) => module(alloc, "", body, attributes),
            Text::Nested(depth) => nested(alloc, *depth),
            Text::Rounds(count) => rounds(alloc, FIRST, *count),
            Text::LaterRounds(count) => rounds(alloc, FIRST_TWO, *count),
            Text::Recursion => bytes(alloc, RECURSION.as_bytes()),
        }
    }
}

fn module(alloc: Global, item: &str, body: &str, attributes: &str) -> Result<Bytes, Memory> {
    let mut text = bytes(alloc, item.as_bytes())?;
    text.extend_from_slice(HEAD)?;
    text.extend_from_slice(body.as_bytes())?;
    text.extend_from_slice(RETURN)?;
    text.extend_from_slice(attributes.as_bytes())?;
    text.extend_from_slice(CLOSED)?;
    Ok(text)
}

fn long(alloc: Global, length: usize) -> Result<Bytes, Memory> {
    let mut text = module(alloc, "", "", "")?;
    for _ in text.len()..length {
        text.push(b' ')?;
    }
    Ok(text)
}

fn nested(alloc: Global, depth: usize) -> Result<Bytes, Memory> {
    let mut text = bytes(alloc, b"declare void @f(")?;
    for _ in 0..depth {
        text.extend_from_slice(b"void (")?;
    }
    for _ in 0..depth {
        text.extend_from_slice(b")*")?;
    }
    text.extend_from_slice(b")\n")?;
    let entry = module(alloc, "", "", "")?;
    text.extend_from_slice(entry.as_slice())?;
    Ok(text)
}

fn rounds(alloc: Global, first: &[u8], count: u32) -> Result<Bytes, Memory> {
    let mut text = bytes(alloc, HEAD)?;
    text.extend_from_slice(first)?;
    text.extend_from_slice(ROUND)?;
    push_decimal(&mut text, u128::from(count))?;
    text.extend_from_slice(BEHIND)?;
    text.extend_from_slice(RETURN)?;
    text.extend_from_slice(CLOSED)?;
    Ok(text)
}

const HEAD: &[u8] = b"define i64 @main() #0 {
entry:
";

const RETURN: &[u8] = b"  ret i64 0
}
declare void @__quantum__qis__h__body(%Qubit*)
declare void @__quantum__qis__mz__body(%Qubit*, %Result*) #1
attributes #1 = { \"irreversible\" }
attributes #0 = { \"entry_point\"";

const CLOSED: &[u8] = b" }
";

const FIRST: &[u8] = b"  %x = add i64 1, 1
  br label %loop
";

const FIRST_TWO: &[u8] = b"  %w = add i64 1, 1
  %x = add i64 1, 1
  br label %loop
";

const ROUND: &[u8] = b"loop:
  %i = phi i64 [ 0, %entry ], [ %n, %loop ]
  %n = add i64 %i, 1
  %c = icmp ult i64 %n, ";

const BEHIND: &[u8] = b"
  br i1 %c, label %loop, label %end
end:
  %y = add i64 %n, 1
";

const RECURSION: &str = "define i64 @main() #0 {
entry:
  call void @f()
  ret i64 0
}
define void @f() {
b:
  call void @f()
  ret void
}
attributes #0 = { \"entry_point\" }
";
