//! For each rule texts that break it, and for each side of it a text beside them that keeps it. The faults and their places
//! were found by hand from the rules of `docs/LANGUAGE.md`.
ghost use Rattle.std.specs.Prelude.{◌≡◌, map};
ghost use Rattle.ir_module.specs.Numbered.{Numbered};
ghost use Rattle.ir_module.specs.Spots.{spots};
ghost use Rattle.type_check.specs.Told.{HasPlace};

use ir_module::{Place, Spot};
use ir_reader::{Parsed, ReadStop, read};
use ir_values::Memory;
use std::alloc::Global;
use std::process::Abort;
use std::test::Fail;
use type_check::{TypeCode, first_fault};

/// The greatest required number.
const LIMIT: u64 = 1_000_000_000;

/// What stands behind each text: declarations, and the attributes of its functions.
const TAIL: &str = "
declare void @__quantum__qis__h__body(%Qubit*)
declare void @__quantum__qis__mz__body(%Qubit*, %Result*) #1
declare void @unknown()
attributes #0 = { \"entry_point\" }
attributes #1 = { \"irreversible\" }
attributes #2 = { \"entry_point\" \"required_num_qubits\"=\"1\" \"required_num_results\"=\"1\" }
attributes #3 = { \"entry_point\" \"required_num_qubits\"=\"01\" }
attributes #4 = { \"entry_point\" \"required_num_results\"=\"1000000001\" }
attributes #5 = { \"entry_point\" \"required_num_qubits\"=\"1000000000\" \"required_num_results\"=\"0\" }
attributes #6 = { \"entry_point\" \"required_num_qubits\" }
attributes #7 = { \"entry_point\" \"required_num_qubits\"=\"1a\" }
attributes #8 = { \"entry_point\" \"required_num_qubits\"=\"\" }
attributes #9 = { \"entry_point\" \"required_num_results\"=\"-0\" }
";

/// The number of the rule that is broken first, and the line and the column where; zeros where none is.
type Told = (u8, u32, u32);

/// The number of the rule of a fault, and the place of its spot.
fn told_at(parsed: &Parsed, fault: (Spot, TypeCode)) -> Told
    requires placed { HasPlace parsed.now.module fault.0 }
    requires places { map (λ p. p.0) parsed.now.places ≡ spots parsed.now.module }
{
    let Place { line, column } = parsed.places.of(fault.0);
    (fault.1.number(), line, column)
}

fn first(alloc: Global, parsed: &Parsed) -> Result<Told, Memory>
    requires numbered { Numbered parsed.now.module }
    requires places { map (λ p. p.0) parsed.now.places ≡ spots parsed.now.module }
{
    match first_fault(alloc, &parsed.module, LIMIT)? {
        Some(fault) => Ok(told_at(parsed, fault)),
        None => Ok((0, 0, 0)),
    }
}

/// What is told of a text that reads.
fn told(rt: &impl Abort, alloc: Global, text: &str) -> Result<Told, Memory> {
    let mut whole = Vec::from_slice(alloc, text.as_bytes())?;
    whole.extend_from_slice(TAIL.as_bytes())?;
    assert!(rt; whole.len() < 10_000);
    match read(alloc, whole.as_slice()) {
        Ok(parsed) => first(alloc, &parsed),
        Err(ReadStop::Refused { .. }) => Ok((99, 0, 0)),
        Err(ReadStop::Memory) => Err(Memory),
    }
}

#[test]
fn types_agree(rt: HostRuntime) -> Result<(), Fail> {
    let rows: [(&'static str, Told); 30] = [
        (
            "define i64 @main() #0 {\nentry:\n  %x = add i64 1, 1\n  %y = and i1 %x, true\n  ret i64 0\n}\n",
            (1, 4, 3),
        ),
        (
            "define i64 @main() #0 {\nentry:\n  %x = add i64 1, 1\n  %y = and i64 %x, 1\n  ret i64 0\n}\n",
            (0, 0, 0),
        ),
        (
            "define i64 @main() #0 {\nentry:\n  %x = call void @__quantum__qis__h__body(%Qubit* null)\n  ret i64 0\n}\n",
            (1, 3, 3),
        ),
        (
            "define i64 @main() #0 {\nentry:\n  call void @__quantum__qis__h__body(%Qubit* null)\n  ret i64 0\n}\n",
            (0, 0, 0),
        ),
        (
            "define i64 @main() #0 {\nentry:\n  call void @__quantum__qis__h__body(i64 0)\n  ret i64 0\n}\n",
            (1, 3, 3),
        ),
        (
            "define i64 @main() #0 {\nentry:\n  call i64 @__quantum__qis__h__body(%Qubit* null)\n  ret i64 0\n}\n",
            (1, 3, 3),
        ),
        (
            "define i64 @main() #0 {\nentry:\n  %x = select i1 true, i64 1, i32 2\n  ret i64 0\n}\n",
            (1, 3, 3),
        ),
        (
            "define i64 @main() #0 {\nentry:\n  %x = select i1 true, i64 1, i64 2\n  ret i64 0\n}\n",
            (0, 0, 0),
        ),
        (
            "define i64 @main() #0 {\nentry:\n  %x = zext i64 1 to i64\n  ret i64 0\n}\n",
            (1, 3, 3),
        ),
        (
            "define i64 @main() #0 {\nentry:\n  %x = trunc i64 1 to i32\n  ret i64 0\n}\n",
            (0, 0, 0),
        ),
        (
            "define i64 @main() #0 {\nentry:\n  switch i64 0, label %a [ i32 1, label %a ]\na:\n  ret i64 0\n}\n",
            (1, 3, 3),
        ),
        (
            "define i64 @main() #0 {\nentry:\n  switch i64 0, label %a [ i64 1, label %a ]\na:\n  ret i64 0\n}\n",
            (0, 0, 0),
        ),
        (
            "define i64 @main() #0 {\nentry:\n  ret i32 0\n}\n",
            (1, 3, 3),
        ),
        (
            "define i64 @main() #0 {\nentry:\n  ret void\n}\n",
            (1, 3, 3),
        ),
        (
            "define i64 @main() #0 {\nentry:\n  %x = add i1 true, true\n  br label %a\na:\n  %y = phi i64 [ %x, %entry ]\n  ret i64 0\n}\n",
            (1, 6, 3),
        ),
        (
            "define i64 @main() #0 {\nentry:\n  %x = add i64 1, 1\n  br label %a\na:\n  %y = phi i64 [ %x, %entry ]\n  ret i64 0\n}\n",
            (0, 0, 0),
        ),
        (
            "define i64 @main() #0 {\nentry:\n  %x = add i64 1, 1\n  %y = icmp eq i32 %x, 1\n  ret i64 0\n}\n",
            (1, 4, 3),
        ),
        (
            "define i64 @main() #0 {\nentry:\n  %x = add i64 1, 1\n  %y = icmp eq i64 %x, 1\n  ret i64 0\n}\n",
            (0, 0, 0),
        ),
        (
            "define i64 @main() #0 {\nentry:\n  %x = add i64 1, 1\n  %y = zext i32 %x to i64\n  ret i64 0\n}\n",
            (1, 4, 3),
        ),
        (
            "define i64 @main() #0 {\nentry:\n  %x = add i32 1, 1\n  %y = zext i32 %x to i64\n  ret i64 0\n}\n",
            (0, 0, 0),
        ),
        (
            "define i64 @main() #0 {\nentry:\n  %x = trunc i32 1 to i64\n  ret i64 0\n}\n",
            (1, 3, 3),
        ),
        (
            "define i64 @main() #0 {\nentry:\n  %x = sext i32 1 to i64\n  ret i64 0\n}\n",
            (0, 0, 0),
        ),
        (
            "define i64 @main() #0 {\nentry:\n  %x = add i64 1, 1\n  %y = select i1 %x, i64 1, i64 2\n  ret i64 0\n}\n",
            (1, 4, 3),
        ),
        (
            "define i64 @main() #0 {\nentry:\n  %x = add i1 true, true\n  %y = select i1 %x, i64 1, i64 2\n  ret i64 0\n}\n",
            (0, 0, 0),
        ),
        (
            "define i64 @main() #0 {\nentry:\n  %x = add i64 1, 1\n  br i1 %x, label %a, label %a\na:\n  ret i64 0\n}\n",
            (1, 4, 3),
        ),
        (
            "define i64 @main() #0 {\nentry:\n  %x = add i1 true, true\n  br i1 %x, label %a, label %a\na:\n  ret i64 0\n}\n",
            (0, 0, 0),
        ),
        (
            "define i64 @main() #0 {\nentry:\n  %x = add i32 1, 1\n  switch i64 %x, label %a [ ]\na:\n  ret i64 0\n}\n",
            (1, 4, 3),
        ),
        (
            "define i64 @main() #0 {\nentry:\n  %x = add i64 1, 1\n  switch i64 %x, label %a [ ]\na:\n  ret i64 0\n}\n",
            (0, 0, 0),
        ),
        (
            "define i64 @main() #0 {\nentry:\n  %x = add i32 1, 1\n  ret i64 %x\n}\n",
            (1, 4, 3),
        ),
        (
            "define i64 @main() #0 {\nentry:\n  %x = add i64 1, 1\n  ret i64 %x\n}\n",
            (0, 0, 0),
        ),
    ];
    for (text, expected) in rows {
        assert_eq!(rt; told(&rt, rt.alloc(), text)?, expected, "{text}");
    }
    Ok(())
}

#[test]
fn calls_and_returns_agree(rt: HostRuntime) -> Result<(), Fail> {
    let rows: [(&'static str, Told); 9] = [
        (
            "define i64 @main() #0 {\nentry:\n  call void @__quantum__qis__h__body()\n  ret i64 0\n}\n",
            (1, 3, 3),
        ),
        (
            "define i64 @main() #0 {\nentry:\n  call void @__quantum__qis__h__body(%Qubit* null, %Qubit* null)\n  ret i64 0\n}\n",
            (1, 3, 3),
        ),
        (
            "define i64 @main() #0 {\nentry:\n  call void @f(i32 1)\n  ret i64 0\n}\ndefine void @f(i64 %a) {\n  ret void\n}\n",
            (1, 3, 3),
        ),
        (
            "define i64 @main() #0 {\nentry:\n  call void @f(i64 1)\n  ret i64 0\n}\ndefine void @f(i64 %a) {\n  ret void\n}\n",
            (0, 0, 0),
        ),
        (
            "define i64 @main() #0 {\nentry:\n  %f = select i1 true, void (i64)* @known, void (i64)* @known\n  ret i64 0\n}\ndefine void @known() {\n  ret void\n}\n",
            (1, 3, 3),
        ),
        (
            "define i64 @main() #0 {\nentry:\n  %f = select i1 true, void ()* @known, void ()* @known\n  call void %f(i64 1)\n  ret i64 0\n}\ndefine void @known() {\n  ret void\n}\n",
            (1, 4, 3),
        ),
        (
            "define i64 @main() #0 {\nentry:\n  %f = select i1 true, void ()* @known, void ()* @known\n  call void %f()\n  ret i64 0\n}\ndefine void @known() {\n  ret void\n}\n",
            (0, 0, 0),
        ),
        (
            "define i64 @main() #0 {\nentry:\n  ret i64 0\n}\ndefine void @f() {\n  ret i64 0\n}\n",
            (1, 6, 3),
        ),
        (
            "define i64 @main() #0 {\nentry:\n  ret i64 0\n}\ndefine void @known() {\n  ret void\n}\n",
            (0, 0, 0),
        ),
    ];
    for (text, expected) in rows {
        assert_eq!(rt; told(&rt, rt.alloc(), text)?, expected, "{text}");
    }
    Ok(())
}

#[test]
fn phis_have_an_entry_for_each_edge(rt: HostRuntime) -> Result<(), Fail> {
    let rows: [(&'static str, Told); 9] = [
        (
            "define i64 @main() #0 {\nentry:\n  br i1 true, label %a, label %b\na:\n  br label %b\nb:\n  %x = phi i64 [ 0, %entry ], [ 1, %a ]\n  ret i64 0\n}\n",
            (0, 0, 0),
        ),
        (
            "define i64 @main() #0 {\nentry:\n  br i1 true, label %a, label %b\na:\n  br label %b\nb:\n  %x = phi i64 [ 1, %a ], [ 0, %entry ]\n  ret i64 0\n}\n",
            (0, 0, 0),
        ),
        (
            "define i64 @main() #0 {\nentry:\n  br i1 true, label %a, label %b\na:\n  br label %b\nb:\n  %x = phi i64 [ 0, %entry ]\n  ret i64 0\n}\n",
            (2, 7, 3),
        ),
        (
            "define i64 @main() #0 {\nentry:\n  br i1 true, label %a, label %b\na:\n  br label %b\nb:\n  %x = phi i64 [ 0, %entry ], [ 1, %a ], [ 1, %b ]\n  ret i64 0\n}\n",
            (2, 7, 3),
        ),
        (
            "define i64 @main() #0 {\nentry:\n  br i1 true, label %a, label %b\na:\n  br label %b\nb:\n  %x = phi i64 [ 0, %entry ], [ 1, %a ], [ 1, %a ]\n  ret i64 0\n}\n",
            (2, 7, 3),
        ),
        (
            "define i64 @main() #0 {\nentry:\n  br i1 true, label %a, label %b\na:\n  br label %b\nb:\n  %x = phi i64 [ 0, %entry ], [ 1, %b ]\n  ret i64 0\n}\n",
            (2, 7, 3),
        ),
        (
            "define i64 @main() #0 {\nentry:\n  br i1 true, label %b, label %b\nb:\n  %x = phi i64 [ 0, %entry ], [ 0, %entry ]\n  ret i64 0\n}\n",
            (0, 0, 0),
        ),
        (
            "define i64 @main() #0 {\nentry:\n  br i1 true, label %b, label %b\nb:\n  %x = phi i64 [ 0, %entry ], [ 1, %entry ]\n  ret i64 0\n}\n",
            (2, 5, 3),
        ),
        (
            "define i64 @main() #0 {\nentry:\n  br i1 true, label %b, label %b\nb:\n  %x = phi i64 [ 0, %entry ]\n  ret i64 0\n}\n",
            (2, 5, 3),
        ),
    ];
    for (text, expected) in rows {
        assert_eq!(rt; told(&rt, rt.alloc(), text)?, expected, "{text}");
    }
    Ok(())
}

#[test]
fn first_blocks_and_switches(rt: HostRuntime) -> Result<(), Fail> {
    let rows: [(&'static str, Told); 12] = [
        (
            "define i64 @main() #0 {\nentry:\n  br label %entry\n}\n",
            (3, 3, 3),
        ),
        (
            "define i64 @main() #0 {\nentry:\n  br i1 true, label %a, label %entry\na:\n  ret i64 0\n}\n",
            (3, 3, 3),
        ),
        (
            "define i64 @main() #0 {\nentry:\n  switch i64 0, label %entry [ i64 1, label %a ]\na:\n  ret i64 0\n}\n",
            (3, 3, 3),
        ),
        (
            "define i64 @main() #0 {\nentry:\n  switch i64 0, label %a [ i64 1, label %entry ]\na:\n  ret i64 0\n}\n",
            (3, 3, 3),
        ),
        (
            "define i64 @main() #0 {\nentry:\n  %x = phi i64 [ 0, %entry ]\n  br label %entry\n}\n",
            (3, 3, 3),
        ),
        (
            "define i64 @main() #0 {\nentry:\n  br label %a\na:\n  br i1 true, label %a, label %b\nb:\n  ret i64 0\n}\n",
            (0, 0, 0),
        ),
        (
            "define i64 @main() #0 {\nentry:\n  switch i64 0, label %a [ i64 1, label %a i64 1, label %a ]\na:\n  ret i64 0\n}\n",
            (4, 3, 3),
        ),
        (
            "define i64 @main() #0 {\nentry:\n  switch i8 0, label %a [ i8 255, label %a i8 -1, label %a ]\na:\n  ret i64 0\n}\n",
            (4, 3, 3),
        ),
        (
            "define i64 @main() #0 {\nentry:\n  switch i64 0, label %a [ i64 1, label %a i64 2, label %a ]\na:\n  ret i64 0\n}\n",
            (0, 0, 0),
        ),
        (
            "define i64 @main() #0 {\nentry:\n  ret i64 0\n}\ndefine void @f() {\nentry:\n  br label %entry\n}\n",
            (3, 7, 3),
        ),
        (
            "define i64 @main() #0 {\nentry:\n  switch i1 true, label %a [ i1 true, label %a i1 true, label %a ]\na:\n  ret i64 0\n}\n",
            (4, 3, 3),
        ),
        (
            "define i64 @main() #0 {\nentry:\n  switch i1 true, label %a [ i1 true, label %a i1 false, label %a ]\na:\n  ret i64 0\n}\n",
            (0, 0, 0),
        ),
    ];
    for (text, expected) in rows {
        assert_eq!(rt; told(&rt, rt.alloc(), text)?, expected, "{text}");
    }
    Ok(())
}

#[test]
fn the_entry(rt: HostRuntime) -> Result<(), Fail> {
    let rows: [(&'static str, Told); 15] = [
        ("define i64 @main() {\n  ret i64 0\n}\n", (6, 1, 1)),
        (
            "define i64 @main() #0 {\nentry:\n  ret i64 0\n}\ndefine void @other() #0 {\n  ret void\n}\n",
            (6, 5, 13),
        ),
        (
            "define i64 @main() #0 {\nentry:\n  ret i64 0\n}\ndefine void @other() {\n  ret void\n}\n",
            (0, 0, 0),
        ),
        (
            "define i64 @main() #3 {\nentry:\n  ret i64 0\n}\n",
            (7, 1, 12),
        ),
        (
            "define i64 @main() #4 {\nentry:\n  ret i64 0\n}\n",
            (7, 1, 12),
        ),
        (
            "define i64 @main() #5 {\nentry:\n  ret i64 0\n}\n",
            (0, 0, 0),
        ),
        (
            "define i64 @main() #6 {\nentry:\n  ret i64 0\n}\n",
            (7, 1, 12),
        ),
        (
            "define i64 @main(i64 %a) #0 {\n  ret i64 0\n}\n",
            (10, 1, 12),
        ),
        (
            "define i32 @main() #0 {\nentry:\n  ret i32 0\n}\n",
            (10, 1, 12),
        ),
        (
            "define void @main() #0 {\nentry:\n  ret void\n}\n",
            (0, 0, 0),
        ),
        ("declare void @d() #0\n", (6, 1, 1)),
        (
            "declare void @d() #0\ndefine i64 @main() #0 {\nentry:\n  ret i64 0\n}\n",
            (0, 0, 0),
        ),
        (
            "define i64 @main() #7 {\nentry:\n  ret i64 0\n}\n",
            (7, 1, 12),
        ),
        (
            "define i64 @main() #8 {\nentry:\n  ret i64 0\n}\n",
            (7, 1, 12),
        ),
        (
            "define i64 @main() #9 {\nentry:\n  ret i64 0\n}\n",
            (7, 1, 12),
        ),
    ];
    for (text, expected) in rows {
        assert_eq!(rt; told(&rt, rt.alloc(), text)?, expected, "{text}");
    }
    Ok(())
}

#[test]
fn numbers_declarations_and_names(rt: HostRuntime) -> Result<(), Fail> {
    let rows: [(&'static str, Told); 20] = [
        (
            "define i64 @main() #2 {\nentry:\n  call void @__quantum__qis__h__body(%Qubit* inttoptr (i64 1 to %Qubit*))\n  ret i64 0\n}\n",
            (8, 3, 3),
        ),
        (
            "define i64 @main() #2 {\nentry:\n  call void @__quantum__qis__h__body(%Qubit* inttoptr (i64 0 to %Qubit*))\n  ret i64 0\n}\n",
            (0, 0, 0),
        ),
        (
            "define i64 @main() #2 {\nentry:\n  call void @__quantum__qis__mz__body(%Qubit* null, %Result* inttoptr (i64 1 to %Result*))\n  ret i64 0\n}\n",
            (8, 3, 3),
        ),
        (
            "define i64 @main() #2 {\nentry:\n  call void @__quantum__qis__mz__body(%Qubit* null, %Result* null)\n  ret i64 0\n}\n",
            (0, 0, 0),
        ),
        (
            "define i64 @main() #0 {\nentry:\n  call void @__quantum__qis__h__body(%Qubit* inttoptr (i64 7 to %Qubit*))\n  ret i64 0\n}\n",
            (0, 0, 0),
        ),
        (
            "define i64 @main() #0 {\nentry:\n  call void @__quantum__qis__h__body(%Qubit* inttoptr (i64 1000000000 to %Qubit*))\n  ret i64 0\n}\n",
            (8, 3, 3),
        ),
        (
            "define i64 @main() #0 {\nentry:\n  call void @unknown()\n  ret i64 0\n}\n",
            (9, 3, 3),
        ),
        (
            "define i64 @main() #0 {\nentry:\n  %f = select i1 true, void ()* @unknown, void ()* @unknown\n  ret i64 0\n}\n",
            (9, 3, 3),
        ),
        (
            "define i64 @main() #0 {\nentry:\n  call void @known()\n  ret i64 0\n}\ndefine void @known() {\n  ret void\n}\n",
            (0, 0, 0),
        ),
        (
            "@__quantum__label = internal constant [1 x i8] c\"a\"\ndefine i64 @main() #0 {\nentry:\n  ret i64 0\n}\n",
            (11, 1, 1),
        ),
        (
            "@__quantum_label = internal constant [1 x i8] c\"a\"\ndefine i64 @main() #0 {\nentry:\n  ret i64 0\n}\n",
            (0, 0, 0),
        ),
        (
            "define i64 @main() #0 {\nentry:\n  ret i64 0\n}\ndefine void @__quantum__rt__own() {\n  ret void\n}\n",
            (11, 5, 13),
        ),
        (
            "define i64 @main() #0 {\nentry:\n  ret i64 0\n}\ndefine void @__quantum_own() {\n  ret void\n}\n",
            (0, 0, 0),
        ),
        (
            "define i64 @main() #0 {\nentry:\n  call void @__quantum__qis__h__body(%Qubit* inttoptr (i64 999999999 to %Qubit*))\n  ret i64 0\n}\n",
            (0, 0, 0),
        ),
        (
            "define i64 @main() #2 {\nentry:\n  %q = select i1 true, %Qubit* null, %Qubit* inttoptr (i64 1 to %Qubit*)\n  ret i64 0\n}\n",
            (8, 3, 3),
        ),
        (
            "define i64 @main() #2 {\nentry:\n  br label %a\na:\n  %q = phi %Qubit* [ inttoptr (i64 1 to %Qubit*), %entry ]\n  ret i64 0\n}\n",
            (8, 5, 3),
        ),
        (
            "define i64 @main() #2 {\nentry:\n  call void @f(%Qubit* inttoptr (i64 1 to %Qubit*))\n  ret i64 0\n}\ndefine void @f(%Qubit* %a) {\n  ret void\n}\n",
            (8, 3, 3),
        ),
        (
            "define i64 @main() #2 {\nentry:\n  ret i64 0\n}\ndefine %Result* @f() {\n  ret %Result* inttoptr (i64 1 to %Result*)\n}\n",
            (8, 6, 3),
        ),
        (
            "define i64 @main() #0 {\nentry:\n  call void @f(void ()* @unknown)\n  ret i64 0\n}\ndefine void @f(void ()* %g) {\n  ret void\n}\n",
            (9, 3, 3),
        ),
        (
            "define i64 @main() #0 {\nentry:\n  %f = select i1 true, void (%Qubit*)* @__quantum__qis__h__body, void (%Qubit*)* @__quantum__qis__h__body\n  ret i64 0\n}\n",
            (0, 0, 0),
        ),
    ];
    for (text, expected) in rows {
        assert_eq!(rt; told(&rt, rt.alloc(), text)?, expected, "{text}");
    }
    Ok(())
}

#[test]
fn the_first_of_several(rt: HostRuntime) -> Result<(), Fail> {
    let rows: [(&'static str, Told); 9] = [
        (
            "define i64 @main() #0 {\nentry:\n  %x = add i64 1, 1\n  %y = and i1 %x, true\n  %z = and i8 %x, 1\n  ret i64 0\n}\n",
            (1, 4, 3),
        ),
        (
            "define i64 @main() #0 {\nentry:\n  br i1 true, label %b, label %b\nb:\n  %x = phi i64 [ 0, %entry ]\n  %y = phi i1 [ %x, %entry ]\n  ret i64 0\n}\n",
            (2, 5, 3),
        ),
        (
            "define i64 @main() #0 {\nentry:\n  br i1 true, label %b, label %b\nb:\n  %y = phi i1 [ %x, %entry ]\n  %x = phi i64 [ 0, %entry ]\n  ret i64 0\n}\n",
            (1, 5, 3),
        ),
        (
            "define i64 @main() #0 {\nentry:\n  call void @unknown()\n  ret i32 0\n}\n",
            (9, 3, 3),
        ),
        (
            "@__quantum__label = internal constant [1 x i8] c\"a\"\ndefine i64 @main() #0 {\nentry:\n  ret i32 0\n}\n",
            (11, 1, 1),
        ),
        (
            "define void @__quantum__own() {\n  ret i32 0\n}\ndefine i64 @main() #0 {\nentry:\n  ret i64 0\n}\n",
            (11, 1, 13),
        ),
        (
            "define i64 @main() #3 {\nentry:\n  ret i32 0\n}\n",
            (1, 3, 3),
        ),
        (
            "define i64 @main() #3 {\nentry:\n  call void @__quantum__qis__h__body(%Qubit* inttoptr (i64 9 to %Qubit*))\n  ret i64 0\n}\n",
            (7, 1, 12),
        ),
        ("define void @f() {\n  ret i32 0\n}\n", (1, 2, 3)),
    ];
    for (text, expected) in rows {
        assert_eq!(rt; told(&rt, rt.alloc(), text)?, expected, "{text}");
    }
    Ok(())
}
