//! Modules: copies, edges, places and classes.
use ir_module::{
    Attrs, Block, Blocks, Cases, Function, Functions, Insts, Locals, Module, Operand, Phis, Place,
    Places, Point, Spot, Term, successors,
};
use ir_values::{BlockId, Bytes, Class, Copies, FuncId, Int, Name, Seq, Ty, Value, Width};
use std::test::Fail;

#[test]
fn a_copy_has_the_same_blocks_and_edges(rt: HostRuntime) -> Result<(), Fail> {
    let alloc = rt.alloc();
    let mut blocks = Blocks::new(alloc);
    blocks.push(Block {
        name: Name::Number(0),
        phis: Phis::new(alloc),
        insts: Insts::new(alloc),
        term: Term::RetVoid,
    })?;
    let mut funcs = Functions::new(alloc);
    funcs.push(Function {
        name: Name::Text(Bytes::new(alloc)),
        ret: Ty::Void,
        params: 0,
        locals: Locals::new(alloc),
        attrs: Attrs::new(alloc),
        blocks: Some(blocks),
    })?;
    let module = Module {
        globals: Seq::new(alloc),
        funcs,
        flags: Seq::new(alloc),
    };
    let copied = module.copy(alloc)?;
    assert_eq!(rt; copied.funcs.len(), 1);
    let function = copied.function(FuncId(0));
    let count = function.blocks.as_ref().map_or(0, |b| b.len());
    assert_eq!(rt; count, 1);
    Ok(())
}

#[test]
fn edges_stand_in_text_order_before_the_default(rt: HostRuntime) -> Result<(), Fail> {
    let alloc = rt.alloc();
    let mut cases = Cases::new(alloc);
    let edge = Int::new(Width::W8, 1).ok_or("a byte")?;
    cases.push((edge, BlockId(2)))?;
    let term = Term::Switch(
        Ty::Int(Width::W8),
        Operand::Const(Value::Zero),
        BlockId(1),
        cases,
    );
    let edges = successors(&term);
    assert_eq!(rt; edges.len(), 2);
    assert_eq!(rt; (edges.at(0), edges.at(1)), (BlockId(2), BlockId(1)));
    Ok(())
}

#[test]
fn places_are_found_by_their_spots(rt: HostRuntime) -> Result<(), Fail> {
    let mut places = Places::new(rt.alloc());
    let point = Point {
        func: FuncId(0),
        block: BlockId(0),
        index: 3,
    };
    let next = Point { index: 4, ..point };
    let function = Spot::Func(FuncId(0));
    let place = |line, column| Place { line, column };
    places.push(Spot::Module, place(1, 1))?;
    places.push(function, place(4, 12))?;
    places.push(Spot::At(point), place(9, 3))?;
    places.push(Spot::At(next), place(10, 3))?;
    assert_eq!(rt; places.of(Spot::Module), place(1, 1));
    assert_eq!(rt; places.of(function), place(4, 12));
    assert_eq!(rt; places.of(Spot::At(point)), place(9, 3));
    assert_eq!(rt; places.of(Spot::At(next)), place(10, 3));
    Ok(())
}

#[test]
fn a_declared_function_has_its_class(rt: HostRuntime) -> Result<(), Fail> {
    let alloc = rt.alloc();
    let allocate = Function {
        name: Name::Text(Seq::from_slice(alloc, b"__quantum__rt__qubit_allocate")?),
        ret: Ty::Qubit,
        params: 0,
        locals: Locals::new(alloc),
        attrs: Attrs::new(alloc),
        blocks: None,
    };
    assert_eq!(rt; allocate.class(alloc)?, Some(Class::Alloc));
    Ok(())
}
