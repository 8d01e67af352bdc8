// The deepest runs that initialisation and sessions allow.
use std::alloc::Global;
use vg_base::{Name, Names, NoMemory, Row};
use vg_core::{Body, Code, CoreType, CoreValue, Method, Operator, Owner, Program, Step, Tables};
use vg_interp::Playing;
use vg_interp_run::{Around, Run, Signal};
use vg_interp_sessions::{go, init};
use vg_io::NullSink;

/// So many loops, each in the block of the other, are a statement of height 40.
const LOOPS: u32 = 20;

/// How a run ends whose main calls a method that calls itself until its argument is 0.
fn ended(alloc: Global, argument: i32) -> Result<Signal, NoMemory> {
    let program = program_of(alloc, argument)?;
    let store = match init(alloc, &program, 10) {
        Ok(store) => store,
        Err(why) => return Ok(why),
    };
    let around = Around::running(alloc, Some(400), Vec::new(alloc), Vec::new(alloc), 100_000);
    let mut play = Playing::new(alloc, Run::new(alloc, store, around));
    match go(&mut play, &mut NullSink::new(), &program) {
        Ok(()) => Ok(Signal::Wrong),
        Err(why) => Ok(why),
    }
}

// A component with the method and main behind it.
fn program_of(alloc: Global, argument: i32) -> Result<Program, NoMemory> {
    let mut names = Names::new(alloc);
    let name = names.intern("x")?;
    let mut components = Vec::new(alloc);
    components.push(name)?;
    let mut params = Vec::new(alloc);
    params.push(CoreType::IntType)?;
    let mut methods = Vec::new(alloc);
    methods.push(method_of(name, Row::from_vec(params)))?;
    methods.push(method_of(name, Row::new(alloc)))?;
    let mut bodies = Vec::new(alloc);
    bodies.push(going_down(alloc)?)?;
    bodies.push(main_of(alloc, argument)?)?;
    let mut starts = Vec::new(alloc);
    starts.push(Body {
        others: Row::new(alloc),
        code: Code::Row(Vec::new(alloc)),
    })?;
    Ok(Program {
        tables: Tables {
            classes: Row::new(alloc),
            components: Row::from_vec(components),
            fields: Row::new(alloc),
            globals: Row::new(alloc),
            methods: Row::from_vec(methods),
            targets: Row::new(alloc),
            types: Row::new(alloc),
            literals: Row::new(alloc),
            char_type: 0,
        },
        methods: Row::from_vec(bodies),
        makings: Row::new(alloc),
        starts: Row::from_vec(starts),
        main: 1,
        handlers: Row::new(alloc),
    })
}

// A method without a result.
fn method_of(name: Name, params: Row<CoreType>) -> Method {
    Method {
        name,
        owner: Owner::InComponent(0),
        selector: 0,
        function: 0,
        params,
        result: CoreType::NoType,
        nodes: 1,
    }
}

// Returns where the argument is 0, and else calls itself with one less, at the bottom of the loops.
fn going_down(alloc: Global) -> Result<Body, NoMemory> {
    let int = CoreType::IntType;
    let mut row = Vec::new(alloc);
    row.push(Code::Do(Step::Local(0)))?;
    row.push(Code::Do(Step::Put(CoreValue::Int(0))))?;
    row.push(Code::Do(Step::Operate(0, Operator::Equal, int, int)))?;
    row.push(Code::If(
        Box::new(alloc, Code::Row(returning(Vec::new(alloc))?))?,
        Box::new(alloc, Code::Row(Vec::new(alloc)))?,
    ))?;
    let mut call = Vec::new(alloc);
    call.push(Code::Do(Step::Local(0)))?;
    call.push(Code::Do(Step::Put(CoreValue::Int(1))))?;
    call.push(Code::Do(Step::Operate(0, Operator::Minus, int, int)))?;
    row.push(in_loops(alloc, calling(call)?)?)?;
    Ok(Body {
        others: Row::new(alloc),
        code: Code::Row(row),
    })
}

// Calls the method at the bottom of the loops.
fn main_of(alloc: Global, argument: i32) -> Result<Body, NoMemory> {
    let mut call = Vec::new(alloc);
    call.push(Code::Do(Step::Put(CoreValue::Int(argument))))?;
    Ok(Body {
        others: Row::new(alloc),
        code: in_loops(alloc, calling(call)?)?,
    })
}

// A call of the method behind its argument, and then a return.
fn calling(argument: Vec<Code>) -> Result<Vec<Code>, NoMemory> {
    let mut row = argument;
    row.push(Code::Do(Step::CallComponent(0, 1)))?;
    row.push(Code::Do(Step::Forget))?;
    returning(row)
}

// A return behind a row.
fn returning(row: Vec<Code>) -> Result<Vec<Code>, NoMemory> {
    let mut row = row;
    row.push(Code::Do(Step::Put(CoreValue::Null)))?;
    row.push(Code::Return)?;
    Ok(row)
}

// A row in loops, of which each has the other in its block.
fn in_loops(alloc: Global, row: Vec<Code>) -> Result<Code, NoMemory> {
    let mut code = Code::Row(row);
    for _loop in 0..LOOPS {
        let mut test = Vec::new(alloc);
        test.push(Code::Do(Step::Put(CoreValue::Bool(true))))?;
        let mut block = Vec::new(alloc);
        block.push(code)?;
        code = Code::Loop(
            Box::new(alloc, Code::Row(test))?,
            Box::new(alloc, Code::Row(block))?,
            Box::new(alloc, Code::Row(Vec::new(alloc)))?,
        );
    }
    Ok(code)
}

// Main is the first active call, and the method the 2nd to the 400th, or a 401st is opened.
#[test]
fn calls_as_deep_as_they_may_be(rt: HostRuntime) {
    let alloc = rt.alloc();
    assert!(rt;
        ended(alloc, 398) == Ok(Signal::Done) && ended(alloc, 399) == Ok(Signal::OutOfDepth)
    );
}
