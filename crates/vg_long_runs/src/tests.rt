// Runs whose lines go out while they go on.
use std::alloc::Global;
use vg_base::{Name, Names, NoMemory, Row};
use vg_core::{Body, Code, CoreType, CoreValue, Method, Owner, Program, Step, Tables};
use vg_interp::Playing;
use vg_interp_run::{Around, Run, Signal};
use vg_interp_sessions::{go, init};
use vg_io::MemorySink;

/// Each write is a line of so many bytes, `w 38 01`.
const LINE: usize = 8;

/// So many lines go out in one put.
const CHUNK: usize = 512;

/// How a run ended, whether a put failed, how many bytes the sink has, and whether all lines were put.
#[derive(Clone, Copy, Debug, PartialEq, Eq)]
struct Outcome {
    ended: Signal,
    failed: bool,
    bytes: usize,
    whole: bool,
}

/// Runs a program whose main is this code on a clock that takes minutes to be spent, with the put of this number set to fail behind three bytes. At
/// its end the lines that are left are put.
fn shown(alloc: Global, code: Code, failing: u32) -> Result<Outcome, NoMemory> {
    let program = program_of(alloc, code)?;
    let Ok(store) = init(alloc, &program, 10) else {
        return Err(NoMemory);
    };
    let around = Around::running(alloc, Some(400), Vec::new(alloc), Vec::new(alloc), u32::MAX);
    let mut play = Playing::new(alloc, Run::new(alloc, store, around));
    let mut sink = MemorySink::with_room(alloc, 100_000)?;
    sink.fail_on(failing, 3);
    let ended = match go(&mut play, &mut sink, &program) {
        Ok(()) => Signal::Wrong,
        Err(why) => why,
    };
    let whole = play
        .outlet
        .put_all(play.run.around.events(), &mut sink)
        .is_ok();
    Ok(Outcome {
        ended,
        failed: play.outlet.failed,
        bytes: sink.bytes().len(),
        whole,
    })
}

// A component whose main has this code.
fn program_of(alloc: Global, code: Code) -> Result<Program, NoMemory> {
    let mut names = Names::new(alloc);
    let name = names.intern("x")?;
    let mut components = Vec::new(alloc);
    components.push(name)?;
    let mut methods = Vec::new(alloc);
    methods.push(main_of(alloc, name))?;
    let mut bodies = Vec::new(alloc);
    bodies.push(Body {
        others: Row::new(alloc),
        code,
    })?;
    let mut starts = Vec::new(alloc);
    starts.push(Body {
        others: Row::new(alloc),
        code: Code::Row(Vec::new(alloc)),
    })?;
    Ok(Program {
        tables: Tables {
            classes: Row::new(alloc),
            components: Row::from_vec(components),
            fields: Row::new(alloc),
            globals: Row::new(alloc),
            methods: Row::from_vec(methods),
            targets: Row::new(alloc),
            types: Row::new(alloc),
            literals: Row::new(alloc),
            char_type: 0,
        },
        methods: Row::from_vec(bodies),
        makings: Row::new(alloc),
        starts: Row::from_vec(starts),
        main: 0,
        handlers: Row::new(alloc),
    })
}

// Main has neither parameters nor a result.
fn main_of(alloc: Global, name: Name) -> Method {
    Method {
        name,
        owner: Owner::InComponent(0),
        selector: 0,
        function: 0,
        params: Row::new(alloc),
        result: CoreType::NoType,
        nodes: 1,
    }
}

// So many writes of 1 to the register at 0x38.
fn writes(alloc: Global, count: usize) -> Result<Code, NoMemory> {
    let mut row = Vec::new(alloc);
    for _write in 0..count {
        row.push(Code::Do(Step::Put(CoreValue::Raw(8, 1))))?;
        row.push(Code::Do(Step::SetRegister(0x38)))?;
    }
    Ok(Code::Row(row))
}

// A loop that never ends.
fn endless(alloc: Global, body: Code) -> Result<Code, NoMemory> {
    let mut test = Vec::new(alloc);
    test.push(Code::Do(Step::Put(CoreValue::Bool(true))))?;
    Ok(Code::Loop(
        Box::new(alloc, Code::Row(test))?,
        Box::new(alloc, body)?,
        Box::new(alloc, Code::Row(Vec::new(alloc)))?,
    ))
}

// Main writes for ever.
fn looping(alloc: Global, failing: u32) -> Result<Outcome, NoMemory> {
    let body = writes(alloc, 1)?;
    shown(alloc, endless(alloc, body)?, failing)
}

// Main writes 1,100 times without a tick between.
fn straight(alloc: Global, failing: u32) -> Result<Outcome, NoMemory> {
    shown(alloc, writes(alloc, 1_100)?, failing)
}

// The run ends at the put that fails, and not with its clock.
#[test]
fn a_put_that_fails_ends_a_loop(rt: HostRuntime) {
    let alloc = rt.alloc();
    for failing in 0..4u32 {
        let want = Outcome {
            ended: Signal::NoMemory,
            failed: true,
            bytes: failing as usize * CHUNK * LINE + 3,
            whole: false,
        };
        assert!(rt; looping(alloc, failing) == Ok(want));
    }
}

// Two full puts come before the run idles, and the rest at its end.
#[test]
fn the_rest_goes_out_at_the_end(rt: HostRuntime) {
    let alloc = rt.alloc();
    for failing in 0..2u32 {
        let want = Outcome {
            ended: Signal::NoMemory,
            failed: true,
            bytes: failing as usize * CHUNK * LINE + 3,
            whole: false,
        };
        assert!(rt; straight(alloc, failing) == Ok(want));
    }
    let cut = Outcome {
        ended: Signal::Done,
        failed: true,
        bytes: 2 * CHUNK * LINE + 3,
        whole: false,
    };
    assert!(rt; straight(alloc, 2) == Ok(cut));
    let all = Outcome {
        ended: Signal::Done,
        failed: false,
        bytes: 1_100 * LINE,
        whole: true,
    };
    assert!(rt; straight(alloc, 3) == Ok(all));
}
