// Rows of statuses.
use crate::answers::push_part;
use itoa::Buffer;
use std::alloc::Global;
use vg_base::{NoMemory, Place, Row};
use vg_faults::Fault;
use vg_hex::HexFault;
use vg_rules::what::What;
use vg_status::{Status, fault_line};
use vg_types_counts::{CLASS_LIMIT, HEIGHT_LIMIT, LOCAL_LIMIT, METHOD_LIMIT};

/// `status NAME NUMBER NUMBER`: the number of a status, and its fault line. A name that needs fewer numbers ignores the others.
pub fn status_told(alloc: Global, words: &str) -> Result<Option<Row<u8>>, NoMemory> {
    match status_of(words) {
        Some(status) => told(alloc, &status),
        None => Ok(None),
    }
}

/// The number of a status, and its fault line.
pub fn told(alloc: Global, status: &Status) -> Result<Option<Row<u8>>, NoMemory> {
    let mut answer = Row::new(alloc);
    push_part(&mut answer, Buffer::new().format(status.code()).as_bytes())?;
    push_part(&mut answer, fault_line(status).as_bytes())?;
    Ok(Some(answer))
}

// The status of a name and two numbers.
fn status_of(words: &str) -> Option<Status> {
    let mut words = words.split_whitespace();
    let name = words.next()?;
    let first = words.next()?.parse::<u32>().ok()?;
    let second = words.next()?.parse::<u32>().ok()?;
    match name {
        "done" => Some(Status::Done),
        "usage" => Some(Status::Usage),
        "read-fault" => Some(Status::ReadFault),
        "write-fault" => Some(Status::WriteFault),
        "no-memory" => Some(Status::NoMemory),
        "too-long" => Some(Status::TooLong),
        "budget" => Some(Status::Budget),
        "depth" => Some(Status::Depth),
        "stopped" => Some(Status::Stopped(u8::try_from(first).ok()?)),
        "wants" => Some(Status::Wants(u8::try_from(first).ok()?)),
        "script" => Some(Status::ScriptRefused(first)),
        "bad" => Some(Status::BadInstruction {
            pc: u16::try_from(first).ok()?,
            word: u16::try_from(second).ok()?,
        }),
        _ => refused(name, first, second),
    }
}

// A refusal of a name and two numbers.
fn refused(name: &str, first: u32, second: u32) -> Option<Status> {
    let place = Place {
        line: first,
        col: second,
    };
    match name {
        "no-tree" => Some(Status::Refused(Fault::NoTree(place))),
        "too-deep" => Some(Status::Refused(Fault::TooDeep(place))),
        "too-many-classes" => Some(too_many(What::Classes, CLASS_LIMIT, place)),
        "too-many-methods" => Some(too_many(What::Methods, METHOD_LIMIT, place)),
        "too-many-locals" => Some(too_many(What::Locals, LOCAL_LIMIT, place)),
        "too-many-height" => Some(too_many(What::Height, HEIGHT_LIMIT, place)),
        "static-full" => Some(Status::Refused(Fault::StaticFull {
            need: u64::from(first),
        })),
        "table-full" => Some(Status::Refused(Fault::TableFull {
            need: u64::from(first),
        })),
        "stack-full" => Some(Status::Refused(Fault::StackFull {
            need: first,
            left: second,
        })),
        "code-full" => Some(Status::Refused(Fault::CodeFull { words: first })),
        "no-member" => Some(Status::Refused(Fault::NoMember)),
        "not-built" => Some(Status::Refused(Fault::NotBuilt(place))),
        "hex-form" => Some(Status::HexRefused(HexFault::Form(first))),
        "hex-sum" => Some(Status::HexRefused(HexFault::Sum(first))),
        "hex-twice" => Some(Status::HexRefused(HexFault::Twice(first))),
        "hex-beyond" => Some(Status::HexRefused(HexFault::Beyond(first))),
        "hex-no-end" => Some(Status::HexRefused(HexFault::NoEnd)),
        _ => init_fault(name, first, place),
    }
}

// A fault of initialisation, of which a stop has the code in its name: `init-stop-3`.
fn init_fault(name: &str, first: u32, place: Place) -> Option<Status> {
    match name {
        "init-steps" => Some(Status::Refused(Fault::InitSteps)),
        "init-depth" => Some(Status::Refused(Fault::InitDepth)),
        "init-touches" => Some(Status::Refused(Fault::InitTouches(u8::try_from(first).ok()?))),
        "init-too-big" => Some(Status::Refused(Fault::InitTooBig)),
        _ => match name.strip_prefix("init-stop-") {
            Some(code) => {
                let code = code.parse::<u8>().ok()?;
                Some(Status::Refused(Fault::InitTrap { code, place }))
            }
            None => broken(name, place),
        },
    }
}

fn too_many(what: What, limit: u32, place: Place) -> Status {
    Status::Refused(Fault::TooMany { what, limit, place })
}

// A rule that is broken, by its name `broken-` and the number of the rule.
fn broken(name: &str, place: Place) -> Option<Status> {
    let rule = name.strip_prefix("broken-")?.parse::<u8>().ok()?;
    Some(Status::Refused(Fault::Broken { rule, place }))
}
