//! The program: the words of the command line come in, files are read, and the top call's outputs go to standard output and standard error.
#![tactic(auto)]

use std::env;
use std::env::Env;
use std::io::ErrorKind;
use std::process::ExitCode;
use vg_drive::run;
use vg_files::{FileShelf, StreamSink};
use vg_status::Status;

// The words behind the program's name, or the answer where they can't be had.
fn words_behind_name<R: Env + AllocGlobal>(rt: &R) -> Result<Vec<String>, Status> {
    let all = match env::args(rt) {
        Ok(all) => all,
        Err(error) => {
            return Err(if error.kind() == ErrorKind::OutOfMemory {
                Status::NoMemory
            } else {
                Status::Usage
            });
        }
    };
    match all.skip(1).collect(rt.alloc()) {
        Ok(words) => Ok(words),
        Err(_) => Err(Status::NoMemory),
    }
}

fn main(rt: HostRuntime) -> ExitCode {
    let alloc = rt.alloc();
    let status = match words_behind_name(&rt) {
        Ok(words) => {
            let mut shelf = FileShelf::new(&rt, alloc);
            let mut out = StreamSink::new(rt.stdout());
            let mut note = StreamSink::new(rt.stderr());
            run(alloc, &words, &mut shelf, &mut out, &mut note)
        }
        Err(status) => status,
    };
    ExitCode::from(status.code())
}
