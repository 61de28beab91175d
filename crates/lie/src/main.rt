//! The program: the objects of the system, and the top call.
#![tactic(auto)]

use lie_app::{Status, code, run};
use lie_outer::{HostFiles, HostLink, HostSink, NoMemory};
use lie_sql::SqlKeeper;
use std::process::ExitCode;
use std::{env, io};

// The words without the program's own name. Words that aren't text are wrong words, as none are.
fn words(rt: &HostRuntime) -> Result<Vec<String>, NoMemory> {
    let mut words = Vec::new(rt.alloc());
    let arguments = match env::args(rt) {
        Ok(arguments) => arguments,
        Err(e) if e.kind() == io::ErrorKind::OutOfMemory => return Err(NoMemory),
        Err(_) => return Ok(words),
    };
    for word in arguments.skip(1) {
        if words.push(word).is_err() {
            return Err(NoMemory);
        }
    }
    Ok(words)
}

// The file of kept studies, in the folder where the program runs.
const DESK: &str = "lie.db";

// Makes the objects of the system, and calls. Without memory for them there is no call.
fn perform(rt: &HostRuntime) -> Result<Status, NoMemory> {
    let alloc = rt.alloc();
    let words = words(rt)?;
    let mut files = HostFiles::new(rt, alloc)?;
    let mut out = HostSink::out(rt, alloc)?;
    let mut err = HostSink::err(rt, alloc)?;
    let mut keeper = SqlKeeper::new(rt, alloc, DESK)?;
    let mut link = HostLink::new(rt, alloc)?;
    Ok(run(
        alloc,
        &words,
        &mut files,
        &mut out,
        &mut err,
        &mut keeper,
        &mut link,
    ))
}

fn main(rt: HostRuntime) -> ExitCode {
    let status = perform(&rt).unwrap_or(Status::NoMemory);
    ExitCode::from(code(&status))
}
