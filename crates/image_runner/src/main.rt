//! Runs a deck on disk images: its devices begin with what the images hold, and write into them.
#![tactic(auto)]

mod file;
mod mounting;
mod rack;
mod running;
mod status;
mod texts;
mod top;
mod volume;
mod words;

use ckd_outside::{StdSink, StdSource};
use file::open_files;
use status::{RunStatus, code_of};
use std::alloc::AllocError;
use std::env::Args;
use std::process::ExitCode;
use std::{env, io};
use top::{run_top, words_of};

fn ended(status: RunStatus) -> ExitCode {
    ExitCode::from(code_of(status))
}

/// Runs over the standard streams, and the files that the words name.
fn serve(rt: &HostRuntime, arguments: Option<&[&str]>) -> Result<ExitCode, AllocError> {
    let words = words_of(arguments);
    let mut source = StdSource::new(rt.reader());
    let mut sink = StdSink::new(io::writer(rt));
    let mut notes = StdSink::new(rt.stderr());
    let mut rack = open_files(rt, words)?;
    Ok(ended(run_top(
        rt.alloc(),
        words,
        &mut source,
        &mut sink,
        &mut notes,
        &mut rack,
    )))
}

/// Runs with the arguments behind the program's name.
fn serve_args(rt: &HostRuntime, args: Args) -> Result<ExitCode, AllocError> {
    let mut owned = Vec::new(rt.alloc());
    for arg in args.skip(1) {
        owned.push(arg)?;
    }
    let mut words = Vec::new(rt.alloc());
    for arg in owned.iter() {
        words.push(arg.as_str())?;
    }
    serve(rt, Some(&words))
}

fn main(rt: HostRuntime) -> ExitCode {
    match env::args(&rt) {
        Ok(args) => serve_args(&rt, args).unwrap_or(ended(RunStatus::NoMemory)),
        Err(e) if e.kind() == io::ErrorKind::OutOfMemory => ended(RunStatus::NoMemory),
        Err(_) => serve(&rt, None).unwrap_or(ended(RunStatus::NoMemory)),
    }
}
