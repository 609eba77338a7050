//! Writes the volume file of a device as it was after the first event lines of a deck, copied while the others are done; or the one of
//! a far volume to which the device was mirrored in the run.
#![tactic(auto)]

mod copying;
mod deck;
mod far;
mod mirroring;
mod size;
mod task;
mod top;
mod unmade;

use ckd_outside::{StdSink, StdSource};
use std::alloc::AllocError;
use std::env::Args;
use std::process::ExitCode;
use std::{env, io};
use top::{CopyStatus, code_of, copy_top, words_of};

fn ended(status: CopyStatus) -> ExitCode {
    ExitCode::from(code_of(status))
}

/// Runs over the standard streams.
fn serve(rt: &HostRuntime, arguments: Option<&[&str]>) -> ExitCode {
    let mut source = StdSource::new(rt.reader());
    let mut sink = StdSink::new(io::writer(rt));
    let words = words_of(arguments);
    ended(copy_top(rt.alloc(), words, &mut source, &mut sink))
}

/// Runs with the arguments behind the program's name.
fn serve_args(rt: &HostRuntime, args: Args) -> Result<ExitCode, AllocError> {
    let mut owned = Vec::new(rt.alloc());
    for arg in args.skip(1) {
        owned.push(arg)?;
    }
    let mut words = Vec::new(rt.alloc());
    for arg in owned.iter() {
        words.push(arg.as_str())?;
    }
    Ok(serve(rt, Some(&words)))
}

fn main(rt: HostRuntime) -> ExitCode {
    match env::args(&rt) {
        Ok(args) => serve_args(&rt, args).unwrap_or(ended(CopyStatus::NoMemory)),
        Err(e) if e.kind() == io::ErrorKind::OutOfMemory => ended(CopyStatus::NoMemory),
        Err(_) => serve(&rt, None),
    }
}
