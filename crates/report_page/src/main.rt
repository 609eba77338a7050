//! Draws the page of a run: a deck with its report, as one file to look at.
#![tactic(auto)]

mod page;
mod run;
mod top;

use ckd_outside::{StdSink, StdSource};
use std::alloc::AllocError;
use std::env::Args;
use std::process::ExitCode;
use std::{env, io};
use top::{DrawStatus, code_of, draw_top, words_of};

fn ended(status: DrawStatus) -> ExitCode {
    ExitCode::from(code_of(status))
}

/// Runs over the standard streams.
fn serve(rt: &HostRuntime, arguments: Option<&[&str]>) -> ExitCode {
    let mut source = StdSource::new(rt.reader());
    let mut sink = StdSink::new(io::writer(rt));
    let words = words_of(arguments);
    ended(draw_top(rt.alloc(), words, &mut source, &mut sink))
}

/// Runs with the arguments behind the program's name.
fn serve_args(rt: &HostRuntime, args: Args) -> Result<ExitCode, AllocError> {
    let mut owned = Vec::new(rt.alloc());
    for arg in args.skip(1) {
        owned.push(arg)?;
    }
    let mut words = Vec::new(rt.alloc());
    for arg in owned.iter() {
        words.push(arg.as_str())?;
    }
    Ok(serve(rt, Some(&words)))
}

fn main(rt: HostRuntime) -> ExitCode {
    match env::args(&rt) {
        Ok(args) => serve_args(&rt, args).unwrap_or(ended(DrawStatus::NoMemory)),
        Err(e) if e.kind() == io::ErrorKind::OutOfMemory => ended(DrawStatus::NoMemory),
        Err(_) => serve(&rt, None),
    }
}
