//! Makes, checks and lists disk images, and copies volume files out of them and into them.
#![tactic(auto)]

mod file;
mod reading;
mod status;
mod storing;
mod task;
mod texts;
mod top;

use ckd_outside::{StdSink, StdSource};
use disk_image::{DiskFile, StdFile};
use file::{NoFile, open_for};
use status::{ImageStatus, code_of};
use std::alloc::AllocError;
use std::env::Args;
use std::fs::File;
use std::process::ExitCode;
use std::{env, io};
use task::task_of;
use top::{image_top, words_of};

fn ended(status: ImageStatus) -> ExitCode {
    ExitCode::from(code_of(status))
}

/// The file that the words name, opened for what they ask.
fn file_of(rt: &HostRuntime, words: &[&str]) -> Option<File> {
    let task = task_of(words)?;
    let path = words.last()?;
    open_for(rt, task, path)
}

/// Runs over the standard streams and a file.
fn run<F: DiskFile>(rt: &HostRuntime, words: &[&str], file: &mut F) -> ExitCode {
    let mut source = StdSource::new(rt.reader());
    let mut sink = StdSink::new(io::writer(rt));
    ended(image_top(rt.alloc(), words, &mut source, &mut sink, file))
}

fn serve(rt: &HostRuntime, arguments: Option<&[&str]>) -> ExitCode {
    let words = words_of(arguments);
    match file_of(rt, words) {
        Some(file) => {
            let mut file = StdFile::new(file);
            run(rt, words, &mut file)
        }
        None => {
            let mut file = NoFile::new();
            run(rt, words, &mut file)
        }
    }
}

/// Runs with the arguments behind the program's name.
fn serve_args(rt: &HostRuntime, args: Args) -> Result<ExitCode, AllocError> {
    let mut owned = Vec::new(rt.alloc());
    for arg in args.skip(1) {
        owned.push(arg)?;
    }
    let mut words = Vec::new(rt.alloc());
    for arg in owned.iter() {
        words.push(arg.as_str())?;
    }
    Ok(serve(rt, Some(&words)))
}

fn main(rt: HostRuntime) -> ExitCode {
    match env::args(&rt) {
        Ok(args) => serve_args(&rt, args).unwrap_or(ended(ImageStatus::NoMemory)),
        Err(e) if e.kind() == io::ErrorKind::OutOfMemory => ended(ImageStatus::NoMemory),
        Err(_) => serve(&rt, None),
    }
}
