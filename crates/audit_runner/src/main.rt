//! Audits a deck and its report.
#![tactic(auto)]

mod progress;

use ckd_outside::{StdSink, StdSource};
use deck_audit::{AuditStatus, code_of};
use progress::Shown;
use report_audit::{audit_top, words_of};
use std::alloc::AllocError;
use std::env::Args;
use std::io::IsTerminal;
use std::process::ExitCode;
use std::{env, io};

fn ended(status: AuditStatus) -> ExitCode {
    ExitCode::from(code_of(status))
}

/// Runs over the standard streams. Progress goes to standard error, where that is a terminal.
fn serve(rt: &HostRuntime, arguments: Option<&[&str]>) -> ExitCode {
    let errors = rt.stderr();
    let is_shown = errors.is_terminal();
    let input = StdSource::new(rt.reader());
    let mut source = Shown::new(input, StdSink::new(errors), is_shown);
    let mut sink = StdSink::new(io::writer(rt));
    let words = words_of(arguments);
    ended(audit_top(rt.alloc(), words, &mut source, &mut sink))
}

/// Runs with the arguments behind the program's name.
fn serve_args(rt: &HostRuntime, args: Args) -> Result<ExitCode, AllocError> {
    let mut owned = Vec::new(rt.alloc());
    for arg in args.skip(1) {
        owned.push(arg)?;
    }
    let mut words = Vec::new(rt.alloc());
    for arg in owned.iter() {
        words.push(arg.as_str())?;
    }
    Ok(serve(rt, Some(&words)))
}

fn main(rt: HostRuntime) -> ExitCode {
    match env::args(&rt) {
        Ok(args) => serve_args(&rt, args).unwrap_or(ended(AuditStatus::NoMemory)),
        Err(e) if e.kind() == io::ErrorKind::OutOfMemory => ended(AuditStatus::NoMemory),
        Err(_) => serve(&rt, None),
    }
}
