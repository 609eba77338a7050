//! The program: runs the paths of a deck beside each other, and writes a history.
#![tactic(auto)]

ghost use Rattle.std.specs.Prelude.{◌≡◌, ◌≢◌, map};
ghost use Rattle.ckd_outside.specs.Causes.{Rose};
ghost use Rattle.deck_top.specs.Answers.{WriteFaultHasCause};
ghost use Rattle.path_top.specs.Answers.{Tells, is_paths};

use ckd_outside::{Sink, Source, StdSink, StdSource};
use deck_top::{Status, code_of, words_of};
use device_outside::NoGate;
use path_top::paths_top;
use std::alloc::{AllocError, Global};
use std::env::Args;
use std::process::ExitCode;
use std::sync::Wait;
use std::thread::Threads;
use std::{env, io};

fn ended(status: Status) -> ExitCode {
    ExitCode::from(code_of(status))
}

/// Does what the words ask for, over any source and sink.
fn serve<R: Threads + Wait + Sync, S: Source, K: Sink>(
    rt: &R,
    alloc: Global,
    words: &[&str],
    source: &mut S,
    sink: &mut K,
) -> Status
    ensures told { Tells result (is_paths (map (λ w. w.now) words.now)) (S.left source.old) (S.left source.new) (K.held sink.old) (K.held sink.new) }
    ensures read { result ≡ Status.ReadFault → Rose (S.faults source.old) (S.faults source.new) }
    ensures calm { result ≢ Status.ReadFault → S.faults source.new ≡ S.faults source.old }
    ensures write { WriteFaultHasCause result (K.faults sink.old) (K.faults sink.new) }
{
    paths_top(rt, alloc, words, source, sink, &NoGate)
}

/// Runs with the arguments behind the program's name.
fn serve_args<R: Threads + Wait + Sync, S: Source, K: Sink>(
    rt: &R,
    alloc: Global,
    args: Args,
    source: &mut S,
    sink: &mut K,
) -> Result<ExitCode, AllocError> {
    let mut owned = Vec::new(alloc);
    for arg in args.skip(1) {
        owned.push(arg)?;
    }
    let mut words = Vec::new(alloc);
    for arg in owned.iter() {
        words.push(arg.as_str())?;
    }
    Ok(ended(serve(rt, alloc, words_of(Some(&words)), source, sink)))
}

/// Runs over the standard streams.
fn main(rt: HostRuntime) -> ExitCode {
    let alloc = rt.alloc();
    let mut source = StdSource::new(rt.reader());
    let mut sink = StdSink::new(io::writer(&rt));
    match env::args(&rt) {
        Ok(args) => serve_args(&rt, alloc, args, &mut source, &mut sink).unwrap_or(ended(
            Status::NoMemory,
        )),
        Err(e) if e.kind() == io::ErrorKind::OutOfMemory => ended(Status::NoMemory),
        Err(_) => ended(serve(&rt, alloc, words_of(None), &mut source, &mut sink)),
    }
}
