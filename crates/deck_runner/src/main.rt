//! The program: runs a deck of channel programs and writes a report; checks a deck; or runs a deck that is drawn from a seed and writes a summary.
#![tactic(auto)]

ghost use Rattle.std.specs.Prelude.{◌≡◌, ◌≢◌, map};
ghost use Rattle.ckd_outside.specs.Causes.{Rose};
ghost use Rattle.deck_top.specs.Answers.{Tells, task_of, WriteFaultHasCause};
ghost use Rattle.deck_runner.specs.Bays.{OverNewBay};

use ckd_outside::{Sink, Source, StdSink, StdSource};
use deck_top::{Status, code_of, deck_top, words_of};
use device_outside::MemBay;
use std::alloc::{AllocError, Global};
use std::env::Args;
use std::process::ExitCode;
use std::{env, io};

fn ended(status: Status) -> ExitCode {
    ExitCode::from(code_of(status))
}

/// Does what the words ask for, over any source and sink, and a new bay.
fn serve<S: Source, K: Sink>(alloc: Global, words: &[&str], source: &mut S, sink: &mut K) -> Status
    ensures told { OverNewBay (λ old new. Tells result (task_of (map (λ w. w.now) words.now)) old new
        (S.left source.old) (S.left source.new) (K.held sink.old) (K.held sink.new)) }
    ensures read { result ≡ Status.ReadFault → Rose (S.faults source.old) (S.faults source.new) }
    ensures calm { result ≢ Status.ReadFault → S.faults source.new ≡ S.faults source.old }
    ensures write { WriteFaultHasCause result (K.faults sink.old) (K.faults sink.new) }
{
    let mut bay = MemBay::new(alloc);
    deck_top(alloc, words, source, sink, &mut bay)
}

/// Runs with the arguments behind the program's name.
fn serve_args<S: Source, K: Sink>(
    alloc: Global,
    args: Args,
    source: &mut S,
    sink: &mut K,
) -> Result<ExitCode, AllocError> {
    let mut owned = Vec::new(alloc);
    for arg in args.skip(1) {
        owned.push(arg)?;
    }
    let mut words = Vec::new(alloc);
    for arg in owned.iter() {
        words.push(arg.as_str())?;
    }
    Ok(ended(serve(alloc, words_of(Some(&words)), source, sink)))
}

/// Runs over the standard streams.
fn main(rt: HostRuntime) -> ExitCode {
    let alloc = rt.alloc();
    let mut source = StdSource::new(rt.reader());
    let mut sink = StdSink::new(io::writer(&rt));
    match env::args(&rt) {
        Ok(args) => serve_args(alloc, args, &mut source, &mut sink).unwrap_or(ended(
            Status::NoMemory,
        )),
        Err(e) if e.kind() == io::ErrorKind::OutOfMemory => ended(Status::NoMemory),
        Err(_) => ended(serve(alloc, words_of(None), &mut source, &mut sink)),
    }
}
