//! `gpiosess`: runs the session on standard input, and prints its text on standard output; or judges a printed run, or runs a load.
#![tactic(auto)]

mod program;

use crate::program::carry_out;
use gl_io::{Sink, Source, StdSink, StdSource};
use gl_session::Status;
use std::alloc::Global;
use std::env;
use std::env::Args;
use std::io::ErrorKind;
use std::process::ExitCode;
use std::sync::Wait;
use std::thread::Threads;

/// What stands in the place of words that are no text: a word that asks for nothing, whose answer is the usage.
const NO_TEXT: &str = "?";

fn main(rt: HostRuntime) -> ExitCode {
    let (mut source, mut sink) = (StdSource::new(rt.stdin()), StdSink::new(rt.stdout()));
    let status = match env::args(&rt) {
        Ok(args) => carry_out_args(&rt, rt.alloc(), args, &mut source, &mut sink),
        Err(error) if error.kind() == ErrorKind::InvalidData => {
            carry_out(&rt, rt.alloc(), &[NO_TEXT], &mut source, &mut sink)
        }
        Err(_) => Status::NoMemory,
    };
    ExitCode::from(status.number())
}

/// Carries out what the words after the program's own name ask for.
fn carry_out_args<R: Threads + Wait + Sync, S: Source, K: Sink>(
    rt: &R,
    alloc: Global,
    args: Args,
    source: &mut S,
    sink: &mut K,
) -> Status {
    let Ok(args) = args.skip(1).collect::<Vec<String>>(alloc) else {
        return Status::NoMemory;
    };
    match args
        .iter()
        .map(|arg| arg.as_str())
        .collect::<Vec<&str>>(alloc)
    {
        Ok(words) => carry_out(rt, alloc, &words, source, sink),
        Err(_) => Status::NoMemory,
    }
}
