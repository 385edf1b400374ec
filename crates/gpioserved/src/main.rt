//! `gpioserved`: answers the lines of a session on standard input, one by one, on standard output.
#![tactic(auto)]

mod program;
mod words;

use crate::program::run;
use gl_io::{StdSink, StdSource};
use std::env;
use std::process::ExitCode;

fn main(rt: HostRuntime) -> ExitCode {
    let (mut source, mut sink) = (StdSource::new(rt.stdin()), StdSink::new(rt.stdout()));
    let status = run(rt.alloc(), env::args(&rt), &mut source, &mut sink);
    ExitCode::from(status.number())
}
