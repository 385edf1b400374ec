//! Gives tools, monitors and whole talks results that are written down, without a device, and tells which operations they ask for, and what
//! they print; and tells how the entries of a history are read and written.
//!
//! A line is a case, in parts that `|` divides. `tool|WORDS|RESULTS` is a tool up to its end, and `started|WORDS|RESULTS` one that is
//! started, and then stopped with one result more. `monitor|WORDS|RESULTS|STEP|STEP|STEP` is a monitor at its start and in three steps of three
//! turns each, and `stopped|WORDS|RESULTS` one that is stopped after its start. `talk|STATEMENTS|RESULTS` are statements of `setup`,
//! which `;` divides, `short|..` the same with each operation as a name and a number, and `over|..` the same by `talk_over`, which tells
//! the operations first and goes as far as the results do. `words|WORDS` and `many|WORDS|WORD|COUNT` tell whether words are a tool's, and
//! `options|WORDS` which of the options that are looked for they give. `entry|LINE` tells the line of a history as it was read and written
//! again, and `entries` three that are made here. What is told of a case is its text and the end of a line.
#![tactic(auto)]

mod entries;
mod monitors;
mod parts;
mod talks;
mod tools;
mod transcript;
mod turns;
mod words;

use gl_base::Errno;
use parts::part;
use std::alloc::Global;
use std::io::{self, Write};

fn main(rt: HostRuntime) -> io::Result<()> {
    let mut out = rt.stdout();
    for line in rt.lines(rt.alloc()) {
        let line = line?;
        let mut text = Vec::new(rt.alloc());
        match put_case(rt.alloc(), line.as_str().as_bytes(), &mut text) {
            Ok(()) => out.write_all(&text)?,
            Err(errno) => out.write_all(errno.name().as_bytes())?,
        }
        out.write_all(b"\n")?;
    }
    Ok(())
}

/// Appends what is told of a case.
fn put_case(alloc: Global, line: &[u8], out: &mut Vec<u8>) -> Result<(), Errno> {
    let mut rest = line;
    let kind = part(&mut rest);
    let first = part(&mut rest);
    match kind {
        b"tool" => tools::put(alloc, first, rest, out),
        b"started" => tools::put_started(alloc, first, rest, out),
        b"monitor" => monitors::put(alloc, first, rest, out),
        b"stopped" => monitors::put_stopped(alloc, first, rest, out),
        b"talk" => talks::put(alloc, first, rest, turns::Form::Whole, out),
        b"short" => talks::put(alloc, first, rest, turns::Form::Short, out),
        b"over" => talks::put_over(alloc, first, rest, out),
        b"words" => words::put(alloc, first, out),
        b"many" => words::put_many(alloc, first, rest, out),
        b"options" => words::put_options(alloc, first, out),
        b"entry" => entries::put(first, out),
        b"entries" => entries::put_made(out),
        _ => Err(Errno::Inval),
    }
}
