//! gpiodetect, gpioinfo, gpioget and gpioset over scripted results.

use crate::parts::words_of;
use crate::transcript::results_of;
use crate::turns::{Form, TURNS, Turn, all_taken, result_of, take_turn};
use gl_args::{ArgFault, Tool, read_tool};
use gl_base::{Errno, Got};
use gl_values::Client;
use std::alloc::Global;

/// Appends what a client asks and prints, up to its end, over just these results.
fn drive(
    alloc: Global,
    client: &mut Client,
    results: &[Got],
    out: &mut Vec<u8>,
) -> Result<(), Errno> {
    let mut left = results;
    let mut turn = Turn::Printed;
    for _ in 0..TURNS {
        let got = result_of(&mut left, turn)?;
        let next = client.next(alloc, got)?;
        turn = take_turn(next, Form::Whole, out)?;
        if turn == Turn::Ended {
            return all_taken(left);
        }
    }
    Err(Errno::Again)
}

/// Appends what a tool asks and prints over these results.
fn tell_tool(alloc: Global, tool: Tool, results: &[Got], out: &mut Vec<u8>) -> Result<(), Errno> {
    let mut client = Client::new(alloc, tool, 0);
    drive(alloc, &mut client, results, out)
}

/// Appends what words of a statement ask and print over these results.
fn tell_words(
    alloc: Global,
    words: &[&[u8]],
    results: &[Got],
    out: &mut Vec<u8>,
) -> Result<(), Errno> {
    match read_tool(alloc, words) {
        Ok(tool) => tell_tool(alloc, tool, results, out),
        Err(ArgFault::Usage) => {
            out.extend_from_slice(b"usage\n")?;
            Ok(())
        }
        Err(ArgFault::NoMemory) => Err(Errno::NoMemory),
    }
}

/// Appends what a statement of a tool asks and prints over these results.
pub fn put(alloc: Global, words: &[u8], results: &[u8], out: &mut Vec<u8>) -> Result<(), Errno> {
    let words = words_of(alloc, words)?;
    let results = results_of(alloc, results)?;
    tell_words(alloc, &words, &results, out)
}

/// Appends whether a client has ended, as a line.
fn put_state(client: &Client, out: &mut Vec<u8>) -> Result<(), Errno> {
    let state: &[u8] = if client.ended() {
        b"ended\n"
    } else {
        b"holds\n"
    };
    out.extend_from_slice(state)?;
    Ok(())
}

/// Appends what a client that holds its request asks and prints over these results, and then over one more when it is stopped.
fn put_stopped(
    alloc: Global,
    client: &mut Client,
    results: &[Got],
    out: &mut Vec<u8>,
) -> Result<(), Errno> {
    drive(alloc, client, results, out)?;
    put_state(client, out)?;
    client.stop();
    drive(alloc, client, &[Got::Done], out)?;
    put_state(client, out)
}

/// The same of a tool that is started.
fn tell_held(alloc: Global, tool: Tool, results: &[Got], out: &mut Vec<u8>) -> Result<(), Errno> {
    let mut client = Client::held(alloc, tool, 4);
    put_stopped(alloc, &mut client, results, out)
}

/// The same for the words of a statement and the results that a text tells.
pub fn put_started(
    alloc: Global,
    words: &[u8],
    results: &[u8],
    out: &mut Vec<u8>,
) -> Result<(), Errno> {
    let words = words_of(alloc, words)?;
    let results = results_of(alloc, results)?;
    match read_tool(alloc, &words) {
        Ok(tool) => tell_held(alloc, tool, &results, out),
        Err(_) => Err(Errno::Inval),
    }
}
