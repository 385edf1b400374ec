//! Tells what texts, numbers, sessions, structures and streams are: each is known from a header or a document, and the stored output has
//! what it has to be.
//!
//! A line is a case, whose first word says its kind. The other words are a text, or after `of KIND` the pieces of bytes that a text is.
//! `session PARTS` tells the cost of a session and 0 ok, or the line, the column and the kind of its first fault: PARTS are divided by `;`,
//! each a number and the text that stands there so many times, in which `|` is the end of a line, `~` a tab and `^` the byte 7f. `load N`
//! tells the same of a load, and `turns N` its text. `node PATH` tells what a path of the tree names, `words WORD..` what the program's
//! words ask for. A case of one word is one that has all it needs here; where it tells digits, each is 1 where one more thing is as it has
//! to be. What is told of a case ends with the end of a line.
#![tactic(auto)]

mod names;
mod nodes;
mod requests;
mod sessions;
mod streams;
mod structures;
mod texts;
mod words;

use gl_base::{Errno, put_piece, split_first};
use std::alloc::Global;
use std::io::{self, Write};

fn main(rt: HostRuntime) -> io::Result<()> {
    let mut out = rt.stdout();
    for line in rt.lines(rt.alloc()) {
        let line = line?;
        let mut text = Vec::new(rt.alloc());
        match put_case(rt.alloc(), line.as_str().as_bytes(), &mut text) {
            Ok(()) => out.write_all(&text)?,
            Err(errno) => out.write_all(errno.name().as_bytes())?,
        }
        out.write_all(b"\n")?;
    }
    Ok(())
}

/// Takes the first word of a text; the empty one where there is none.
pub(crate) fn word<'a>(rest: &mut &'a [u8]) -> &'a [u8] {
    let (word, behind) = split_first(*rest, b' ');
    *rest = match behind {
        Some(behind) => behind,
        None => b"",
    };
    word
}

/// Appends what is told of a case.
fn put_case(alloc: Global, line: &[u8], out: &mut Vec<u8>) -> Result<(), Errno> {
    let mut rest = line;
    let kind = word(&mut rest);
    match kind {
        b"of" => {
            let kind = word(&mut rest);
            put_of_bytes(alloc, kind, rest, out)
        }
        b"session" => sessions::put(alloc, rest, out),
        b"load" => sessions::put_load(alloc, rest, out),
        b"turns" => sessions::put_turns(rest, out),
        b"node" => nodes::put(rest, out),
        b"words" => words::put(alloc, rest, out),
        _ => match rest.is_empty() {
            true => put_known(alloc, kind, out),
            false => texts::put(kind, rest, out),
        },
    }
}

/// Appends what is told of the text that some pieces stand for.
fn put_of_bytes(alloc: Global, kind: &[u8], pieces: &[u8], out: &mut Vec<u8>) -> Result<(), Errno> {
    let mut text = Vec::new(alloc);
    put_pieces(pieces, &mut text)?;
    texts::put(kind, &text, out)
}

/// Appends the bytes that pieces with a blank between two of them stand for.
fn put_pieces(pieces: &[u8], out: &mut Vec<u8>) -> Result<(), Errno> {
    for piece in pieces.split(|byte| *byte == b' ') {
        put_piece(piece, out)?;
    }
    Ok(())
}

/// Appends what is told of a case that has all it needs.
fn put_known(alloc: Global, kind: &[u8], out: &mut Vec<u8>) -> Result<(), Errno> {
    match kind {
        b"errors" => texts::put_errors(out),
        b"numbers" => texts::put_numbers(out),
        b"names" => put_bits(&names::checks(), out),
        b"answers" => put_bits(&names::answers(alloc)?, out),
        b"commands" => structures::put_commands(out),
        b"views" => put_bits(&structures::views_by_length(), out),
        b"structures" => put_bits(&structures::checks(), out),
        b"requests" => put_bits(&requests::checks(), out),
        b"memory" => put_bits(&streams::in_memory(alloc)?, out),
        b"adapters" => put_bits(&streams::adapted(alloc), out),
        _ => texts::put(kind, b"", out),
    }
}

/// Appends a digit for each bit.
fn put_bits(bits: &[bool], out: &mut Vec<u8>) -> Result<(), Errno> {
    for bit in bits {
        out.push(if *bit { b'1' } else { b'0' })?;
    }
    Ok(())
}
