//! Whole talks over scripted results: the operations that statements ask for, beside what they print.

use crate::transcript::{put_call, results_of};
use crate::turns::{Form, TURNS, Turn, all_taken, result_of, take_turn};
use gl_base::{Errno, Got};
use gl_client::Next;
use gl_script::{Script, Statement};
use gl_talk::{Talk, talk_over};
use std::alloc::Global;

/// Goes on to the end of a statement, with the results that are left, and appends what it asks and prints.
fn finish(
    alloc: Global,
    talk: &mut Talk,
    left: &mut &[Got],
    form: Form,
    out: &mut Vec<u8>,
) -> Result<(), Errno> {
    let mut turn = Turn::Printed;
    for _ in 0..TURNS {
        let got = result_of(left, turn)?;
        let next = go_on(alloc, talk, got)?;
        turn = take_turn(next, form, out)?;
        if turn == Turn::Ended {
            return Ok(());
        }
    }
    Err(Errno::Again)
}

/// One step of a talk.
fn go_on(alloc: Global, talk: &mut Talk, got: Option<&Got>) -> Result<Next, Errno> {
    if talk.begun > 1000 {
        return Err(Errno::Full);
    }
    talk.next(alloc, got)
}

/// Begins each statement and goes on to its end.
fn finish_all(
    alloc: Global,
    talk: &mut Talk,
    statements: &[Statement<'_>],
    left: &mut &[Got],
    form: Form,
    out: &mut Vec<u8>,
) -> Result<(), Errno> {
    for statement in statements {
        if talk.begun < 1000 {
            talk.begin(alloc, statement)?;
        }
        finish(alloc, talk, left, form, out)?;
    }
    talk.quit();
    finish(alloc, talk, left, form, out)
}

/// Begins each statement of a talk and goes on to its end, over just these results.
fn finish_over(
    alloc: Global,
    talk: &mut Talk,
    statements: &[Statement<'_>],
    results: &[Got],
    form: Form,
    out: &mut Vec<u8>,
) -> Result<(), Errno> {
    let mut left = results;
    finish_all(alloc, talk, statements, &mut left, form, out)?;
    all_taken(left)
}

/// Appends what statements ask and print over just these results, and what is closed at the end.
fn talk_through(
    alloc: Global,
    statements: &[Statement<'_>],
    results: &[Got],
    form: Form,
    out: &mut Vec<u8>,
) -> Result<(), Errno> {
    match Talk::for_setup(alloc) {
        Ok(mut talk) => finish_over(alloc, &mut talk, statements, results, form, out),
        Err(errno) => Err(errno),
    }
}

/// The same for the statements of a session's first section.
fn talk_in(
    alloc: Global,
    text: &[u8],
    results: &[Got],
    form: Form,
    out: &mut Vec<u8>,
) -> Result<(), Errno> {
    match Script::parse(alloc, text) {
        Ok(script) => match script.statements(0) {
            Some(statements) => talk_through(alloc, statements, results, form, out),
            None => Err(Errno::Inval),
        },
        Err(_) => Err(Errno::Inval),
    }
}

/// The text of a session with these statements in `setup`, which `;` divides.
fn session_of(alloc: Global, statements: &[u8]) -> Result<Vec<u8>, Errno> {
    let mut text = b"session 2\nsetup\n".to_vec(alloc)?;
    for byte in statements {
        text.push(if *byte == b';' { b'\n' } else { *byte })?;
    }
    Ok(text)
}

/// Appends what the statements of `setup` ask and print over these results.
pub fn put(
    alloc: Global,
    statements: &[u8],
    results: &[u8],
    form: Form,
    out: &mut Vec<u8>,
) -> Result<(), Errno> {
    let text = session_of(alloc, statements)?;
    let results = results_of(alloc, results)?;
    talk_in(alloc, &text, &results, form, out)
}

/// Appends the operations of a talk over these results as lines, and after them its text.
fn put_talk(
    alloc: Global,
    statements: &[Statement<'_>],
    results: &[Got],
    out: &mut Vec<u8>,
) -> Result<(), Errno> {
    if statements.len() > 1000 {
        return Err(Errno::Full);
    }
    let talked = talk_over(alloc, statements, results)?;
    for what in &talked.operations {
        put_call(what, out)?;
    }
    out.extend_from_slice(&talked.text)?;
    Ok(())
}

/// The same for the statements of a session's first section.
fn put_section(
    alloc: Global,
    text: &[u8],
    results: &[Got],
    out: &mut Vec<u8>,
) -> Result<(), Errno> {
    match Script::parse(alloc, text) {
        Ok(script) => match script.statements(0) {
            Some(statements) => put_talk(alloc, statements, results, out),
            None => Err(Errno::Inval),
        },
        Err(_) => Err(Errno::Inval),
    }
}

/// The same for the statements of `setup`.
pub fn put_over(
    alloc: Global,
    statements: &[u8],
    results: &[u8],
    out: &mut Vec<u8>,
) -> Result<(), Errno> {
    let text = session_of(alloc, statements)?;
    let results = results_of(alloc, results)?;
    put_section(alloc, &text, &results, out)
}
