//! Lines that are given again where memory was refused to them.

use gl_base::split_first;
use gl_served::Served;
use std::alloc::Global;

/// How a line came to its answer.
#[derive(Clone, Copy)]
pub enum Given {
    /// At once.
    Once,
    /// Memory was refused to it before it was begun, and it was given again.
    Again,
    /// It was begun when memory was refused to it: another line had to wait, and it was given again.
    GoneOn,
    /// It came to none: memory was refused to it twice.
    Refused,
}

impl Given {
    /// Its number, in the order above, from 0 on.
    pub fn number(self) -> u8 {
        match self {
            Given::Once => 0,
            Given::Again => 1,
            Given::GoneOn => 2,
            Given::Refused => 3,
        }
    }
}

/// Gives lines one after another, each once more where memory was refused to it, and appends what they print. How the last of those came to
/// its answer to which memory was refused.
pub fn give_all(served: &mut Served, lines: &[u8], texts: &mut Vec<u8>) -> Given {
    let mut last = Given::Once;
    let mut rest = lines;
    for _ in 0..lines.len() {
        let (line, behind) = split_first(rest, b'\n');
        match give(served, line, texts) {
            Given::Once => {}
            given => last = given,
        }
        match behind {
            Some(behind) => rest = behind,
            None => return last,
        }
    }
    last
}

/// Gives a line, and once more where memory was refused to it.
fn give(served: &mut Served, line: &[u8], texts: &mut Vec<u8>) -> Given {
    let alloc = *texts.allocator();
    if served.answer(alloc, line, texts).is_ok() {
        return Given::Once;
    }
    let begun = holds_others(served, alloc);
    if served.answer(alloc, line, texts).is_err() {
        return Given::Refused;
    }
    if begun { Given::GoneOn } else { Given::Again }
}

/// Whether another line has to wait: one that is passed over.
fn holds_others(served: &mut Served, alloc: Global) -> bool {
    let mut text = Vec::new(alloc);
    served.answer(alloc, b"#", &mut text).is_err()
}
