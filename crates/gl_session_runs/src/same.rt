//! What of a printed run is the same in every run.

use gl_base::{Errno, split_first};

/// What is told of a line: a text, and of an entry of the history the first word of its answer.
type Told<'a> = (&'a [u8], &'a [u8]);

/// Appends what of a printed run is the same in every run. In front of the history that is each line, but of `fd N` the word alone. Of the
/// history it is each entry that begins, after its index, with one of the beginnings, which `|` divides: this beginning, and the first word
/// of its answer. What would be told twice in a row is told once.
pub fn put_same<'a>(text: &'a [u8], beginnings: &'a [u8], out: &mut Vec<u8>) -> Result<(), Errno> {
    let mut last = (b"".as_slice(), b"".as_slice());
    let mut in_history = false;
    for line in text.split(|byte| *byte == b'\n') {
        in_history = in_history || line.starts_with(b"== history ");
        let told = told_of(line, in_history, beginnings);
        if is_new(told, last) {
            put_told(told, out)?;
            last = told;
        }
    }
    Ok(())
}

/// Whether something is told that isn't what was told last.
fn is_new(told: Told<'_>, last: Told<'_>) -> bool {
    !told.0.is_empty() && (told.0 != last.0 || told.1 != last.1)
}

/// What is told of a line; an empty text where it isn't told.
fn told_of<'a>(line: &'a [u8], in_history: bool, beginnings: &'a [u8]) -> Told<'a> {
    if in_history {
        told_of_entry(line, beginnings)
    } else if line.starts_with(b"fd ") {
        (b"fd".as_slice(), b"".as_slice())
    } else {
        (line, b"".as_slice())
    }
}

/// What is told of an entry.
fn told_of_entry<'a>(line: &'a [u8], beginnings: &'a [u8]) -> Told<'a> {
    if let Some(entry) = split_first(line, b' ').1 {
        for beginning in beginnings.split(|byte| *byte == b'|') {
            if entry.starts_with(beginning) {
                return (beginning, answer_of(entry));
            }
        }
    }
    (b"".as_slice(), b"".as_slice())
}

/// The first word of the answer of an entry; the empty one where it has none.
fn answer_of(entry: &[u8]) -> &[u8] {
    let mut is_next = false;
    for word in entry.split(|byte| *byte == b' ') {
        if is_next {
            return word;
        }
        is_next = word == b"->".as_slice();
    }
    b""
}

/// Appends what is told of a line, and its end.
fn put_told(told: Told<'_>, out: &mut Vec<u8>) -> Result<(), Errno> {
    let (text, answer) = told;
    out.extend_from_slice(text)?;
    if !answer.is_empty() {
        out.extend_from_slice(b" -> ")?;
        out.extend_from_slice(answer)?;
    }
    out.push(b'\n')?;
    Ok(())
}
