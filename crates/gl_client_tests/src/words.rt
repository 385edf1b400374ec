//! The words of the tools.

use crate::parts::{part, words_of};
use gl_args::{ArgFault, Opts, Tool, read_tool};
use gl_base::{ByteList, Errno, Name, read_decimal};
use std::alloc::Global;

/// Appends whether words are those of a tool.
fn put_kind(alloc: Global, words: &[&[u8]], out: &mut Vec<u8>) -> Result<(), Errno> {
    let kind: &[u8] = match read_tool(alloc, words) {
        Ok(_) => b"tool",
        Err(ArgFault::Usage) => b"usage",
        Err(ArgFault::NoMemory) => return Err(Errno::NoMemory),
    };
    out.extend_from_slice(kind)?;
    Ok(())
}

/// Appends whether the words of a text are those of a tool.
pub fn put(alloc: Global, text: &[u8], out: &mut Vec<u8>) -> Result<(), Errno> {
    let words = words_of(alloc, text)?;
    put_kind(alloc, &words, out)
}

/// Appends whether the words of a text and one more, which stands so many times after them, are those of a tool.
pub fn put_many(alloc: Global, text: &[u8], more: &[u8], out: &mut Vec<u8>) -> Result<(), Errno> {
    let mut rest = more;
    let word = part(&mut rest);
    match read_decimal(part(&mut rest)) {
        Some(count) => put_repeated(alloc, text, word, count, out),
        None => Err(Errno::Inval),
    }
}

/// The same of this word and number.
fn put_repeated(
    alloc: Global,
    text: &[u8],
    word: &[u8],
    count: u64,
    out: &mut Vec<u8>,
) -> Result<(), Errno> {
    let mut words = words_of(alloc, text)?;
    for _ in 0..count {
        words.push(word)?;
    }
    put_kind(alloc, &words, out)
}

/// Whether these are the options that are looked for, in this order.
fn are_given(opts: &Opts) -> [bool; 8] {
    [
        opts.chip == Name::of(b"gpiochip2"),
        (opts.active_low, opts.by_name, opts.strict) == (true, false, false),
        (opts.bias, opts.drive, opts.edges) == (1024, 0, 16),
        (opts.period_us, opts.count) == (5000, Some(7)),
        is_format(&opts.format),
        opts.consumer.as_bytes() == b"me".as_slice(),
        opts.lines.len() == 2,
        is_line(opts.lines.get(1)),
    ]
}

/// Whether this is the format that is looked for.
fn is_format(format: &Option<ByteList>) -> bool {
    match format {
        Some(format) => format.as_slice() == b"%c:%o".as_slice(),
        None => false,
    }
}

/// Whether this is the second line that is looked for.
fn is_line(line: Option<&(Name, bool)>) -> bool {
    match line {
        Some((name, _)) => name.as_bytes() == b"-x".as_slice(),
        None => false,
    }
}

/// Appends a digit for each of the options of a gpiomon that are looked for: 1 where it is given.
pub fn put_options(alloc: Global, text: &[u8], out: &mut Vec<u8>) -> Result<(), Errno> {
    let words = words_of(alloc, text)?;
    match read_tool(alloc, &words) {
        Ok(Tool::Watch(opts)) => put_bits(&are_given(&opts), out),
        _ => Err(Errno::Inval),
    }
}

/// Appends a digit for each bit.
fn put_bits(bits: &[bool], out: &mut Vec<u8>) -> Result<(), Errno> {
    for bit in bits {
        out.push(if *bit { b'1' } else { b'0' })?;
    }
    Ok(())
}
