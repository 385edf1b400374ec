//! Replies as text.

use gl_base::{Errno, put_decimal};
use gl_core::Reply;

/// Appends a reply.
pub fn put_reply(reply: &Reply, out: &mut Vec<u8>) -> Result<(), Errno> {
    match reply {
        Reply::Done => put_words(b"ok", &[], out),
        Reply::Number(number) => put_words(b"number", &[*number], out),
        Reply::Go(fd) => put_words(b"go", &[u64::from(*fd)], out),
        Reply::Found {
            place,
            offset,
            count,
        } => put_words(
            b"found",
            &[u64::from(*place), u64::from(*offset), u64::from(*count)],
            out,
        ),
        Reply::Text(text) => {
            out.extend_from_slice(b"text ")?;
            out.extend_from_slice(text.as_bytes())?;
            Ok(())
        }
        Reply::Ready(bits) => put_words(b"ready", &[u64::from(*bits)], out),
        Reply::Refused(errno) => put_words(errno.name().as_bytes(), &[], out),
    }
}

/// Appends a word and some numbers.
fn put_words(word: &[u8], numbers: &[u64], out: &mut Vec<u8>) -> Result<(), Errno> {
    out.extend_from_slice(word)?;
    for number in numbers {
        out.push(b' ')?;
        put_decimal(*number, out)?;
    }
    Ok(())
}
