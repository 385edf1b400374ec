//! Frames: how many bytes come, and these bytes.

use gl_base::{Errno, read_decimal, split_first};

/// Appends what frames hold, one after another; a last line `no frame` where something else stands among them.
pub fn put_texts(frames: &[u8], out: &mut Vec<u8>) -> Result<(), Errno> {
    let mut rest = frames;
    for _ in 0..frames.len() {
        if rest.is_empty() {
            return Ok(());
        }
        match first_frame(rest) {
            Some((text, behind)) => {
                out.extend_from_slice(text)?;
                rest = behind;
            }
            None => {
                out.extend_from_slice(b"no frame\n")?;
                return Ok(());
            }
        }
    }
    Ok(())
}

/// What the first frame holds, and what comes after it.
fn first_frame(bytes: &[u8]) -> Option<(&[u8], &[u8])> {
    let (head, behind) = split_first(bytes, b'\n');
    let count = usize::try_from(read_decimal(number_in(head)?)?).ok()?;
    let behind = behind?;
    if count > behind.len() {
        return None;
    }
    Some(behind.split_at(count))
}

/// The number in the head of a frame.
fn number_in(head: &[u8]) -> Option<&[u8]> {
    match head.strip_prefix(b"= ") {
        Some(number) => Some(number),
        None => head.strip_prefix(b"! "),
    }
}
