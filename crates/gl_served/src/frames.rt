//! Frames: how many bytes come, and these bytes.

ghost use Rattle.std.specs.Prelude.{◌≡◌, IfOk, IsOkUnless};
ghost use Rattle.gl_served.specs.Frames.{frame, frame_of, refused_line};

use crate::answered::Answer;
use gl_base::{Errno, put_decimal};
use gl_script::Spot;
use std::alloc::Global;

/// The frame of an answer to the line of a number, counted from 1, with the text that the line printed.
pub fn frame_of(alloc: Global, number: u64, answer: &Answer, text: &[u8]) -> Result<Vec<u8>, Errno>
    ensures ok { IfOk result (λ bytes. bytes.items ≡ frame_of number answer.now text.now) }
    ensures memory_alone { IsOkUnless result Errno.NoMemory }
{
    match answer {
        Answer::Text => frame(alloc, b'=', text),
        Answer::Refused(fault) => {
            let line = refused_line(alloc, number, fault)?;
            frame(alloc, b'!', &line)
        }
    }
}

/// `refused LINE COLUMN KIND`.
fn refused_line(alloc: Global, number: u64, fault: &Spot) -> Result<Vec<u8>, Errno>
    ensures ok { IfOk result (λ bytes. bytes.items ≡ refused_line number fault.now) }
    ensures memory_alone { IsOkUnless result Errno.NoMemory }
{
    let mut line = b"refused ".to_vec(alloc)?;
    put_decimal(number, &mut line)?;
    line.push(b' ')?;
    put_decimal(u64::from(fault.column), &mut line)?;
    line.push(b' ')?;
    line.extend_from_slice(fault.kind.word().as_bytes())?;
    line.push(b'\n')?;
    Ok(line)
}

fn frame(alloc: Global, mark: u8, text: &[u8]) -> Result<Vec<u8>, Errno>
    ensures ok { IfOk result (λ bytes. bytes.items ≡ frame mark text.now) }
    ensures memory_alone { IsOkUnless result Errno.NoMemory }
{
    let mut frame = Vec::new(alloc);
    frame.push(mark)?;
    frame.push(b' ')?;
    put_decimal(text.len() as u64, &mut frame)?;
    frame.push(b'\n')?;
    frame.extend_from_slice(text)?;
    Ok(frame)
}
