//! Lines of text, and the one that a refused session prints.
ghost use Rattle.std.specs.Prelude.{◌≡◌, ◌++◌, OnOk, IsOkUnless};
ghost use Rattle.gl_session.specs.Lines.{numbered_line, text_line};
ghost use Rattle.gl_session.specs.Run.{refused_line};

use gl_base::{Errno, put_decimal};
use gl_script::Refusal;

/// Appends the line that a refused session prints. `NoMemory` alone is refused.
pub fn put_refusal(refusal: &Refusal, out: &mut Vec<u8>) -> Result<(), Errno>
    ensures text { OnOk result (out.new.items ≡ out.old.items ++ refused_line refusal.now) }
    ensures memory_alone { IsOkUnless result Errno.NoMemory }
{
    out.extend_from_slice(b"refused ")?;
    put_decimal(u64::from(refusal.line), out)?;
    out.push(b' ')?;
    put_decimal(u64::from(refusal.column), out)?;
    out.push(b' ')?;
    put_line(refusal.kind.word().as_bytes(), out)
}

/// Appends a text and the end of its line. `NoMemory` alone is refused.
pub fn put_line(text: &[u8], out: &mut Vec<u8>) -> Result<(), Errno>
    ensures text { OnOk result (out.new.items ≡ out.old.items ++ text_line text.now) }
    ensures memory_alone { IsOkUnless result Errno.NoMemory }
{
    out.extend_from_slice(text)?;
    out.push(b'\n')?;
    Ok(())
}

/// Appends the line of a text and a number. `NoMemory` alone is refused.
pub fn put_numbered(text: &[u8], number: u64, out: &mut Vec<u8>) -> Result<(), Errno>
    ensures text { OnOk result (out.new.items ≡ out.old.items ++ numbered_line text.now number) }
    ensures memory_alone { IsOkUnless result Errno.NoMemory }
{
    out.extend_from_slice(text)?;
    out.push(b' ')?;
    put_decimal(number, out)?;
    out.push(b'\n')?;
    Ok(())
}
