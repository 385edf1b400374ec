//! Texts that every tool prints.
ghost use Rattle.std.specs.Prelude.{◌≡◌, ◌++◌, IfOk, OnOk, IsOkUnless};
ghost use Rattle.gl_args.specs.Names.{tool_text};
ghost use Rattle.gl_lines.specs.Texts.{failed_line, quoted};

use gl_args::ToolName;
use gl_base::{ByteList, Errno};
use std::alloc::Global;

/// The line of a tool that met a refusal, as `gpioget: EBUSY`.
pub fn failed_line(alloc: Global, tool: ToolName, errno: Errno) -> Result<ByteList, Errno>
    ensures ok { IfOk result (λ text. text ≡ failed_line (tool_text tool) errno) }
    ensures memory_alone { IsOkUnless result Errno.NoMemory }
{
    let mut text = ByteList::new(alloc);
    text.push_all(tool.text().as_bytes())?;
    text.push_all(b": ")?;
    text.push_all(errno.name().as_bytes())?;
    text.push_all(b"\n")?;
    Ok(text)
}

/// Appends a word in quotes, or without them.
pub fn put_quoted(unquoted: bool, word: &[u8], text: &mut ByteList) -> Result<(), Errno>
    ensures ok { OnOk result (text.new ≡ text.old ++ quoted unquoted word.now) }
    ensures memory_alone { IsOkUnless result Errno.NoMemory }
{
    if unquoted {
        return text.push_all(word);
    }
    text.push_all(b"\"")?;
    text.push_all(word)?;
    text.push_all(b"\"")
}
