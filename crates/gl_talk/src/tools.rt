//! The words of a tool's statement.
ghost use Rattle.std.specs.Prelude.{Some, None, true, IsErrOf, ◌≡◌, ◌+◌, ◌<◌, ◌^◌, ◌++◌, length, IfOk, OnOk, IsOkUnless, map};
ghost use Rattle.gl_args.specs.Items.{texts};
ghost use Rattle.gl_args.specs.Options.{tool_in};
ghost use Rattle.gl_args.specs.Tools.{tool_said};
ghost use Rattle.gl_base.specs.Words.{text_at, words_at};
ghost use Rattle.gl_script.specs.Said.{keyword_said};
ghost use Rattle.gl_script.specs.Table.{keyword_of};
ghost use Rattle.gl_talk.specs.Copied.{words_of};
ghost use Rattle.gl_talk.specs.ToolWords.{can_be_started, kind_of, name_said, names_tool, turns_said, usage_text, word_texts};
ghost use Rattle.gl_talk.specs.Words.{behind_two, turns_word};

use crate::copied::CopiedStatement;
use crate::words::behind_two;
use gl_args::{ArgFault, Tool, read_tool};
use gl_base::{ByteList, Errno, Name, next_word};
use gl_script::Said;
use std::alloc::Global;

/// What kind of statement a word begins.
#[derive(Clone, Copy)]
pub enum StatementKind {
    /// It asks for one operation at most.
    Plain,
    /// It is a tool's own.
    ToolAlone,
    /// It starts a tool.
    Starting,
    /// It lets a tool make a step.
    Stepping,
    /// It stops a tool.
    Stopping,
}

/// The kind of a statement.
pub fn kind_of(line: &CopiedStatement) -> StatementKind
    ensures { result ≡ kind_of (keyword_of (text_at 0 (words_of line.now))) }
{
    kind_said(&line.said)
}

/// The kind of what a statement says.
fn kind_said(said: &Said) -> StatementKind
    ensures { result ≡ kind_of (Some (keyword_said said.now)) }
{
    match said {
        Said::Detect | Said::Info | Said::Get | Said::Set => StatementKind::ToolAlone,
        Said::Start { .. } => StatementKind::Starting,
        Said::Step { .. } => StatementKind::Stepping,
        Said::Stop { .. } => StatementKind::Stopping,
        Said::Probe { .. }
        | Said::Unplug { .. }
        | Said::MakeDir { .. }
        | Said::RemoveDir { .. }
        | Said::Write { .. }
        | Said::Read { .. }
        | Said::Clock { .. }
        | Said::Fault { .. }
        | Said::Accept { .. }
        | Said::Aggregate { .. }
        | Said::Pin { .. }
        | Said::Irq { .. }
        | Said::Open { .. }
        | Said::Ioctl { .. }
        | Said::Events { .. }
        | Said::OldIoctl { .. }
        | Said::OldEvents { .. }
        | Said::Changes { .. }
        | Said::Poll
        | Said::Close => StatementKind::Plain,
    }
}

/// How many turns the tool of a `step` makes.
pub fn turns_of(line: &CopiedStatement) -> u32
    requires { kind_of (keyword_of (text_at 0 (words_of line.now))) ≡ StatementKind.Stepping }
    ensures { result ≡ turns_word (text_at 2 (words_of line.now)) }
{
    turns_said(&line.said)
}

/// How many turns a step has.
fn turns_said(said: &Said) -> u32
    requires { kind_of (Some (keyword_said said.now)) ≡ StatementKind.Stepping }
    ensures { turns_said said.now ≡ Some result }
{
    match said {
        Said::Step { turns, .. } => *turns,
        _ => unreachable!(),
    }
}

/// The name of the tool that a statement starts, lets make a step or stops.
pub fn tool_name(line: &CopiedStatement) -> Name
    requires { names_tool (kind_of (keyword_of (text_at 0 (words_of line.now)))) ≡ true }
    ensures { result ≡ text_at 1 (words_of line.now) }
{
    name_said(&line.said)
}

/// The tool's name in what such a statement says.
fn name_said(said: &Said) -> Name
    requires { names_tool (kind_of (Some (keyword_said said.now))) ≡ true }
    ensures { name_said said.now ≡ Some result }
{
    match said {
        Said::Start { name } => *name,
        Said::Step { name, .. } => *name,
        Said::Stop { name } => *name,
        _ => unreachable!(),
    }
}

/// `TOOL: usage`.
pub fn usage_text(alloc: Global, tool: &[u8]) -> Result<ByteList, Errno>
    ensures ok { IfOk result (λ text. text ≡ usage_text tool.now) }
    ensures memory_alone { IsOkUnless result Errno.NoMemory }
{
    let mut text = ByteList::new(alloc);
    text.push_all(tool)?;
    text.push_all(b": usage")?;
    text.push_all(b"\n")?;
    Ok(text)
}

/// The tool that a line's words are.
pub fn tool_of(alloc: Global, line: &CopiedStatement) -> Result<Tool, ArgFault>
    ensures ok { IfOk result (λ tool. tool_said (word_texts (words_of line.now)) ≡ Some (tool_in tool)) }
    ensures usage { IsErrOf result ArgFault.Usage → tool_said (word_texts (words_of line.now)) ≡ None }
{
    match words_of(alloc, line) {
        Ok(words) => read_tool(alloc, &words),
        Err(_) => Err(ArgFault::NoMemory),
    }
}

/// The tool that the words of a `start` after its name are: one that can be started.
pub fn started_tool_of(alloc: Global, line: &CopiedStatement) -> Result<Tool, ArgFault>
    requires { kind_of (keyword_of (text_at 0 (words_of line.now))) ≡ StatementKind.Starting }
    ensures ok { IfOk result (λ tool. tool_said (word_texts (behind_two (words_of line.now))) ≡ Some (tool_in tool)) }
    ensures started { IfOk result (λ tool. can_be_started (tool_in tool) ≡ true) }
    ensures usage { IsErrOf result ArgFault.Usage → tool_said (word_texts (behind_two (words_of line.now))) ≡ None }
{
    match started_words(alloc, line) {
        Ok(words) => read_tool(alloc, &words),
        Err(_) => Err(ArgFault::NoMemory),
    }
}

/// The words of a line.
fn words_of(alloc: Global, line: &CopiedStatement) -> Result<Vec<&[u8]>, Errno>
    ensures ok { IfOk result (λ words. texts words.items ≡ word_texts (words_of line.now)) }
    ensures memory_alone { IsOkUnless result Errno.NoMemory }
{
    words_in(alloc, 1, &line.line)
}

/// The words of a `start` after its name: the tool's.
fn started_words(alloc: Global, line: &CopiedStatement) -> Result<Vec<&[u8]>, Errno>
    requires { kind_of (keyword_of (text_at 0 (words_of line.now))) ≡ StatementKind.Starting }
    ensures ok { IfOk result (λ words. texts words.items ≡ word_texts (behind_two (words_of line.now))) }
    ensures memory_alone { IsOkUnless result Errno.NoMemory }
{
    let rest = behind_two(&line.line);
    words_in(alloc, rest.at, rest.line)
}

fn words_in(alloc: Global, at: usize, line: &[u8]) -> Result<Vec<&[u8]>, Errno>
    requires { at + length line.now + 1 < 2 ^ 64 }
    ensures ok { IfOk result (λ words. texts words.items ≡ word_texts (words_at at line.now)) }
    ensures memory_alone { IsOkUnless result Errno.NoMemory }
{
    let mut words = Vec::new(alloc);
    let mut at = at;
    let mut rest = line;
    while let Some(found) = next_word(at, rest) {
        words.push(found.word)?;
        at = found.rest_at;
        rest = found.rest;
    }
    Ok(words)
}
