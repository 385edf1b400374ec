//! The statements of the first uAPI: which call of v2 each makes, and how its result goes back.
ghost use Rattle.std.specs.Prelude.{◌≡◌, ◌+◌, ◌*◌, ◌/◌, ◌<◌, ◌≤◌, ◌++◌, length, IfSome, IsSome, true, IfOk, OnOk, IsOkUnless};
ghost use Rattle.gl_base.specs.BytesText.{bytes_text};
ghost use Rattle.gl_uapi.specs.Fields.{stretch, zeros};
ghost use Rattle.gl_v1.specs.Back.{back, events_back};
ghost use Rattle.gl_v1.specs.Commands.{command_for, size_of};
ghost use Rattle.gl_v1.specs.To.{without_bytes};
ghost use Rattle.gl_talk.specs.Copied.{words_of};
ghost use Rattle.gl_talk.specs.Old.{first_bytes, kind_v1, made_kind, old_edge_line, old_edge_lines, old_edge_word, old_edges_text, old_structure, old_structure_text, sent_new, sent_old};
ghost use Rattle.gl_talk.specs.SaidActions.{old_bytes_reply_said, old_command_reply_said};
ghost use Rattle.gl_talk.specs.Words.{behind_three, bytes_said, is_command};

use crate::actions::SaidFormat;
use crate::copied::CopiedStatement;
use crate::files::TalkFileKind;
use crate::replies::line_of;
use crate::words::first_bytes;
use gl_base::command::{GET_CHIPINFO, GET_LINE, GET_LINEINFO, LINE_GET_VALUES};
use gl_base::{ByteList, Errno, Name, put_bytes, put_decimal};
use gl_uapi::fields::{bytes_at, u32_at, u64_at};
use gl_v1::layout::{V1_DATA_ID, V1_DATA_TIMESTAMP, V1_EVENT_DATA_SIZE, V1_HANDLE_LINES};
use gl_v1::{CommandV1, KindV1, Sent};
use std::alloc::Global;

/// How many bytes the read of a statement asks for at most.
const READ_MAX: usize = 49_152;

/// How many bytes an edge of v2 has.
const EDGE_SIZE: usize = 48;

/// No command, without bytes.
#[tactic(auto, unfolding(gl_uapi::specs::Fields::zeros))]
fn no_command() -> Sent
    ensures { result ≡ without_bytes 0 }
{
    Sent {
        cmd: 0,
        len: 0,
        bytes: [0; 592],
    }
}

/// What `ioctl` sends: a file of the first uAPI has no command of v2.
pub fn sent_new(kind: TalkFileKind, command: u32, bytes: &[u8]) -> Sent
    ensures { result ≡ sent_new kind command bytes.now }
{
    match kind {
        TalkFileKind::Chip | TalkFileKind::Request => Sent {
            cmd: command,
            len: bytes.len().min(1024) as u32,
            bytes: first_bytes(bytes),
        },
        TalkFileKind::Old(_) => no_command(),
    }
}

/// What `ioctl1` sends: a request of v2 has no command of the first uAPI.
pub fn sent_old(kind: TalkFileKind, command: u32, bytes: &[u8]) -> Sent
    ensures { result ≡ sent_old kind command bytes.now }
{
    match kind {
        TalkFileKind::Chip => gl_v1::send(KindV1::Chip, command, bytes),
        TalkFileKind::Request => no_command(),
        TalkFileKind::Old(kind) => gl_v1::send(kind, command, bytes),
    }
}

fn kind_v1(kind: TalkFileKind) -> KindV1
    ensures { result ≡ kind_v1 kind }
{
    match kind {
        TalkFileKind::Chip | TalkFileKind::Request => KindV1::Chip,
        TalkFileKind::Old(kind) => kind,
    }
}

/// How the result of what was sent is told, by the command and the bytes that the statement says; a file that is made has this name.
pub fn old_reply(
    kind: TalkFileKind,
    command: u32,
    said: &[u8],
    name: &Name,
    number: u32,
) -> SaidFormat
    ensures { result ≡ old_command_reply_said kind command said.now name.now number }
{
    if number == GET_LINE {
        return SaidFormat::OldMade(made_kind(command, said), *name);
    }
    old_bytes_reply(kind, command, number)
}

/// How it is told where no file is made.
pub fn old_bytes_reply(kind: TalkFileKind, command: u32, number: u32) -> SaidFormat
    ensures { result ≡ old_bytes_reply_said kind command number }
{
    match number {
        GET_CHIPINFO | GET_LINEINFO | LINE_GET_VALUES => SaidFormat::OldBytes {
            kind: kind_v1(kind),
            command,
        },
        _ => SaidFormat::Silent,
    }
}

/// The kind of the file that is made: a handle has the lines that its request says.
fn made_kind(command: u32, said: &[u8]) -> TalkFileKind
    ensures { result ≡ made_kind command said.now }
{
    if command == gl_v1::LINE_EVENT {
        return TalkFileKind::Old(KindV1::Event);
    }
    TalkFileKind::Old(KindV1::Handle(u32_at(&first_bytes(said), V1_HANDLE_LINES)))
}

/// The bytes of the structure of this command, by the bytes that its statement says, with what came back, as a line.
pub fn old_structure_line(
    alloc: Global,
    kind: KindV1,
    command: u32,
    line: &CopiedStatement,
    got: &[u8],
) -> Result<ByteList, Errno>
    requires { is_command line.now.said ≡ true }
    ensures ok { IfOk result (λ printed. printed ≡ old_structure_text kind command (bytes_said (behind_three (words_of line.now))) got.now) }
    ensures memory_alone { IsOkUnless result Errno.NoMemory }
{
    old_structure_text(alloc, kind, command, line.command_bytes(), got)
}

/// The bytes of a structure of the first uAPI, as a line.
fn old_structure_text(
    alloc: Global,
    kind: KindV1,
    command: u32,
    said: &[u8],
    got: &[u8],
) -> Result<ByteList, Errno>
    ensures ok { IfOk result (λ printed. printed ≡ old_structure_text kind command said.now got.now) }
    ensures memory_alone { IsOkUnless result Errno.NoMemory }
{
    let mut text = Vec::new(alloc);
    put_structure(kind, command, said, got, &mut text)?;
    line_of(alloc, &text)
}

/// The bytes of the structure that a command has on a file of a kind; none where it has no such command.
#[tactic(auto, using(crate::proofs::OldSizes::size_fits))]
fn put_structure(
    kind: KindV1,
    command: u32,
    said: &[u8],
    got: &[u8],
    text: &mut Vec<u8>,
) -> Result<(), Errno>
    ensures ok { OnOk result (text.new.items ≡ text.old.items ++ old_structure (command_for kind command) kind command said.now got.now) }
    ensures memory_alone { IsOkUnless result Errno.NoMemory }
{
    match CommandV1::of(kind, command) {
        Some(found) => {
            let mut structure = first_bytes(said);
            put_back(
                kind,
                command,
                got,
                &mut structure[..found.size() as usize],
                text,
            )
        }
        None => Ok(()),
    }
}

/// The bytes of a structure with what came back in v2.
fn put_back(
    kind: KindV1,
    command: u32,
    got: &[u8],
    structure: &mut [u8],
    text: &mut Vec<u8>,
) -> Result<(), Errno>
    requires command { IsSome (command_for kind command) }
    requires size { IfSome (command_for kind command) (λ found. length structure.old ≡ size_of found) }
    ensures ok { OnOk result (text.new.items ≡ text.old.items ++ bytes_text (back kind command (first_bytes got.now) structure.old)) }
    ensures memory_alone { IsOkUnless result Errno.NoMemory }
{
    gl_v1::receive(kind, command, &first_bytes(got), structure);
    put_bytes(structure, text)
}

/// The edges that were read, a line each, as they go back.
pub fn old_edges_text(alloc: Global, bytes: &[u8]) -> Result<ByteList, Errno>
    ensures ok { IfOk result (λ printed. printed ≡ old_edges_text bytes.now) }
    ensures memory_alone { IsOkUnless result Errno.NoMemory }
{
    let mut text = Vec::new(alloc);
    if bytes.len() <= READ_MAX {
        put_edges(bytes, &mut text)?;
    }
    Ok(ByteList::of(text))
}

fn put_edges(bytes: &[u8], text: &mut Vec<u8>) -> Result<(), Errno>
    requires { length bytes.now ≤ 49152 }
    ensures ok { OnOk result (text.new.items ≡ text.old.items ++ old_edge_lines bytes.now 0 (length bytes.now / 48)) }
    ensures memory_alone { IsOkUnless result Errno.NoMemory }
{
    for i in 0..bytes.len() / EDGE_SIZE {
        put_edge_at(bytes, i, text)?;
    }
    Ok(())
}

fn put_edge_at(bytes: &[u8], i: usize, text: &mut Vec<u8>) -> Result<(), Errno>
    requires long { length bytes.now ≤ 49152 }
    requires there { i < length bytes.now / 48 }
    ensures ok { OnOk result (text.new.items ≡ text.old.items ++ old_edge_line (events_back (stretch (48 * i) 48 bytes.now) (zeros 16))) }
    ensures memory_alone { IsOkUnless result Errno.NoMemory }
{
    put_edge(bytes_at(bytes, EDGE_SIZE * i, EDGE_SIZE), text)
}

#[tactic(auto, unfolding(gl_uapi::specs::Fields::zeros))]
fn put_edge(edge: &[u8], text: &mut Vec<u8>) -> Result<(), Errno>
    requires { length edge.now ≡ 48 }
    ensures ok { OnOk result (text.new.items ≡ text.old.items ++ old_edge_line (events_back edge.now (zeros 16))) }
    ensures memory_alone { IsOkUnless result Errno.NoMemory }
{
    let mut event = [0; V1_EVENT_DATA_SIZE];
    gl_v1::events(edge, &mut event);
    put_old_edge(&event, text)
}

fn put_old_edge(event: &[u8; V1_EVENT_DATA_SIZE], text: &mut Vec<u8>) -> Result<(), Errno>
    ensures ok { OnOk result (text.new.items ≡ text.old.items ++ old_edge_line event.now) }
    ensures memory_alone { IsOkUnless result Errno.NoMemory }
{
    put_decimal(u64_at(event, V1_DATA_TIMESTAMP), text)?;
    text.extend_from_slice(old_edge_word(u32_at(event, V1_DATA_ID)))?;
    text.push(b'\n')?;
    Ok(())
}

fn old_edge_word(id: u32) -> &'static [u8]
    ensures { result.now ≡ old_edge_word id }
{
    if id == 1 { b" rising" } else { b" falling" }
}
