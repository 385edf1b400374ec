//! What a statement that is no tool's asks of the device.
//!
//! An action has some 600 bytes, and a function begins by zeroing each value of that size that any of its branches makes. So a branch
//! that makes an action is a function.

ghost use Rattle.std.specs.Prelude.{◌≡◌, ◌*◌, ◌/◌, ◌<◌, ◌≤◌, map, is_some, Some, option_map, option_copied, IfSome, true, false};
ghost use Rattle.gl_base.specs.Words.{text_at};
ghost use Rattle.gl_script.specs.Said.{keyword_said};
ghost use Rattle.gl_talk.specs.Copied.{words_of};
ghost use Rattle.gl_talk.specs.Open.{file_in, file_of, is_chip, is_old_event, is_request};
ghost use Rattle.gl_talk.specs.Paths.{line_file, live_device};
ghost use Rattle.gl_talk.specs.Actions.{is_out_of_place};
ghost use Rattle.gl_talk.specs.SaidActions.{action_said, action_said_here, asks_for_said, bytes_reply_said, closes_said, command_reply_said, ioctls_bytes_said, ioctls_said, lives_said, old_ioctls_bytes_said, old_ioctls_said, old_reply_said, opens_said, polls_said, read_if_said, reads_file_said, reads_said, reply_said, takes, writes_line_said, writes_said, writes_tree_said};
ghost use Rattle.gl_talk.specs.ToolWords.{kind_of};
ghost use Rattle.gl_talk.specs.Words.{behind_three, bytes_said, is_command, is_on_file};
ghost use Rattle.gl_talk.specs.declared.tools.StatementKind.TheVariants.{Plain};

use crate::copied::CopiedStatement;
use crate::files::{TalkFile, TalkFileKind, file_of, has_file, is_chip, is_old_event, is_request};
use crate::joining::aggregates;
use crate::old::{old_bytes_reply, old_reply, sent_new, sent_old};
use crate::paths::{LineFile, line_file, live_device};
use crate::words::{file_name, live_word, pull_word};
use gl_base::command::{GET_CHIPINFO, GET_LINE, GET_LINEINFO, GET_LINEINFO_WATCH, LINE_GET_VALUES};
use gl_base::{Do, Errno, IrqDo, Name, Path, PinDo};
use gl_script::Said;
use gl_v1::{KindV1, Sent};

/// How the result of an operation is told. A refusal is told by the error's name.
#[derive(Clone, Copy)]
pub enum SaidFormat {
    /// Nothing is printed.
    Silent,
    /// A value of the tree.
    Value,
    /// A line's value, or its pull.
    Level(bool),
    /// The bytes of the structure of the command with this number.
    Bytes(u32),
    /// The edges that were read, a line each.
    Edges,
    /// The changes that were read, a line each.
    Infos,
    /// What is ready.
    Ready,
    /// Nothing is printed; the chip's file has this name.
    Opened(Name),
    /// Nothing is printed; the name is free.
    Closed,
    /// `fd N`; the request has this name.
    Made(Name),
    /// The bytes of the structure of a command of the first uAPI.
    OldBytes {
        /// The kind of the file.
        kind: KindV1,
        /// The command's number in the first uAPI.
        command: u32,
    },
    /// The edges that were read, a line each, as the first uAPI has them.
    OldEdges,
    /// `fd N`; the file of the first uAPI, of this kind, has this name.
    OldMade(TalkFileKind, Name),
}

/// What a statement does first.
#[derive(Clone, Copy)]
pub enum SaidAction {
    /// Nothing: so the definitions say it of a tool's own statements, which have no action here.
    Nothing,
    /// It is refused without a call.
    Refuse(Errno),
    /// It asks for one operation, and tells the result.
    Ask(Do, SaidFormat),
}

/// What a statement that is no tool's does first in its section. `slot` is a slot of its own.
pub fn action_here(
    in_setup: bool,
    files: &[TalkFile],
    slot: u32,
    line: &CopiedStatement,
) -> SaidAction
    requires { kind_of (Some (keyword_said line.now.said)) ≡ Plain }
    ensures { result ≡ action_said_here in_setup line.now.said (map file_in files.now) slot (words_of line.now) }
{
    if is_out_of_place(in_setup, &line.said) {
        return refuses(Errno::Inval);
    }
    action_said(files, slot, line)
}

/// Whether a statement is an `aggregate` that stands in another section than `setup`.
fn is_out_of_place(in_setup: bool, said: &Said) -> bool
    ensures { result ≡ is_out_of_place in_setup (Some (keyword_said said.now)) }
{
    said.is_aggregate() && !in_setup
}

/// What a statement that is no tool's does first, wherever it stands: one row a statement.
fn action_said(files: &[TalkFile], slot: u32, line: &CopiedStatement) -> SaidAction
    requires { kind_of (Some (keyword_said line.now.said)) ≡ Plain }
    ensures { result ≡ action_said line.now.said (map file_in files.now) slot (words_of line.now) }
{
    match &line.said {
        Said::Probe { label, lines } => probes(label, *lines),
        Said::Unplug { chip } => unplugs(*chip),
        Said::MakeDir { path } => makes_dir(path),
        Said::RemoveDir { path } => removes_dir(path),
        Said::Write { path, value } => writes(path, value),
        Said::Read { path } => reads(path),
        Said::Clock { mono, real } => ticks(*mono, *real),
        Said::Fault { nth } => plans(*nth),
        Said::Accept { bits } => accepts(*bits),
        Said::Aggregate { label } => aggregates(label, files, line),
        Said::Pin { chip, what } => pins(*chip, *what),
        Said::Irq { what, chip, offset } => irqs(*what, *chip, *offset),
        Said::Open { name, word } => opens(has_file(files, name.as_bytes()), slot, name, word),
        Said::Ioctl { command, made } => commands(files, slot, *command, made, line),
        Said::Events { len } => events(file_on(files, line), *len),
        Said::OldIoctl { command, made } => old_commands(files, slot, *command, made, line),
        Said::OldEvents { len } => old_events(file_on(files, line), *len),
        Said::Changes { len } => changes(file_on(files, line), *len),
        Said::Poll => polls(file_on(files, line)),
        Said::Close => closes(file_on(files, line)),
        Said::Detect
        | Said::Info
        | Said::Get
        | Said::Set
        | Said::Start { .. }
        | Said::Step { .. }
        | Said::Stop { .. } => unreachable!(),
    }
}

/// The file that a statement is on, if there is one of its name.
fn file_on(files: &[TalkFile], line: &CopiedStatement) -> Option<TalkFile>
    requires { is_on_file line.now.said ≡ true }
    ensures { option_map file_in result ≡ file_of (text_at 1 (words_of line.now)) (map file_in files.now) }
{
    file_of(files, file_name(line))
}

fn unplugs(chip: u8) -> SaidAction
    ensures { result ≡ SaidAction.Ask (Do.Unplug chip) SaidFormat.Silent }
{
    SaidAction::Ask(Do::Unplug { place: chip }, SaidFormat::Silent)
}

fn makes_dir(path: &Path) -> SaidAction
    ensures { result ≡ SaidAction.Ask (Do.MakeDir path.now) SaidFormat.Silent }
{
    SaidAction::Ask(Do::MakeDir(*path), SaidFormat::Silent)
}

fn removes_dir(path: &Path) -> SaidAction
    ensures { result ≡ SaidAction.Ask (Do.RemoveDir path.now) SaidFormat.Silent }
{
    SaidAction::Ask(Do::RemoveDir(*path), SaidFormat::Silent)
}

fn ticks(mono: u64, real: u64) -> SaidAction
    ensures { result ≡ SaidAction.Ask (Do.Tick mono real) SaidFormat.Silent }
{
    SaidAction::Ask(Do::Tick { mono, real }, SaidFormat::Silent)
}

fn plans(nth: u32) -> SaidAction
    ensures { result ≡ SaidAction.Ask (Do.Plan nth) SaidFormat.Silent }
{
    SaidAction::Ask(Do::Plan { nth }, SaidFormat::Silent)
}

fn accepts(bits: u64) -> SaidAction
    ensures { result ≡ SaidAction.Ask (Do.Accept bits) SaidFormat.Silent }
{
    SaidAction::Ask(Do::Accept { bits }, SaidFormat::Silent)
}

fn pins(place: u8, what: PinDo) -> SaidAction
    ensures { result ≡ SaidAction.Ask (Do.Pin place what) SaidFormat.Silent }
{
    SaidAction::Ask(Do::Pin { place, what }, SaidFormat::Silent)
}

fn irqs(what: IrqDo, place: u8, offset: u32) -> SaidAction
    ensures { result ≡ SaidAction.Ask (Do.Irq place offset what) SaidFormat.Silent }
{
    SaidAction::Ask(
        Do::Irq {
            place,
            offset,
            what,
        },
        SaidFormat::Silent,
    )
}

/// It is refused without a call.
pub fn refuses(errno: Errno) -> SaidAction
    ensures { result ≡ SaidAction.Refuse errno }
{
    SaidAction::Refuse(errno)
}

fn probes(label: &Name, lines: u32) -> SaidAction
    ensures { result ≡ SaidAction.Ask (Do.Probe label.now lines) SaidFormat.Silent }
{
    SaidAction::Ask(
        Do::Probe {
            label: *label,
            lines,
        },
        SaidFormat::Silent,
    )
}

fn reads(path: &Path) -> SaidAction
    ensures { result ≡ reads_said (line_file path.now) path.now }
{
    match line_file(path.as_bytes()) {
        Some(file) => reads_line(&file),
        None => SaidAction::Ask(Do::Read(*path), SaidFormat::Value),
    }
}

fn reads_line(file: &LineFile) -> SaidAction
    ensures { result ≡ SaidAction.Ask (Do.Level file.now.chip file.now.offset file.now.is_pull) (SaidFormat.Level file.now.is_pull) }
{
    SaidAction::Ask(
        Do::Level {
            place: file.chip,
            offset: file.offset,
            pull: file.is_pull,
        },
        SaidFormat::Level(file.is_pull),
    )
}

fn writes(path: &Path, value: &Name) -> SaidAction
    ensures { result ≡ writes_said (line_file path.now) path.now value.now }
{
    match line_file(path.as_bytes()) {
        Some(file) => writes_line(&file, value.as_bytes()),
        None => writes_tree(path, value),
    }
}

fn writes_line(file: &LineFile, value: &[u8]) -> SaidAction
    ensures { result ≡ writes_line_said file.now value.now }
{
    if !file.is_pull {
        return refuses(Errno::Perm);
    }
    match pull_word(value) {
        Some(up) => SaidAction::Ask(
            Do::Pull {
                place: file.chip,
                offset: file.offset,
                up,
            },
            SaidFormat::Silent,
        ),
        None => refuses(Errno::Inval),
    }
}

fn writes_tree(path: &Path, value: &Name) -> SaidAction
    ensures { result ≡ writes_tree_said (live_device path.now) path.now value.now }
{
    match live_device(path.as_bytes()) {
        Some(device) => lives(&device, live_word(value.as_bytes())),
        None => writes_value(path, value),
    }
}

fn writes_value(path: &Path, value: &Name) -> SaidAction
    ensures { result ≡ SaidAction.Ask (Do.Write path.now value.now) SaidFormat.Silent }
{
    SaidAction::Ask(
        Do::Write {
            path: *path,
            value: *value,
        },
        SaidFormat::Silent,
    )
}

fn lives(device: &Name, up: Option<bool>) -> SaidAction
    ensures { result ≡ lives_said device.now up }
{
    match up {
        Some(up) => SaidAction::Ask(
            Do::Live {
                device: *device,
                up,
            },
            SaidFormat::Silent,
        ),
        None => refuses(Errno::Inval),
    }
}

fn opens(is_taken: bool, slot: u32, name: &Name, word: &Path) -> SaidAction
    ensures { result ≡ opens_said is_taken slot name.now word.now }
{
    if is_taken {
        return refuses(Errno::Exist);
    }
    SaidAction::Ask(
        Do::OpenChip { slot, word: *word },
        SaidFormat::Opened(*name),
    )
}

/// Whether a command makes a file, and its name is one that the actor has.
fn takes(made: &Option<Name>, files: &[TalkFile]) -> bool
    ensures { result ≡ takes made.now (map file_in files.now) }
{
    match made {
        Some(name) => has_file(files, name.as_bytes()),
        None => false,
    }
}

/// How the result of a command is told: only one with a name behind `as` makes a file.
fn reply_said(made: &Option<Name>, number: u32) -> SaidFormat
    ensures { result ≡ reply_said made.now number }
{
    match made {
        Some(name) => command_reply(number, name),
        None => bytes_reply(number),
    }
}

/// How the result of a command is told that may make a file, which has this name.
fn command_reply(number: u32, name: &Name) -> SaidFormat
    ensures { result ≡ command_reply_said number name.now }
{
    if number == GET_LINE {
        return SaidFormat::Made(*name);
    }
    bytes_reply(number)
}

/// How the result of a command is told that makes no file.
fn bytes_reply(number: u32) -> SaidFormat
    ensures { result ≡ bytes_reply_said number }
{
    match number {
        GET_CHIPINFO | GET_LINEINFO | GET_LINEINFO_WATCH | LINE_GET_VALUES => {
            SaidFormat::Bytes(number)
        }
        _ => SaidFormat::Silent,
    }
}

fn commands(
    files: &[TalkFile],
    slot: u32,
    command: u32,
    made: &Option<Name>,
    line: &CopiedStatement,
) -> SaidAction
    requires file { is_on_file line.now.said ≡ true }
    requires command { is_command line.now.said ≡ true }
    ensures { result ≡ ioctls_said (file_of (text_at 1 (words_of line.now)) (map file_in files.now)) slot command made.now (map file_in files.now) (bytes_said (behind_three (words_of line.now))) }
{
    let Some(file) = file_on(files, line) else {
        return refuses(Errno::BadF);
    };
    if takes(made, files) {
        return refuses(Errno::Exist);
    }
    ioctls_bytes(&file, slot, command, made, line.command_bytes())
}

fn ioctls_bytes(
    file: &TalkFile,
    slot: u32,
    command: u32,
    made: &Option<Name>,
    bytes: &[u8],
) -> SaidAction
    ensures { result ≡ ioctls_bytes_said (file_in file.now) slot command made.now bytes.now }
{
    let sent = sent_new(file.kind, command, bytes);
    let reply = reply_said(made, sent.cmd);
    asks_for(file, slot, &sent, &reply)
}

/// A call of v2 on a file.
fn asks_for(file: &TalkFile, slot: u32, sent: &Sent, reply: &SaidFormat) -> SaidAction
    ensures { result ≡ asks_for_said (file_in file.now) slot sent.now reply.now }
{
    SaidAction::Ask(
        Do::Ioctl {
            slot: file.slot,
            cmd: sent.cmd,
            len: sent.len,
            bytes: sent.bytes,
            made: slot,
        },
        *reply,
    )
}

fn old_commands(
    files: &[TalkFile],
    slot: u32,
    command: u32,
    made: &Option<Name>,
    line: &CopiedStatement,
) -> SaidAction
    requires file { is_on_file line.now.said ≡ true }
    requires command { is_command line.now.said ≡ true }
    ensures { result ≡ old_ioctls_said (file_of (text_at 1 (words_of line.now)) (map file_in files.now)) slot command made.now (map file_in files.now) (bytes_said (behind_three (words_of line.now))) }
{
    let Some(file) = file_on(files, line) else {
        return refuses(Errno::BadF);
    };
    if takes(made, files) {
        return refuses(Errno::Exist);
    }
    old_ioctls_bytes(&file, slot, command, made, line.command_bytes())
}

fn old_ioctls_bytes(
    file: &TalkFile,
    slot: u32,
    command: u32,
    made: &Option<Name>,
    bytes: &[u8],
) -> SaidAction
    ensures { result ≡ old_ioctls_bytes_said (file_in file.now) slot command made.now bytes.now }
{
    let sent = sent_old(file.kind, command, bytes);
    let reply = old_reply_said(made, file.kind, command, bytes, sent.cmd);
    asks_for(file, slot, &sent, &reply)
}

/// How the result of a command of the first uAPI is told: only one with a name behind `as` makes a file.
fn old_reply_said(
    made: &Option<Name>,
    kind: TalkFileKind,
    command: u32,
    bytes: &[u8],
    number: u32,
) -> SaidFormat
    ensures { result ≡ old_reply_said made.now kind command bytes.now number }
{
    match made {
        Some(name) => old_reply(kind, command, bytes, name, number),
        None => old_bytes_reply(kind, command, number),
    }
}

fn events(file: Option<TalkFile>, len: u16) -> SaidAction
    ensures { result ≡ reads_file_said (option_map file_in file) is_request len SaidFormat.Edges }
{
    match file {
        Some(file) => read_if(
            is_request(file.kind),
            file.slot,
            u32::from(len),
            SaidFormat::Edges,
        ),
        None => refuses(Errno::BadF),
    }
}

fn old_events(file: Option<TalkFile>, len: u16) -> SaidAction
    ensures { result ≡ reads_file_said (option_map file_in file) is_old_event (48 * (len / 16)) SaidFormat.OldEdges }
{
    match file {
        Some(file) => read_if(
            is_old_event(file.kind),
            file.slot,
            48 * (u32::from(len) / 16),
            SaidFormat::OldEdges,
        ),
        None => refuses(Errno::BadF),
    }
}

fn changes(file: Option<TalkFile>, len: u16) -> SaidAction
    ensures { result ≡ reads_file_said (option_map file_in file) is_chip len SaidFormat.Infos }
{
    match file {
        Some(file) => read_if(
            is_chip(file.kind),
            file.slot,
            u32::from(len),
            SaidFormat::Infos,
        ),
        None => refuses(Errno::BadF),
    }
}

fn read_if(can_be_read: bool, slot: u32, len: u32, reply: SaidFormat) -> SaidAction
    ensures { result ≡ read_if_said can_be_read slot len reply }
{
    if can_be_read {
        SaidAction::Ask(Do::ReadFile { slot, len }, reply)
    } else {
        refuses(Errno::Inval)
    }
}

fn polls(file: Option<TalkFile>) -> SaidAction
    ensures { result ≡ polls_said (option_map file_in file) }
{
    match file {
        Some(file) => SaidAction::Ask(Do::Poll { slot: file.slot }, SaidFormat::Ready),
        None => refuses(Errno::BadF),
    }
}

fn closes(file: Option<TalkFile>) -> SaidAction
    ensures { result ≡ closes_said (option_map file_in file) }
{
    match file {
        Some(file) => SaidAction::Ask(Do::Close { slot: file.slot }, SaidFormat::Closed),
        None => refuses(Errno::BadF),
    }
}
