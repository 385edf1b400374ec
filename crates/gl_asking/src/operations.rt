//! What each operation is on the device.
//!
//! A call has some 600 bytes, and a function begins by zeroing each value of that size that any of its branches makes. So a branch that
//! makes a call is a function.

ghost use Rattle.std.specs.Prelude.{◌≡◌, ◌≤◌, ◌<◌, List, None, Some, true};
ghost use Rattle.gl_base.specs.declared.errno.Errno.TheVariants.{BadF};
ghost use Rattle.gl_base.specs.declared.limits.TheConstants.{LINES_MAX, PLACES};
ghost use Rattle.gl_model.specs.Fits.{FitsCall};
ghost use Rattle.gl_model.specs.Parts.{is_single};
ghost use Rattle.gl_model.specs.declared.call.Call.TheVariants.{Close, Find, Irq, Level, MakeDir, OpenChip, Pin, Pull, Read, RemoveDir, Tick, Write};
ghost use Rattle.gl_model.specs.declared.device_call.DeviceCall.TheVariants.{Commanding, Removing};
ghost use Rattle.gl_model.specs.declared.device_call.RemovalOf.TheVariants.{OfChip};
ghost use Rattle.gl_asking.specs.Fitting.{FitsAsking, FitsDevice};
ghost use Rattle.gl_asking.specs.declared.kinds.Asking.TheVariants.{Calls, Refuses};
ghost use Rattle.gl_asking.specs.Asking.{asking, at_place, buffer_of, file_for, has_lines, lives, on_file, once, polls, probes, reads_from};
ghost use Rattle.gl_asking.specs.Files.{OpenFile, file_at};
ghost use Rattle.gl_asking.specs.Handed.{command_in};
ghost use Rattle.gl_asking.specs.Rows.{AsksOn, IsRow, IsSomeRow, file_of, row_file};

use crate::commanding::{command_on, is_chip};
use crate::kinds::{Asking, FileRow};
use gl_base::{Do, Errno, IrqDo, Kind, LINES_MAX, Name, PLACES, Path, PinDo};
use gl_model::{Call, DeviceCall, RemovalOf};
use gl_uapi::layout::LINE_REQUEST_SIZE;

/// A simulated chip may have so many lines.
fn has_lines(lines: u32) -> bool
    ensures told { result ≡ has_lines lines }
    ensures some { result ≡ true → (1 ≤ lines) × (lines ≤ LINES_MAX) }
{
    1 <= lines && lines <= LINES_MAX
}

/// A chip of so many lines.
fn probes(label: Name, lines: u32) -> Asking
    ensures told { result ≡ probes label lines }
    ensures fits { FitsAsking result }
{
    // That a name is one is known once it is read.
    let _name = label.as_bytes();
    if !has_lines(lines) {
        return Asking::Refuses(Errno::Inval);
    }
    Asking::Calls(DeviceCall::Once(Call::Probe {
        label,
        lines,
        kind: Kind::Simulated,
    }))
}

/// A call at a place that a device has.
fn at_place(place: u8, call: DeviceCall) -> Asking
    requires { place < PLACES → FitsDevice call }
    ensures told { result ≡ at_place place (Calls call) }
    ensures fits { FitsAsking result }
{
    if place < PLACES {
        Asking::Calls(call)
    } else {
        Asking::Refuses(Errno::NoEnt)
    }
}

/// A device comes up, or goes down.
fn lives(device: Name, up: bool) -> Asking
    ensures told { result ≡ lives device up }
    ensures fits { FitsAsking result }
{
    if up {
        Asking::Calls(DeviceCall::Once(Call::Live { device }))
    } else {
        Asking::Calls(DeviceCall::Removing(RemovalOf::OfDevice(device)))
    }
}

/// A value of the tree.
fn writes(path: &Path, value: &Name) -> Asking
    ensures told { result ≡ once (Write path.now value.now) }
    ensures fits { FitsAsking result }
{
    let _name = value.as_bytes();
    Asking::Calls(DeviceCall::Once(Call::Write {
        path: *path,
        value: *value,
    }))
}

/// A read from a file.
fn reads_from(len: u32, row: &FileRow) -> Call
    requires { IsRow row.now }
    ensures told { result ≡ reads_from len (row_file row.now) }
    ensures fits { (is_single result ≡ true) × FitsCall result }
{
    let FileRow { place, fd, .. } = *row;
    if is_chip(row) {
        Call::ReadInfo { place, fd, len }
    } else {
        Call::ReadEdges { place, fd, len }
    }
}

/// A poll of a file.
fn polls(row: &FileRow) -> Call
    requires { IsRow row.now }
    ensures told { result ≡ polls (row_file row.now) }
    ensures fits { (is_single result ≡ true) × FitsCall result }
{
    let FileRow { place, fd, .. } = *row;
    if is_chip(row) {
        Call::PollChip { place, fd }
    } else {
        Call::PollLine { place, fd }
    }
}

/// The operation names no open file.
fn not_open() -> Asking
    ensures told { result ≡ Refuses BadF }
    ensures fits { FitsAsking result }
{
    Asking::Refuses(Errno::BadF)
}

/// Lines are looked for on the chip of a file.
fn finds_on(row: &Option<FileRow>, name: &Name) -> Asking
    requires { IsSomeRow row.now }
    ensures told { result ≡ on_file (file_of row.now) (λ file. once (Find (Some file.place) name.now)) }
    ensures fits { FitsAsking result }
{
    match row {
        Some(row) => once(Call::Find {
            place: Some(row.place),
            name: *name,
        }),
        None => not_open(),
    }
}

/// A command on a file, with a buffer of this length that begins with these bytes.
fn commands(row: &Option<FileRow>, cmd: u32, len: u32, bytes: &[u8; LINE_REQUEST_SIZE]) -> Asking
    requires { IsSomeRow row.now }
    ensures told { result ≡ on_file (file_of row.now) (λ file. Calls (Commanding (command_in file.place file.fd file.of_chip cmd (buffer_of len bytes.now)))) }
    ensures fits { FitsAsking result }
{
    match row {
        Some(row) => Asking::Calls(DeviceCall::Commanding(command_on(row, cmd, len, bytes))),
        None => not_open(),
    }
}

/// A file is read.
fn reads_file(row: &Option<FileRow>, len: u32) -> Asking
    requires { IsSomeRow row.now }
    ensures told { result ≡ on_file (file_of row.now) (λ file. once (reads_from len file)) }
    ensures fits { FitsAsking result }
{
    match row {
        Some(row) => once(reads_from(len, row)),
        None => not_open(),
    }
}

/// A file is polled.
fn polls_file(row: &Option<FileRow>) -> Asking
    requires { IsSomeRow row.now }
    ensures told { result ≡ on_file (file_of row.now) (λ file. once (polls file)) }
    ensures fits { FitsAsking result }
{
    match row {
        Some(row) => once(polls(row)),
        None => not_open(),
    }
}

/// A file is closed.
fn closes(row: &Option<FileRow>) -> Asking
    ensures told { result ≡ on_file (file_of row.now) (λ file. once (Close file.fd)) }
    ensures fits { FitsAsking result }
{
    match row {
        Some(row) => once(Call::Close { fd: row.fd }),
        None => not_open(),
    }
}

/// Something with the pins of a place.
fn pins(place: u8, what: PinDo) -> Asking
    ensures told { result ≡ at_place place (once (Pin place what)) }
    ensures fits { FitsAsking result }
{
    at_place(place, DeviceCall::Once(Call::Pin { place, what }))
}

/// Something with the interrupt of a line.
fn irq(place: u8, offset: u32, what: IrqDo) -> Asking
    ensures told { result ≡ at_place place (once (Irq place offset what)) }
    ensures fits { FitsAsking result }
{
    let call = Call::Irq {
        place,
        offset,
        what,
    };
    at_place(place, DeviceCall::Once(call))
}

/// A pull of a line.
fn pulls(place: u8, offset: u32, up: bool) -> Asking
    ensures told { result ≡ at_place place (once (Pull place offset up)) }
    ensures fits { FitsAsking result }
{
    at_place(place, DeviceCall::Once(Call::Pull { place, offset, up }))
}

/// The level of a line, or its pull.
fn level(place: u8, offset: u32, pull: bool) -> Asking
    ensures told { result ≡ at_place place (once (Level place offset pull)) }
    ensures fits { FitsAsking result }
{
    let call = Call::Level {
        place,
        offset,
        pull,
    };
    at_place(place, DeviceCall::Once(call))
}

/// One call of the machine that is whole by itself.
fn once(call: Call) -> Asking
    requires { (is_single call ≡ true) × FitsCall call }
    ensures told { result ≡ once call }
    ensures fits { FitsAsking result }
{
    Asking::Calls(DeviceCall::Once(call))
}

/// A chip is removed.
fn unplugs(place: u8) -> Asking
    ensures told { result ≡ at_place place (Calls (Removing (OfChip place))) }
    ensures fits { FitsAsking result }
{
    at_place(place, DeviceCall::Removing(RemovalOf::OfChip(place)))
}

/// A directory of the tree is made.
fn makes_dir(path: &Path) -> Asking
    ensures told { result ≡ once (MakeDir path.now) }
    ensures fits { FitsAsking result }
{
    once(Call::MakeDir { path: *path })
}

/// A directory of the tree is removed.
fn removes_dir(path: &Path) -> Asking
    ensures told { result ≡ once (RemoveDir path.now) }
    ensures fits { FitsAsking result }
{
    once(Call::RemoveDir { path: *path })
}

/// A value of the tree is read.
fn reads(path: &Path) -> Asking
    ensures told { result ≡ once (Read path.now) }
    ensures fits { FitsAsking result }
{
    once(Call::Read { path: *path })
}

/// The clocks are set.
fn ticks(mono: u64, real: u64) -> Asking
    ensures told { result ≡ once (Tick mono real) }
    ensures fits { FitsAsking result }
{
    once(Call::Tick { mono, real })
}

/// The chip of a word is opened.
fn opens_chip(word: &Path) -> Asking
    ensures told { result ≡ once (OpenChip word.now) }
    ensures fits { FitsAsking result }
{
    once(Call::OpenChip { word: *word })
}

/// Lines are looked for on all chips.
fn finds_on_all(name: &Name) -> Asking
    ensures told { result ≡ once (Find None name.now) }
    ensures fits { FitsAsking result }
{
    once(Call::Find {
        place: None,
        name: *name,
    })
}

/// What an operation is, by the row of the open file that it names; None where it names none, or that isn't open.
///
/// An operation on a slot without a file is refused with `BadF`; `NoEnt` where it names a place that no device has; a chip of no line,
/// or of more than `LINES_MAX`, with `Inval`; a chip over requests, of which a port would have to keep a map, with `NoSpc`. These are
/// refused without a call (this project's choice). Every other operation is a call that may be made, or speaks to the actor's port.
pub fn asking_of(what: &Do, row: Option<FileRow>) -> Asking
    requires row { IsSomeRow row }
    ensures told { (files : List OpenFile) → file_for what.now files ≡ file_of row → result ≡ asking files what.now }
    ensures on { (files : List OpenFile) → file_for what.now files ≡ file_of row → AsksOn row result }
    ensures fits { FitsAsking result }
{
    match what {
        Do::Probe { label, lines } => probes(*label, *lines),
        Do::Unplug { place } => unplugs(*place),
        Do::MakeDir(path) => makes_dir(path),
        Do::RemoveDir(path) => removes_dir(path),
        Do::Write { path, value } => writes(path, value),
        Do::Read(path) => reads(path),
        Do::Live { device, up } => lives(*device, *up),
        Do::Tick { mono, real } => ticks(*mono, *real),
        Do::Pin { place, what } => pins(*place, *what),
        Do::Irq {
            place,
            offset,
            what,
        } => irq(*place, *offset, *what),
        Do::Pull { place, offset, up } => pulls(*place, *offset, *up),
        Do::Level {
            place,
            offset,
            pull,
        } => level(*place, *offset, *pull),
        Do::OpenChip { word, .. } => opens_chip(word),
        Do::Find { slot: None, name } => finds_on_all(name),
        Do::Find {
            slot: Some(_),
            name,
        } => finds_on(&row, name),
        Do::Ioctl {
            cmd,
            len,
            bytes,
            ..
        } => commands(&row, *cmd, *len, bytes),
        Do::ReadFile { len, .. } => reads_file(&row, *len),
        Do::Poll { .. } => polls_file(&row),
        Do::Close { .. } => closes(&row),
        Do::Plan { nth } => Asking::Plans(*nth),
        Do::Accept { bits } => Asking::Accepts(*bits),
        Do::Aggregate { .. } => Asking::Refuses(Errno::NoSpc),
    }
}

/// The slot of the file that an operation is on, if it names one.
pub fn slot_named(what: &Do) -> Option<u32>
    ensures { (files : List OpenFile) → file_for what.now files ≡ file_at result files }
{
    match what {
        Do::Find {
            slot: Some(slot),
            ..
        } => Some(*slot),
        Do::Ioctl { slot, .. } => Some(*slot),
        Do::ReadFile { slot, .. } => Some(*slot),
        Do::Poll { slot } => Some(*slot),
        Do::Close { slot } => Some(*slot),
        _ => None,
    }
}
