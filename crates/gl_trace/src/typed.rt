//! The numbers and texts of an entry are of their types, as those of every value of the code are, so that its text tells it. These
//! functions do nothing: the contract of each says this of what it is given, and a caller gets it by the call.
ghost use Rattle.gl_trace.specs.Typed.{AreBytes, Is8, Is32, Is64, IsNameText, IsPathText, IsTyped, IsTypedAnswer, IsTypedCall, IsTypedCommand, IsTypedPart, IsTypedPin, IsTypedPlace, IsTypedReply};

use gl_base::{Name, Path, PinDo};
use gl_core::Core;
use gl_model::{Call, Part, Reply};
use gl_world::Entry;

fn fits_8(number: u8)
    ensures { Is8 number }
{}

fn fits_32(number: u32)
    ensures { Is32 number }
{}

fn fits_64(number: u64)
    ensures { Is64 number }
{}

fn fits_bytes(bytes: &[u8])
    ensures { AreBytes bytes.now }
{}

fn fits_name(name: &Name)
    ensures { IsNameText name.now }
{
    fits_bytes(name.as_bytes());
}

fn fits_path(path: &Path)
    ensures { IsPathText path.now }
{
    fits_bytes(path.as_bytes());
}

/// A place, and the number of a line, a file or a length.
fn fits_numbers(place: u8, number: u32)
    ensures place { Is8 place }
    ensures number { Is32 number }
{}

fn fits_pin(what: &PinDo)
    ensures { IsTypedPin what.now }
{
    match what {
        PinDo::Range { offset, pin, count } => {
            fits_32(*offset);
            fits_32(*pin);
            fits_32(*count);
        }
        PinDo::Hold(pin) => fits_32(*pin),
        PinDo::Release(pin) => fits_32(*pin),
    }
}

fn fits_place(place: &Option<u8>)
    ensures { IsTypedPlace place.now }
{
    match place {
        Some(place) => fits_8(*place),
        None => {}
    }
}

fn fits_answer(answer: &Option<u64>)
    ensures { IsTypedAnswer answer.now }
{
    match answer {
        Some(bits) => fits_64(*bits),
        None => {}
    }
}

fn fits_part(part: &Part)
    ensures { IsTypedPart part.now }
{
    match part {
        Part::Whole => {}
        Part::Ask => {}
        Part::Tell(told) => fits_answer(told),
    }
}

fn fits_command(place: u8, fd: u32, cmd: u32, len: u32, bytes: &[u8; 592], made: &Part)
    ensures { IsTypedCommand place fd cmd len bytes.now made.now }
{
    fits_numbers(place, fd);
    fits_32(cmd);
    fits_32(len);
    fits_bytes(bytes);
    fits_part(made);
}

/// The call of an entry.
fn fits_call(call: &Call)
    ensures { IsTypedCall call.now }
{
    match call {
        Call::Probe { label, lines, .. } => {
            fits_name(label);
            fits_32(*lines);
        }
        Call::Unplug { place, .. } => fits_8(*place),
        Call::MakeDir { path: at } => fits_path(at),
        Call::RemoveDir { path: at } => fits_path(at),
        Call::Write { path: at, value } => {
            fits_path(at);
            fits_name(value);
        }
        Call::Read { path: at } => fits_path(at),
        Call::Live { device } => fits_name(device),
        Call::Remove { device, .. } => fits_name(device),
        Call::Tick { mono, real } => {
            fits_64(*mono);
            fits_64(*real);
        }
        Call::Pin { place, what } => {
            fits_8(*place);
            fits_pin(what);
        }
        Call::Irq { place, offset, .. } => fits_numbers(*place, *offset),
        Call::Pull { place, offset, .. } => fits_numbers(*place, *offset),
        Call::Level { place, offset, .. } => fits_numbers(*place, *offset),
        Call::Interrupt { place, offset, .. } => fits_numbers(*place, *offset),
        Call::OpenChip { word } => fits_path(word),
        Call::Find {
            place: on,
            name: line,
        } => {
            fits_place(on);
            fits_name(line);
        }
        Call::Ioctl {
            place,
            fd,
            cmd,
            len,
            bytes,
            part,
        } => fits_command(*place, *fd, *cmd, *len, bytes, part),
        Call::ReadEdges { place, fd, len } => {
            fits_numbers(*place, *fd);
            fits_32(*len);
        }
        Call::ReadInfo { place, fd, len } => {
            fits_numbers(*place, *fd);
            fits_32(*len);
        }
        Call::PollLine { place, fd } => fits_numbers(*place, *fd),
        Call::PollChip { place, fd } => fits_numbers(*place, *fd),
        Call::Close { fd } => fits_32(*fd),
        Call::Refused { place, .. } => fits_8(*place),
    }
}

/// The reply of an entry.
fn fits_reply(reply: &Reply)
    ensures { IsTypedReply reply.now }
{
    match reply {
        Reply::Done => {}
        Reply::Number(number) => fits_64(*number),
        Reply::Go(number) => fits_32(*number),
        Reply::Found {
            place,
            offset,
            count,
        } => {
            fits_numbers(*place, *offset);
            fits_32(*count);
        }
        Reply::Text(text) => fits_name(text),
        Reply::Ready(_) => {}
        Reply::Refused(_) => {}
    }
}

/// An entry at an index.
pub fn fits_entry(index: u32, entry: &Entry<Core>)
    ensures { IsTyped index entry.now }
{
    fits_32(index);
    fits_8(entry.actor);
    fits_call(&entry.call);
    fits_reply(&entry.reply);
}
