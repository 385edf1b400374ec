//! The texts of calls, written.
ghost use Rattle.std.specs.Prelude.{◌≡◌, ◌++◌, [], ◌∷◌, take, OnOk, IsOkUnless};
ghost use Rattle.gl_base.specs.BytesText.{bytes_text};
ghost use Rattle.gl_base.specs.Decimal.{decimal};
ghost use Rattle.gl_trace.specs.CallText.{kind_word, stage_word, bit, irq_word, pin_words, level_word, place_word, refused_word, part_word, answer_word, answer_words, command_words, call_words};
ghost use Rattle.gl_trace.specs.TextWord.{text_word};
ghost use Rattle.gl_trace.specs.Verbs.{verb_word};
ghost use Rattle.gl_trace.specs.Words.{before, hex_word};

use crate::verb::Verb;
use crate::words::{put_buffer, put_hex, put_long_hex, put_number, put_text, put_word};
use gl_base::{Errno, IrqDo, Kind, PinDo};
use gl_core::{Call, Part};

/// Appends the words of a call, each with a blank after it.
pub(crate) fn put_call(call: &Call, out: &mut Vec<u8>) -> Result<(), Errno>
    ensures ok { OnOk result (out.new.items ≡ out.old.items ++ before (call_words call.now) []) }
    ensures memory_alone { IsOkUnless result Errno.NoMemory }
{
    match call {
        Call::Probe { label, lines, kind } => put_probe(label.as_bytes(), *lines, *kind, out),
        Call::Unplug { place, last } => put_unplug(*place, *last, out),
        Call::MakeDir { path } => put_path(Verb::MakeDir, path.as_bytes(), out),
        Call::RemoveDir { path } => put_path(Verb::RemoveDir, path.as_bytes(), out),
        Call::Write { path, value } => put_write(path.as_bytes(), value.as_bytes(), out),
        Call::Read { path } => put_path(Verb::Read, path.as_bytes(), out),
        Call::Live { device } => put_path(Verb::Live, device.as_bytes(), out),
        Call::Remove { device, last } => put_remove(device.as_bytes(), *last, out),
        Call::Tick { mono, real } => put_two(Verb::Tick, *mono, *real, out),
        Call::Pin { place, what } => put_pin(*place, *what, out),
        Call::Irq {
            place,
            offset,
            what,
        } => { put_two(irq_verb(*what), u64::from(*place), u64::from(*offset), out) }
        Call::Pull { place, offset, up } => {
            put_three(
                Verb::Pull,
                u64::from(*place),
                u64::from(*offset),
                bit(*up),
                out,
            )
        }
        Call::Level {
            place,
            offset,
            pull,
        } => {
            put_two(
                level_verb(*pull),
                u64::from(*place),
                u64::from(*offset),
                out,
            )
        }
        Call::Interrupt { place, offset, up } => {
            put_three(
                Verb::Interrupt,
                u64::from(*place),
                u64::from(*offset),
                bit(*up),
                out,
            )
        }
        Call::OpenChip { word } => put_path(Verb::Open, word.as_bytes(), out),
        Call::Find { place, name } => put_find(*place, name.as_bytes(), out),
        Call::Ioctl {
            place,
            fd,
            cmd,
            len,
            bytes,
            part,
        } => { put_command(*place, *fd, *cmd, *len, bytes, *part, out) }
        Call::ReadEdges { place, fd, len } => {
            put_three(
                Verb::ReadLine,
                u64::from(*place),
                u64::from(*fd),
                u64::from(*len),
                out,
            )
        }
        Call::ReadInfo { place, fd, len } => {
            put_three(
                Verb::ReadChip,
                u64::from(*place),
                u64::from(*fd),
                u64::from(*len),
                out,
            )
        }
        Call::PollLine { place, fd } => put_two(
            Verb::PollLine,
            u64::from(*place),
            u64::from(*fd),
            out,
        ),
        Call::PollChip { place, fd } => put_two(
            Verb::PollChip,
            u64::from(*place),
            u64::from(*fd),
            out,
        ),
        Call::Close { fd } => put_one(Verb::Close, u64::from(*fd), out),
        Call::Refused { place, poll } => put_refused(*place, *poll, out),
    }
}

/// Appends a verb and a number.
fn put_one(verb: Verb, number: u64, out: &mut Vec<u8>) -> Result<(), Errno>
    ensures ok { OnOk result (out.new.items ≡ out.old.items ++ before (verb_word verb ∷ decimal number ∷ []) []) }
    ensures memory_alone { IsOkUnless result Errno.NoMemory }
{
    put_word(verb.word().as_bytes(), out)?;
    put_number(number, out)
}

/// Appends a verb and two numbers.
fn put_two(verb: Verb, first: u64, second: u64, out: &mut Vec<u8>) -> Result<(), Errno>
    ensures ok { OnOk result (out.new.items ≡ out.old.items ++ before (verb_word verb ∷ decimal first ∷ decimal second ∷ []) []) }
    ensures memory_alone { IsOkUnless result Errno.NoMemory }
{
    put_one(verb, first, out)?;
    put_number(second, out)
}

/// Appends a verb and three numbers.
fn put_three(
    verb: Verb,
    first: u64,
    second: u64,
    third: u64,
    out: &mut Vec<u8>,
) -> Result<(), Errno>
    ensures ok { OnOk result (out.new.items ≡ out.old.items ++ before (verb_word verb ∷ decimal first ∷ decimal second ∷ decimal third ∷ []) []) }
    ensures memory_alone { IsOkUnless result Errno.NoMemory }
{
    put_two(verb, first, second, out)?;
    put_number(third, out)
}

/// Appends a verb and a text.
fn put_path(verb: Verb, text: &[u8], out: &mut Vec<u8>) -> Result<(), Errno>
    ensures ok { OnOk result (out.new.items ≡ out.old.items ++ before (verb_word verb ∷ text_word text.now ∷ []) []) }
    ensures memory_alone { IsOkUnless result Errno.NoMemory }
{
    put_word(verb.word().as_bytes(), out)?;
    put_text(text, out)
}

fn put_probe(label: &[u8], lines: u32, kind: Kind, out: &mut Vec<u8>) -> Result<(), Errno>
    ensures ok { OnOk result (out.new.items ≡ out.old.items ++ before (verb_word Verb.Probe ∷ text_word label.now ∷ decimal lines ∷ kind_word kind ∷ []) []) }
    ensures memory_alone { IsOkUnless result Errno.NoMemory }
{
    put_path(Verb::Probe, label, out)?;
    put_number(u64::from(lines), out)?;
    put_word(kind_word(kind).as_bytes(), out)
}

fn put_unplug(place: u8, last: bool, out: &mut Vec<u8>) -> Result<(), Errno>
    ensures ok { OnOk result (out.new.items ≡ out.old.items ++ before (verb_word Verb.Unplug ∷ decimal place ∷ stage_word last ∷ []) []) }
    ensures memory_alone { IsOkUnless result Errno.NoMemory }
{
    put_one(Verb::Unplug, u64::from(place), out)?;
    put_word(stage_word(last).as_bytes(), out)
}

fn put_write(path: &[u8], value: &[u8], out: &mut Vec<u8>) -> Result<(), Errno>
    ensures ok { OnOk result (out.new.items ≡ out.old.items ++ before (verb_word Verb.Write ∷ text_word path.now ∷ text_word value.now ∷ []) []) }
    ensures memory_alone { IsOkUnless result Errno.NoMemory }
{
    put_path(Verb::Write, path, out)?;
    put_text(value, out)
}

fn put_remove(device: &[u8], last: bool, out: &mut Vec<u8>) -> Result<(), Errno>
    ensures ok { OnOk result (out.new.items ≡ out.old.items ++ before (verb_word Verb.Remove ∷ text_word device.now ∷ stage_word last ∷ []) []) }
    ensures memory_alone { IsOkUnless result Errno.NoMemory }
{
    put_path(Verb::Remove, device, out)?;
    put_word(stage_word(last).as_bytes(), out)
}

fn put_pin(place: u8, what: PinDo, out: &mut Vec<u8>) -> Result<(), Errno>
    ensures ok { OnOk result (out.new.items ≡ out.old.items ++ before (pin_words place what) []) }
    ensures memory_alone { IsOkUnless result Errno.NoMemory }
{
    match what {
        PinDo::Range { offset, pin, count } => put_range(place, offset, pin, count, out),
        PinDo::Hold(pin) => put_two(Verb::Hold, u64::from(place), u64::from(pin), out),
        PinDo::Release(pin) => put_two(Verb::Drop, u64::from(place), u64::from(pin), out),
    }
}

fn put_range(place: u8, offset: u32, pin: u32, count: u32, out: &mut Vec<u8>) -> Result<(), Errno>
    ensures ok { OnOk result (out.new.items ≡ out.old.items ++ before (verb_word Verb.Range ∷ decimal place ∷ decimal offset ∷ decimal pin ∷ decimal count ∷ []) []) }
    ensures memory_alone { IsOkUnless result Errno.NoMemory }
{
    put_three(
        Verb::Range,
        u64::from(place),
        u64::from(offset),
        u64::from(pin),
        out,
    )?;
    put_number(u64::from(count), out)
}

fn put_find(place: Option<u8>, name: &[u8], out: &mut Vec<u8>) -> Result<(), Errno>
    ensures ok { OnOk result (out.new.items ≡ out.old.items ++ before (verb_word Verb.Find ∷ place_word place ∷ text_word name.now ∷ []) []) }
    ensures memory_alone { IsOkUnless result Errno.NoMemory }
{
    put_word(Verb::Find.word().as_bytes(), out)?;
    put_place(place, out)?;
    put_text(name, out)
}

/// Appends a place, or `-` for all.
fn put_place(place: Option<u8>, out: &mut Vec<u8>) -> Result<(), Errno>
    ensures ok { OnOk result (out.new.items ≡ out.old.items ++ before (place_word place ∷ []) []) }
    ensures memory_alone { IsOkUnless result Errno.NoMemory }
{
    match place {
        Some(place) => put_number(u64::from(place), out),
        None => put_word(b"-", out),
    }
}

fn put_refused(place: u8, poll: bool, out: &mut Vec<u8>) -> Result<(), Errno>
    ensures ok { OnOk result (out.new.items ≡ out.old.items ++ before (verb_word Verb.Refused ∷ decimal place ∷ refused_word poll ∷ []) []) }
    ensures memory_alone { IsOkUnless result Errno.NoMemory }
{
    put_one(Verb::Refused, u64::from(place), out)?;
    put_word(refused_word(poll).as_bytes(), out)
}

/// Appends a part of a command with its buffer.
fn put_command(
    place: u8,
    fd: u32,
    cmd: u32,
    len: u32,
    bytes: &[u8; 592],
    part: Part,
    out: &mut Vec<u8>,
) -> Result<(), Errno>
    ensures ok { OnOk result (out.new.items ≡ out.old.items ++ before (command_words place fd cmd len bytes.now part) []) }
    ensures memory_alone { IsOkUnless result Errno.NoMemory }
{
    put_on_file(part_verb(part), place, fd, out)?;
    put_hex(cmd, out)?;
    put_length(len, out)?;
    put_buffer(first_bytes(bytes, len), out)?;
    put_answer(part, out)
}

/// Appends a verb, and the place and the number of an open file.
fn put_on_file(verb: Verb, place: u8, fd: u32, out: &mut Vec<u8>) -> Result<(), Errno>
    ensures ok { OnOk result (out.new.items ≡ out.old.items ++ before (verb_word verb ∷ decimal place ∷ decimal fd ∷ []) []) }
    ensures memory_alone { IsOkUnless result Errno.NoMemory }
{
    put_two(verb, u64::from(place), u64::from(fd), out)
}

/// Appends the length of a buffer.
fn put_length(len: u32, out: &mut Vec<u8>) -> Result<(), Errno>
    ensures ok { OnOk result (out.new.items ≡ out.old.items ++ before (decimal len ∷ []) []) }
    ensures memory_alone { IsOkUnless result Errno.NoMemory }
{
    put_number(u64::from(len), out)
}

/// The first `len` bytes; all where there are no more.
pub(crate) fn first_bytes(bytes: &[u8], len: u32) -> &[u8]
    ensures { result.now ≡ take len bytes.now }
{
    &bytes[..bytes.len().min(len as usize)]
}

/// Appends what the driver answered, where a part tells it.
fn put_answer(part: Part, out: &mut Vec<u8>) -> Result<(), Errno>
    ensures ok { OnOk result (out.new.items ≡ out.old.items ++ before (answer_words part) []) }
    ensures memory_alone { IsOkUnless result Errno.NoMemory }
{
    match part {
        Part::Whole | Part::Ask => Ok(()),
        Part::Tell(None) => put_word(b"fault", out),
        Part::Tell(Some(bits)) => put_long_hex(bits, out),
    }
}

fn part_verb(part: Part) -> Verb
    ensures { verb_word result ≡ part_word part }
{
    match part {
        Part::Whole => Verb::Ioctl,
        Part::Ask => Verb::Ask,
        Part::Tell(_) => Verb::Tell,
    }
}

fn irq_verb(what: IrqDo) -> Verb
    ensures { verb_word result ≡ irq_word what }
{
    match what {
        IrqDo::Lock => Verb::Lock,
        IrqDo::Unlock => Verb::Unlock,
        IrqDo::Enable => Verb::Enable,
        IrqDo::Disable => Verb::Disable,
        IrqDo::Never => Verb::Never,
    }
}

fn level_verb(pull: bool) -> Verb
    ensures { verb_word result ≡ level_word pull }
{
    if pull {
        return Verb::PullOf;
    }
    Verb::Level
}

fn kind_word(kind: Kind) -> &'static str
    ensures { result.now ≡ kind_word kind }
{
    match kind {
        Kind::Simulated => "sim",
        Kind::Remote => "remote",
    }
}

fn stage_word(last: bool) -> &'static str
    ensures { result.now ≡ stage_word last }
{
    if last {
        return "finish";
    }
    "begin"
}

fn refused_word(poll: bool) -> &'static str
    ensures { result.now ≡ refused_word poll }
{
    if poll {
        return "poll";
    }
    "call"
}

/// 1 for up, and 0.
fn bit(up: bool) -> u64
    ensures { result ≡ bit up }
{
    if up {
        return 1;
    }
    0
}
