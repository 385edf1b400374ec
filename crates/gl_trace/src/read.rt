//! Entries, read.
ghost use Rattle.std.specs.Prelude.{◌≡◌, ℕ, Some, None, IfSome, MatchOption, codes};
ghost use Rattle.gl_core.specs.Kept.{Kept};
ghost use Rattle.gl_model.specs.declared.call.Call.{Call};
ghost use Rattle.gl_model.specs.declared.gift.Gift.{Gift};
ghost use Rattle.gl_model.specs.declared.reply.Reply.{Reply};
ghost use Rattle.gl_world.specs.declared.history.Entry.{Entry};
ghost use Rattle.gl_trace.specs.Typed.{IsTyped};
ghost use Rattle.gl_trace.specs.Unique.{IsLineOf};
ghost use Rattle.gl_uapi.specs.Command.{command_of};
ghost use Rattle.gl_trace.specs.CallRead.{call_of, n8, n32, of_four};
ghost use Rattle.gl_trace.specs.EntryRead.{answered, by_asked, by_verb, by_words, called, called_in, command, command_in, filled, header, header_of, in_part, of_arrow, plainly, read, read_of, told, with_bytes};
ghost use Rattle.gl_trace.specs.Forms.{command_form, form_of};
ghost use Rattle.gl_trace.specs.Fronts.{fields, front_of};
ghost use Rattle.gl_trace.specs.Verbs.{asked_of};
ghost use Rattle.gl_trace.specs.WordRead.{hex_of, stripped};

use crate::buffer_read::{behind_bytes, whole_guess};
use crate::call_read::call_of;
use crate::form::Form;
use crate::fronts::{Fields, first_word, first_words};
use crate::put_call::first_bytes;
use crate::reply_read::reply_of;
use crate::verb::{CommandPart, Count, Verb};
use crate::word_read::{answer_of, behind, hex_of, number8, number32};
use gl_core::{Call, Core, Part, Reply};
use gl_uapi::Command;
use gl_world::Entry;

/// A call, and what stands after its words.
#[derive(Clone, Copy)]
struct Called<'a> {
    /// The call.
    call: Call,
    /// What stands after.
    rest: &'a [u8],
}

/// The numbers of a command.
#[derive(Clone, Copy)]
struct Header {
    /// The place.
    place: u8,
    /// The number of the file.
    fd: u32,
    /// The number of the command.
    cmd: u32,
    /// The length of the buffer.
    len: u32,
}

/// What a call is answered that isn't refused.
fn form_of(call: &Call) -> Form
    ensures { result ≡ form_of call.now }
{
    match call {
        Call::Probe { .. }
        | Call::Level { .. }
        | Call::OpenChip { .. }
        | Call::ReadEdges { .. }
        | Call::ReadInfo { .. } => Form::ANumber,
        Call::Read { .. } => Form::AText,
        Call::Find { .. } => Form::AFound,
        Call::Ioctl { cmd, part, .. } => command_form(*cmd, *part),
        Call::PollLine { .. } | Call::PollChip { .. } | Call::Refused { poll: true, .. } => {
            Form::AReady
        }
        Call::Refused { poll: false, .. } => Form::Never,
        Call::Unplug { .. }
        | Call::MakeDir { .. }
        | Call::RemoveDir { .. }
        | Call::Write { .. }
        | Call::Live { .. }
        | Call::Remove { .. }
        | Call::Tick { .. }
        | Call::Pin { .. }
        | Call::Irq { .. }
        | Call::Pull { .. }
        | Call::Interrupt { .. }
        | Call::Close { .. } => Form::Nothing,
    }
}

fn command_form(cmd: u32, part: Part) -> Form
    ensures { result ≡ command_form (command_of cmd) part }
{
    match Command::of(cmd) {
        Some(command) => part_form(command, part),
        None => Form::Never,
    }
}

fn part_form(command: Command, part: Part) -> Form
    ensures { result ≡ command_form (Some command) part }
{
    match command {
        Command::ChipInfo | Command::LineInfo | Command::Watch | Command::Unwatch => match part {
            Part::Whole => Form::Nothing,
            Part::Ask | Part::Tell(_) => Form::Never,
        },
        Command::GetLine => match part {
            Part::Whole => Form::Never,
            Part::Ask => Form::AGo,
            Part::Tell(_) => Form::ANumber,
        },
        Command::SetConfig | Command::GetValues | Command::SetValues => match part {
            Part::Whole => Form::Never,
            Part::Ask => Form::AGo,
            Part::Tell(_) => Form::Nothing,
        },
    }
}

/// The call whose verb is this word.
fn called_in<'a>(word: &[u8], text: &'a [u8]) -> Option<Called<'a>>
    ensures { MatchOption result (called_in word.now text.now ≡ None) (λ got. called_in word.now text.now ≡ Some (called got.call got.rest.now)) }
{
    match Verb::of(word) {
        Some(verb) => by_verb(verb, text),
        None => None,
    }
}

fn by_verb(verb: Verb, text: &[u8]) -> Option<Called<'_>>
    ensures { MatchOption result (by_verb (Some verb) text.now ≡ None) (λ got. by_verb (Some verb) text.now ≡ Some (called got.call got.rest.now)) }
{
    match first_words(verb.count(), text) {
        Some(words) => by_words(verb, &words),
        None => None,
    }
}

fn by_words<'a>(verb: Verb, words: &Fields<'a>) -> Option<Called<'a>>
    ensures { let f = fields words.now.first.now words.now.second.now words.now.third.now words.now.fourth.now words.now.rest.now in MatchOption result (by_asked (asked_of verb) verb f ≡ None) (λ got. by_asked (asked_of verb) verb f ≡ Some (called got.call got.rest.now)) }
{
    match verb.asked() {
        Some(asked) => command_in(asked, words),
        None => plainly(verb, words),
    }
}

/// A call that is no command's.
fn plainly<'a>(verb: Verb, words: &Fields<'a>) -> Option<Called<'a>>
    ensures { let f = fields words.now.first.now words.now.second.now words.now.third.now words.now.fourth.now words.now.rest.now in MatchOption result (plainly (call_of verb f) f.rest ≡ None) (λ got. plainly (call_of verb f) f.rest ≡ Some (called got.call got.rest.now)) }
{
    match call_of(verb, words) {
        Some(call) => Some(Called {
            call,
            rest: words.rest,
        }),
        None => None,
    }
}

/// A part of a command.
fn command_in<'a>(asked: CommandPart, words: &Fields<'a>) -> Option<Called<'a>>
    ensures { let f = fields words.now.first.now words.now.second.now words.now.third.now words.now.fourth.now words.now.rest.now in MatchOption result (command_in (header_of f) asked f.rest ≡ None) (λ got. command_in (header_of f) asked f.rest ≡ Some (called got.call got.rest.now)) }
{
    match header_of(words.first, words.second, words.third, words.fourth) {
        Some(header) => with_bytes(header, asked, words.rest),
        None => None,
    }
}

/// The numbers of a command.
fn header_of(first: &[u8], second: &[u8], third: &[u8], fourth: &[u8]) -> Option<Header>
    ensures { MatchOption result (of_four (n8 first.now) (n32 second.now) (hex_of third.now) (n32 fourth.now) header ≡ None) (λ h. of_four (n8 first.now) (n32 second.now) (hex_of third.now) (n32 fourth.now) header ≡ Some (header h.place h.fd h.cmd h.len)) }
{
    match number8(first) {
        Some(place) => match number32(second) {
            Some(fd) => match hex_of(third) {
                Some(cmd) => match number32(fourth) {
                    Some(len) => Some(Header {
                        place,
                        fd,
                        cmd,
                        len,
                    }),
                    None => None,
                },
                None => None,
            },
            None => None,
        },
        None => None,
    }
}

/// The bytes of a command and what follows them.
fn with_bytes(head: Header, asked: CommandPart, text: &[u8]) -> Option<Called<'_>>
    ensures { let h = header head.place head.fd head.cmd head.len in MatchOption result (with_bytes h asked text.now ≡ None) (λ got. with_bytes h asked text.now ≡ Some (called got.call got.rest.now)) }
{
    let count = (head.len as usize).min(592);
    let bytes = whole_guess(count, text);
    match behind_bytes(first_bytes(&bytes, head.len), text) {
        Some(rest) => filled(head, &bytes, asked, rest),
        None => None,
    }
}

/// What follows the bytes of a command: a blank, and its part.
fn filled<'a>(
    head: Header,
    bytes: &[u8; 592],
    asked: CommandPart,
    text: &'a [u8],
) -> Option<Called<'a>>
    ensures { let h = header head.place head.fd head.cmd head.len in MatchOption result (filled h bytes.now asked (Some text.now) ≡ None) (λ got. filled h bytes.now asked (Some text.now) ≡ Some (called got.call got.rest.now)) }
{
    match behind(b" ", text) {
        Some(rest) => in_part(head, bytes, asked, rest),
        None => None,
    }
}

fn in_part<'a>(
    head: Header,
    bytes: &[u8; 592],
    asked: CommandPart,
    rest: &'a [u8],
) -> Option<Called<'a>>
    ensures { let h = header head.place head.fd head.cmd head.len in MatchOption result (in_part h bytes.now asked rest.now ≡ None) (λ got. in_part h bytes.now asked rest.now ≡ Some (called got.call got.rest.now)) }
{
    match asked {
        CommandPart::Whole => Some(as_called(head, bytes, Part::Whole, rest)),
        CommandPart::Ask => Some(as_called(head, bytes, Part::Ask, rest)),
        CommandPart::Tell => told(head, bytes, rest),
    }
}

fn as_called<'a>(head: Header, bytes: &[u8; 592], part: Part, rest: &'a [u8]) -> Called<'a>
    ensures call { result.call ≡ command (header head.place head.fd head.cmd head.len) bytes.now part }
    ensures rest { result.rest.now ≡ rest.now }
{
    Called {
        call: Call::Ioctl {
            place: head.place,
            fd: head.fd,
            cmd: head.cmd,
            len: head.len,
            bytes: *bytes,
            part,
        },
        rest,
    }
}

/// A command whose driver answered.
fn told<'a>(head: Header, bytes: &[u8; 592], text: &'a [u8]) -> Option<Called<'a>>
    ensures { let h = header head.place head.fd head.cmd head.len in MatchOption result (told h bytes.now (front_of text.now) ≡ None) (λ got. told h bytes.now (front_of text.now) ≡ Some (called got.call got.rest.now)) }
{
    match first_word(text) {
        Some(got) => match answer_of(got.word) {
            Some(answer) => Some(as_called(head, bytes, Part::Tell(answer), got.rest)),
            None => None,
        },
        None => None,
    }
}

/// The reply after an arrow, where this call was made.
fn of_arrow(call: &Call, text: &[u8]) -> Option<Reply>
    ensures { result ≡ of_arrow call.now (stripped (codes "-> ") text.now) }
{
    match behind(b"-> ", text) {
        Some(reply) => reply_of(form_of(call), reply),
        None => None,
    }
}

/// The entry whose text a line is, with its index; none where a line is no entry's text. The line has no end. What is read
/// writes the same line, and only the one spelling that `put_entry` writes is read. The form is this project's choice.
pub fn read_entry(line: &[u8]) -> Option<(u32, Entry<Core>)>
    ensures sound { IfSome result (λ got. IsLineOf line.now got.0 got.1) }
    ensures complete { (index : ℕ) (e : Entry Kept Call Reply Gift) → IsTyped index e → IsLineOf line.now index e → MatchOption result ⊥ (λ got. (got.0 ≡ index) × (got.1 ≡ e)) }
{
    match read_line(line) {
        Some(got) => Some(got),
        None => None,
    }
}

/// The entry that a line is, as `specs/EntryRead` reads it.
pub(crate) fn read_line(line: &[u8]) -> Option<(u32, Entry<Core>)>
    ensures { MatchOption result (read_of line.now ≡ None) (λ got. read_of line.now ≡ Some (read got.0 got.1.actor got.1.call got.1.reply)) }
{
    match first_words(Count::Three, line) {
        Some(words) => read_words(&words),
        None => None,
    }
}

fn read_words(words: &Fields<'_>) -> Option<(u32, Entry<Core>)>
    ensures { let f = fields words.now.first.now words.now.second.now words.now.third.now words.now.fourth.now words.now.rest.now in MatchOption result (by_words (Some f) ≡ None) (λ got. by_words (Some f) ≡ Some (read got.0 got.1.actor got.1.call got.1.reply)) }
{
    match number32(words.first) {
        Some(index) => match number8(words.second) {
            Some(actor) => read_call(index, actor, words.third, words.rest),
            None => None,
        },
        None => None,
    }
}

fn read_call(index: u32, actor: u8, word: &[u8], text: &[u8]) -> Option<(u32, Entry<Core>)>
    ensures { MatchOption result (answered index actor (called_in word.now text.now) ≡ None) (λ got. answered index actor (called_in word.now text.now) ≡ Some (read got.0 got.1.actor got.1.call got.1.reply)) }
{
    match called_in(word, text) {
        Some(got) => match of_arrow(&got.call, got.rest) {
            Some(reply) => Some((index, entry(actor, got.call, reply))),
            None => None,
        },
        None => None,
    }
}

fn entry(actor: u8, call: Call, reply: Reply) -> Entry<Core>
    ensures { (result.actor ≡ actor) × (result.call ≡ call) × (result.reply ≡ reply) }
{
    Entry { actor, call, reply }
}
