//! What the texts of replies are read as.
ghost use Rattle.std.specs.Prelude.{◌≡◌, find, option_copied, codes, Some, None, ◌∷◌};
ghost use Rattle.gl_model.specs.declared.reply.Reply.{Reply};
ghost use Rattle.gl_trace.specs.CallRead.{n8, n32, of_three};
ghost use Rattle.gl_trace.specs.ReplyRead.{done_of, errno_of, found_of, go_reply, is_errno, just_done, number_reply, ready_of, reply_of, text_reply};

use crate::form::Form;
use crate::fronts::first_words;
use crate::verb::Count;
use crate::word_read::{behind, name_word, number8, number32, number64};
use gl_base::Errno;
use gl_core::Reply;

/// All errors.
pub const ERRNOS: [Errno; 16] = [
    Errno::Perm,
    Errno::NoEnt,
    Errno::Io,
    Errno::NxIo,
    Errno::BadF,
    Errno::Again,
    Errno::NoMemory,
    Errno::Fault,
    Errno::Busy,
    Errno::Exist,
    Errno::NoDev,
    Errno::Inval,
    Errno::MFile,
    Errno::NoSpc,
    Errno::OpNotSupp,
    Errno::Full,
];

/// The reply of a text, where a call may be answered a reply of this form.
pub(crate) fn reply_of(form: Form, text: &[u8]) -> Option<Reply>
    ensures { result ≡ reply_of form text.now }
{
    match errno_of(text) {
        Some(errno) => Some(Reply::Refused(errno)),
        None => done_of(form, text),
    }
}

/// The error of a name.
fn errno_of(text: &[u8]) -> Option<Errno>
    ensures { result ≡ errno_of text.now }
{
    match errno_among(&ERRNOS, text) {
        Some(errno) => Some(*errno),
        None => None,
    }
}

fn errno_among<'a>(errnos: &'a [Errno], text: &[u8]) -> Option<&'a Errno>
    ensures { option_copied result ≡ find (is_errno text.now) errnos.now }
{
    errnos.iter().find(|errno| errno.name().as_bytes() == text)
}

/// A reply of a form that isn't a refusal.
fn done_of(form: Form, text: &[u8]) -> Option<Reply>
    ensures { result ≡ done_of form text.now }
{
    match form {
        Form::Nothing => just_done(text),
        Form::ANumber => number_reply(text),
        Form::AGo => go_reply(text),
        Form::AFound => found_of(text),
        Form::AText => text_reply(text),
        Form::AReady => ready_of(text),
        Form::Never => None,
    }
}

fn just_done(text: &[u8]) -> Option<Reply>
    ensures { result ≡ just_done text.now }
{
    if text == b"ok".as_slice() {
        return Some(Reply::Done);
    }
    None
}

fn number_reply(text: &[u8]) -> Option<Reply>
    ensures { result ≡ number_reply text.now }
{
    match behind(b"ok ", text) {
        Some(word) => match number64(word) {
            Some(number) => Some(Reply::Number(number)),
            None => None,
        },
        None => None,
    }
}

fn go_reply(text: &[u8]) -> Option<Reply>
    ensures { result ≡ go_reply text.now }
{
    match behind(b"go ", text) {
        Some(word) => match number32(word) {
            Some(number) => Some(Reply::Go(number)),
            None => None,
        },
        None => None,
    }
}

fn text_reply(text: &[u8]) -> Option<Reply>
    ensures { result ≡ text_reply text.now }
{
    match behind(b"ok ", text) {
        Some(word) => match name_word(word) {
            Some(name) => Some(Reply::Text(name)),
            None => None,
        },
        None => None,
    }
}

fn ready_of(text: &[u8]) -> Option<Reply>
    ensures { result ≡ ready_of text.now }
{
    if text == b"poll -".as_slice() {
        Some(Reply::Ready(0))
    } else if text == b"poll IN".as_slice() {
        Some(Reply::Ready(1))
    } else if text == b"poll HUP ERR".as_slice() {
        Some(Reply::Ready(6))
    } else {
        None
    }
}

fn found_of(text: &[u8]) -> Option<Reply>
    ensures { result ≡ found_of text.now }
{
    match behind(b"ok ", text) {
        Some(rest) => match first_words(Count::Two, rest) {
            Some(words) => found(words.first, words.second, words.rest),
            None => None,
        },
        None => None,
    }
}

fn found(first: &[u8], second: &[u8], third: &[u8]) -> Option<Reply>
    ensures { result ≡ of_three (n8 first.now) (n32 second.now) (n32 third.now) (λ place offset count. Reply.Found place offset count) }
{
    match number8(first) {
        Some(place) => match number32(second) {
            Some(offset) => match number32(third) {
                Some(count) => Some(Reply::Found {
                    place,
                    offset,
                    count,
                }),
                None => None,
            },
            None => None,
        },
        None => None,
    }
}
