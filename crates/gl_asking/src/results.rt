//! What a reply of the machine comes to: the value of its call, or why the call was refused.
//!
//! A client's result and what a caller of `gl_chip` gets are read here. A reply is matched elsewhere where it makes a file (`files_behind`, and an
//! open and a request of `gl_chip`), where it says how a call goes on, and where it is written. One of another form than the call's doesn't come
//! (`has_form` of `gl_model`); here it comes to what the definitions say, nothing, zero or no bytes, so that no reading needs a condition.

ghost use Rattle.std.specs.Prelude.{◌≡◌, IfOk};
ghost use Rattle.gl_model.specs.Written.{number_answered};
ghost use Rattle.gl_asking.specs.Results.{done_of, found_of, level_of, number_of, ready_of, text_of};

use gl_base::{Errno, Name};
use gl_model::Reply;

/// Nothing, or why the call was refused.
pub fn done(reply: Reply) -> Result<(), Errno>
    ensures { result ≡ done_of reply }
{
    match reply {
        Reply::Refused(errno) => Err(errno),
        _ => Ok(()),
    }
}

/// A number, or why the call was refused.
pub fn number(reply: Reply) -> Result<u64, Errno>
    ensures told { result ≡ number_of reply }
    ensures value { IfOk result (λ number. number ≡ number_answered reply) }
{
    match reply {
        Reply::Refused(errno) => Err(errno),
        Reply::Number(number) => Ok(number),
        _ => Ok(0),
    }
}

/// A level, true for 1, or why the call was refused.
pub fn level(reply: Reply) -> Result<bool, Errno>
    ensures { result ≡ level_of reply }
{
    match number(reply) {
        Ok(number) => Ok(number == 1),
        Err(errno) => Err(errno),
    }
}

/// A text, or why the call was refused.
pub fn text(reply: Reply) -> Result<Name, Errno>
    ensures { result ≡ text_of reply }
{
    match reply {
        Reply::Refused(errno) => Err(errno),
        Reply::Text(text) => Ok(text),
        _ => Ok(Name::empty()),
    }
}

/// What a file is ready for, or why the poll was refused.
pub fn ready(reply: Reply) -> Result<u8, Errno>
    ensures { result ≡ ready_of reply }
{
    match reply {
        Reply::Refused(errno) => Err(errno),
        Reply::Ready(bits) => Ok(bits),
        _ => Ok(0),
    }
}

/// The first line that was found, by place and offset, and how many there are; or why the call was refused.
pub fn found(reply: Reply) -> Result<(u8, u32, u32), Errno>
    ensures { result ≡ found_of reply }
{
    match reply {
        Reply::Refused(errno) => Err(errno),
        Reply::Found {
            place,
            offset,
            count,
        } => Ok((place, offset, count)),
        _ => Ok((0, 0, 0)),
    }
}
