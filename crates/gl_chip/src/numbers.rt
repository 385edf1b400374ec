//! Numbers that calls are answered, in the range that they have.

ghost use Rattle.std.specs.Prelude.{◌≡◌, ◌<◌, ◌^◌};
ghost use Rattle.gl_model.specs.Written.{number_answered};
ghost use Rattle.gl_asking.specs.Results.{number_of};

use gl_asking::results;
use gl_base::Errno;
use gl_core::Reply;

/// A place, or why the call was refused.
pub(crate) fn place(reply: Reply) -> Result<u8, Errno>
    requires { number_answered reply < 256 }
    ensures { result ≡ number_of reply }
{
    match results::number(reply) {
        Ok(number) => Ok(number as u8),
        Err(errno) => Err(errno),
    }
}

/// A number of bytes, or why the read was refused.
pub(crate) fn count(reply: Reply) -> Result<u32, Errno>
    requires { number_answered reply < 2 ^ 32 }
    ensures { result ≡ number_of reply }
{
    match results::number(reply) {
        Ok(number) => Ok(number as u32),
        Err(errno) => Err(errno),
    }
}
