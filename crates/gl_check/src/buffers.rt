//! The buffers of operations.

ghost use Rattle.std.specs.Prelude.{◌≡◌, IfOk, IsOkUnless};
ghost use Rattle.gl_check.specs.Buffers.{buffer_at, buffer_for};

use crate::stand::Stand;
use gl_asking::{buffer_of, zeros};
use gl_base::{Do, Errno};
use std::alloc::Global;

/// The buffer of the next entry of an actor that stands so. `NoMemory` alone is refused.
pub fn buffer_at(alloc: Global, stand: &Stand) -> Result<Vec<u8>, Errno>
    ensures ok { IfOk result (λ buffer. buffer.items ≡ buffer_at stand.now) }
    ensures memory_alone { IsOkUnless result Errno.NoMemory }
{
    match stand {
        Stand::Ended => Ok(Vec::new(alloc)),
        Stand::Before { what, .. } => buffer_for(alloc, what),
        Stand::Between { what, .. } => buffer_for(alloc, what),
    }
}

/// The buffer of an operation. `NoMemory` alone is refused.
pub fn buffer_for(alloc: Global, what: &Do) -> Result<Vec<u8>, Errno>
    ensures ok { IfOk result (λ buffer. buffer.items ≡ buffer_for what.now) }
    ensures memory_alone { IsOkUnless result Errno.NoMemory }
{
    match what {
        Do::Unplug { .. } | Do::Live { up: false, .. } => zeros(alloc, 2),
        Do::Ioctl { len, bytes, .. } => buffer_of(alloc, *len, bytes),
        Do::ReadFile { len, .. } => zeros(alloc, *len as usize),
        _ => Ok(Vec::new(alloc)),
    }
}
