//! The buffers that operations bring.

ghost use Rattle.std.specs.Prelude.{◌≡◌, replicate, IfOk, IsOkUnless};
ghost use Rattle.gl_asking.specs.Asking.{buffer_of};

use gl_base::Errno;
use std::alloc::Global;

/// So many zeros. It fails only when out of memory.
pub fn zeros(alloc: Global, len: usize) -> Result<Vec<u8>, Errno>
    ensures ok { IfOk result (λ buffer. buffer.items ≡ replicate len 0) }
    ensures memory_alone { IsOkUnless result Errno.NoMemory }
{
    let buffer = vec![in alloc; 0; len]?;
    Ok(buffer)
}

/// So many of these bytes, and zeros after them where there are fewer. It fails only when out of memory.
pub fn buffer_of(alloc: Global, len: u32, bytes: &[u8]) -> Result<Vec<u8>, Errno>
    ensures ok { IfOk result (λ buffer. buffer.items ≡ buffer_of len bytes.now) }
    ensures memory_alone { IsOkUnless result Errno.NoMemory }
{
    let count = bytes.len().min(len as usize);
    let mut buffer = Vec::new(alloc);
    buffer.extend_from_slice(&bytes[..count])?;
    buffer.resize(len as usize, 0)?;
    Ok(buffer)
}
