//! Which calls are in range, and what a call needs: the memory that it brings, and its buffer.

ghost use Rattle.std.specs.Prelude.{◌≡◌, ◌≤◌, ◌==◌, ℕ, List, None, take, drop, length, IfErr, IfOk, IsOkUnless, IsTrue};
ghost use Rattle.std.specs.Bool.{Decides};
ghost use Rattle.std.specs.List.{list_all};
ghost use Rattle.gl_base.specs.Name.{is_name};
ghost use Rattle.gl_base.specs.declared.errno.Errno.TheVariants.{NoMemory};
ghost use Rattle.gl_base.specs.declared.limits.TheConstants.{LINES_MAX};
ghost use Rattle.gl_model.specs.AskedLines.{asked_by, request_fault};
ghost use Rattle.gl_uapi.specs.declared.layout.TheConstants.{LINE_REQUEST_SIZE};
ghost use Rattle.gl_core.specs.Legal.{buffer_size};
ghost use Rattle.gl_core.specs.Memory.{CallTakesMemory, PartTakesMemory};
ghost use Rattle.gl_model.specs.declared.call.Part.TheVariants.{Ask};
ghost use Rattle.gl_model.specs.Fits.{BringsRequest, FitsBuffer, FitsBytes, FitsCall, FitsGift, HoldsRequest};

use gl_base::{Errno, LINES_MAX, Name, PLACES};
use gl_model::{Asked, Call, Gift, Part};
use gl_ring::EdgeRing;
use gl_uapi::Command;
use gl_uapi::layout::LINE_REQUEST_SIZE;
use gl_watch::InfoQueue;
use std::alloc::Global;

/// Whether the arguments of a call are in range: a place is below `PLACES`, a chip has 1 to `LINES_MAX` lines, and the bytes of a
/// command are 0 from the buffer's length on. A name is one by its type.
pub fn fits_call(call: &Call) -> bool
    ensures { Decides result (FitsCall call.now) }
{
    match call {
        Call::Probe { label, lines, .. } => has_lines(*lines) && is_name(label),
        Call::Write { value, .. } => is_name(value),
        Call::Find { place: None, .. } => true,
        Call::Ioctl {
            place,
            len,
            bytes,
            ..
        } => *place < PLACES && fits_bytes(*len, bytes),
        Call::Unplug { place, .. }
        | Call::Find {
            place: Some(place),
            ..
        }
        | Call::Pin { place, .. }
        | Call::Irq { place, .. }
        | Call::Pull { place, .. }
        | Call::Level { place, .. }
        | Call::Interrupt { place, .. }
        | Call::ReadEdges { place, .. }
        | Call::ReadInfo { place, .. }
        | Call::PollLine { place, .. }
        | Call::PollChip { place, .. }
        | Call::Refused { place, .. } => *place < PLACES,
        Call::MakeDir { .. }
        | Call::RemoveDir { .. }
        | Call::Read { .. }
        | Call::Live { .. }
        | Call::Remove { .. }
        | Call::Tick { .. }
        | Call::OpenChip { .. }
        | Call::Close { .. } => true,
    }
}

/// Whether a chip may have so many lines.
fn has_lines(lines: u32) -> bool
    ensures { Decides result ((1 ≤ lines) × (lines ≤ LINES_MAX)) }
{
    1 <= lines && lines <= LINES_MAX
}

/// Whether the bytes of a name are those of one, as they are by its type.
fn is_name(name: &Name) -> bool
    ensures { Decides result (IsTrue (is_name name.now)) }
{
    Name::of(name.as_bytes()).is_some()
}

/// Whether the bytes of a command are 0 from the buffer's length on.
fn fits_bytes(len: u32, bytes: &[u8; LINE_REQUEST_SIZE]) -> bool
    ensures { Decides result (FitsBytes len bytes.now) }
{
    is_zero_from(bytes, len as usize)
}

/// Whether all bytes from an index on are 0.
fn is_zero_from(bytes: &[u8], from: usize) -> bool
    ensures { result ≡ list_all (λ byte. byte == 0) (drop from bytes.now) }
{
    bytes_from(bytes, from).iter().all(|byte| *byte == 0)
}

/// The bytes from an index on: none, where there are no more than so many.
fn bytes_from(bytes: &[u8], from: usize) -> &[u8]
    ensures { result.now ≡ drop from bytes.now }
{
    &bytes[from.min(bytes.len())..]
}

/// What a call brings: an empty queue for an open, and for an ask of GET_LINE what its bytes ask for with an empty ring of the
/// capacity that they state, where they are without fault. `NoMemory` is its only error, and comes only of these two.
pub fn gift_for(call: &Call, alloc: Global) -> Result<Gift, Errno>
    ensures ok { IfOk result (λ gift. FitsGift call.now gift) }
    ensures memory_alone { IsOkUnless result Errno.NoMemory }
    ensures memory { IfErr result (λ _. CallTakesMemory call.now) }
{
    match call {
        Call::OpenChip { .. } => {
            let queue = InfoQueue::new(alloc)?;
            Ok(Gift {
                ring: None,
                queue: Some(queue),
                asked: None,
            })
        }
        Call::Ioctl {
            cmd,
            bytes,
            part,
            ..
        } => gift_in_part(*cmd, bytes, part, alloc),
        _ => Ok(Gift::nothing()),
    }
}

/// What a part of a command brings, if it brings anything.
fn gift_in_part(
    cmd: u32,
    bytes: &[u8; LINE_REQUEST_SIZE],
    part: &Part,
    alloc: Global,
) -> Result<Gift, Errno>
    ensures ok { IfOk result (λ gift. BringsRequest cmd bytes.now part.now gift) }
    ensures memory_alone { IsOkUnless result Errno.NoMemory }
    ensures memory { IfErr result (λ _. PartTakesMemory cmd bytes.now part.now) }
{
    match part {
        Part::Ask => gift_for_ask(cmd, bytes, alloc),
        Part::Whole | Part::Tell(_) => Ok(Gift::nothing()),
    }
}

/// What the ask of a command brings, if it brings anything.
fn gift_for_ask(cmd: u32, bytes: &[u8; LINE_REQUEST_SIZE], alloc: Global) -> Result<Gift, Errno>
    ensures ok { IfOk result (λ gift. BringsRequest cmd bytes.now Ask gift) }
    ensures memory_alone { IsOkUnless result Errno.NoMemory }
    ensures memory { IfErr result (λ _. PartTakesMemory cmd bytes.now Ask) }
{
    match Command::of(cmd) {
        Some(Command::GetLine) => gift_for_lines(bytes, alloc),
        _ => Ok(Gift::nothing()),
    }
}

/// What an ask of GET_LINE with these bytes brings: what they ask for and an empty ring of the capacity that they state, or why they
/// alone have it refused. `NoMemory` is its only error, and comes only where they haven't.
pub fn gift_for_lines(bytes: &[u8; LINE_REQUEST_SIZE], alloc: Global) -> Result<Gift, Errno>
    ensures ok { IfOk result (HoldsRequest (take LINE_REQUEST_SIZE bytes.now)) }
    ensures memory { IfErr result (λ errno. (errno ≡ NoMemory) × (request_fault (take LINE_REQUEST_SIZE bytes.now) ≡ None)) }
{
    match Asked::of(bytes, alloc) {
        Err(errno) => Err(errno),
        Ok(asked) => gift_of(asked, alloc),
    }
}

/// What is asked for, with an empty ring of the capacity that it states; or why it is refused.
fn gift_of(asked: Result<Asked, Errno>, alloc: Global) -> Result<Gift, Errno>
    ensures ok { IfOk result (λ gift. (bytes : List ℕ) → asked ≡ asked_by bytes → HoldsRequest bytes gift) }
    ensures memory { IfErr result (λ errno. (errno ≡ NoMemory) × ((bytes : List ℕ) → asked ≡ asked_by bytes → request_fault bytes ≡ None)) }
{
    match asked {
        Err(errno) => Ok(Gift {
            ring: None,
            queue: None,
            asked: Some(Err(errno)),
        }),
        Ok(asked) => match EdgeRing::with_capacity(alloc, asked.capacity()) {
            Err(errno) => Err(errno),
            Ok(ring) => Ok(Gift {
                ring: Some(ring),
                queue: None,
                asked: Some(Ok(asked)),
            }),
        },
    }
}

/// How many bytes the buffer of a call has: two for the first call of a removal, and else as many as the call names.
pub fn buffer_size(call: &Call) -> u32
    ensures { result ≡ buffer_size call.now }
{
    match call {
        Call::Unplug { last: false, .. } | Call::Remove { last: false, .. } => 2,
        Call::Ioctl { len, .. } | Call::ReadEdges { len, .. } | Call::ReadInfo { len, .. } => *len,
        _ => 0,
    }
}

/// Makes a buffer of this size one that a call may write to: that of a command begins with the bytes of the call.
pub fn fill(buffer: &mut [u8], call: &Call)
    requires { length buffer.old ≡ buffer_size call.now }
    ensures { FitsBuffer call.now buffer.new }
{
    if let Call::Ioctl { bytes, .. } = call {
        copy_start(bytes, buffer);
    }
}

/// Copies the bytes of a command to the start of a buffer: as many as the buffer has room for.
fn copy_start(bytes: &[u8; LINE_REQUEST_SIZE], buffer: &mut [u8])
    ensures start { take LINE_REQUEST_SIZE buffer.new ≡ take (length buffer.old) bytes.now }
    ensures len { length buffer.new ≡ length buffer.old }
{
    let count = buffer.len().min(LINE_REQUEST_SIZE);
    buffer[..count].copy_from_slice(&bytes[..count]);
}
