//! What the calls on a chip file are answered.

ghost use Rattle.std.specs.Prelude.{◌≤◌};

use gl_base::command::{GET_CHIPINFO, GET_LINEINFO, GET_LINEINFO_UNWATCH, GET_LINEINFO_WATCH};
use gl_base::{Errno, Name, flag};
use gl_chip::ChipFd;
use gl_core::Core;
use gl_device::Device;
use gl_driver::Driver;
use gl_uapi::layout::{CHIP_INFO_SIZE, LINE_INFO_SIZE, UNWATCH_SIZE};
use std::alloc::Global;
use std::sync::Wait;

/// What each of these calls was answered, made once, in this order.
#[derive(Clone, Copy, PartialEq, Eq)]
pub struct OnChipFile {
    /// GET_CHIPINFO.
    pub chip_info: Result<(), Errno>,
    /// GET_LINEINFO of line 0.
    pub line_info: Result<(), Errno>,
    /// GET_LINEINFO_WATCH of line 0.
    pub watch: Result<(), Errno>,
    /// GET_LINEINFO_UNWATCH of line 0.
    pub unwatch: Result<(), Errno>,
    /// GET_LINE of line 1 as an input, which gives the number of the request.
    pub get_line: Result<u32, Errno>,
    /// A poll.
    pub poll: Result<u8, Errno>,
    /// A read into a buffer that one change fits into.
    pub read: Result<u32, Errno>,
    /// A read into a buffer that is one byte shorter, which each open file answers alike, whatever its kind.
    pub short_read: Result<u32, Errno>,
}

impl OnChipFile {
    /// All calls were refused for one reason.
    pub fn refused(errno: Errno) -> OnChipFile {
        OnChipFile {
            chip_info: Err(errno),
            line_info: Err(errno),
            watch: Err(errno),
            unwatch: Err(errno),
            get_line: Err(errno),
            poll: Err(errno),
            read: Err(errno),
            short_read: Err(errno),
        }
    }
}

/// Makes a command with a structure of zeros, so many bytes long.
fn command<D: Driver<Core>, R: Wait>(
    rt: &R,
    alloc: Global,
    device: &mut Device<D>,
    file: &ChipFd,
    cmd: u32,
    size: usize,
) -> Result<(), Errno>
    requires size { size ≤ 256 }
{
    let mut bytes = [0; LINE_INFO_SIZE];
    match device.chip_ioctl(rt, alloc, file, cmd, &mut bytes[..size]) {
        Ok(_) => Ok(()),
        Err(errno) => Err(errno),
    }
}

/// Requests line 1 as an input, and gives the number of the request, which stays open.
fn request_number<D: Driver<Core>, R: Wait>(
    rt: &R,
    alloc: Global,
    device: &mut Device<D>,
    file: &ChipFd,
) -> Result<u32, Errno> {
    match device.request(rt, alloc, file, &[1], &Name::empty(), 1 << flag::INPUT) {
        Ok(line) => Ok(line.number()),
        Err(errno) => Err(errno),
    }
}

/// Reads a chip file into a buffer of so many bytes.
fn read<D: Driver<Core>, R: Wait>(
    rt: &R,
    device: &mut Device<D>,
    file: &ChipFd,
    size: usize,
) -> Result<u32, Errno>
    requires size { size ≤ 288 }
{
    let mut changes = [0; 288];
    device.read_info(rt, file, &mut changes[..size])
}

/// Makes each command on a chip file, polls it, and reads it twice.
pub fn call_on_chip_file<D: Driver<Core>, R: Wait>(
    rt: &R,
    alloc: Global,
    device: &mut Device<D>,
    file: &ChipFd,
) -> OnChipFile {
    OnChipFile {
        chip_info: command(rt, alloc, device, file, GET_CHIPINFO, CHIP_INFO_SIZE),
        line_info: command(rt, alloc, device, file, GET_LINEINFO, LINE_INFO_SIZE),
        watch: command(rt, alloc, device, file, GET_LINEINFO_WATCH, LINE_INFO_SIZE),
        unwatch: command(rt, alloc, device, file, GET_LINEINFO_UNWATCH, UNWATCH_SIZE),
        get_line: request_number(rt, alloc, device, file),
        poll: device.poll_chip(rt, file),
        read: read(rt, device, file, 288),
        short_read: read(rt, device, file, 287),
    }
}
