//! Opened and closed files of a device.

use gl_base::{Errno, Path};
use gl_chip::{ChipFd, LineFd};
use gl_core::Core;
use gl_device::Device;
use gl_driver::Driver;
use std::alloc::Global;
use std::sync::Wait;

/// A file that a close handed back, and why.
#[derive(Clone, Copy, PartialEq, Eq)]
pub struct HandedBack {
    pub number: u32,
    pub place: u8,
    pub errno: Errno,
}

/// Opens the chip that a word names.
pub fn open<D: Driver<Core>, R: Wait>(
    rt: &R,
    alloc: Global,
    device: &mut Device<D>,
    word: &[u8],
) -> Result<ChipFd, Errno> {
    match Path::of(word) {
        Some(path) => device.open_chip(rt, alloc, &path),
        None => Err(Errno::NoEnt),
    }
}

/// Closes a chip file.
pub fn close_chip<D: Driver<Core>, R: Wait>(
    rt: &R,
    device: &mut Device<D>,
    file: ChipFd,
) -> Result<(), HandedBack> {
    match device.close_chip(rt, file) {
        Ok(()) => Ok(()),
        Err((file, errno)) => Err(HandedBack {
            number: file.number(),
            place: file.place(),
            errno,
        }),
    }
}

/// Closes a request.
pub fn close_line<D: Driver<Core>, R: Wait>(
    rt: &R,
    device: &mut Device<D>,
    line: LineFd,
) -> Result<(), HandedBack> {
    match device.close_line(rt, line) {
        Ok(()) => Ok(()),
        Err((line, errno)) => Err(HandedBack {
            number: line.number(),
            place: line.place(),
            errno,
        }),
    }
}
