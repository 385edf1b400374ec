//! Lines requested, and their values got and set, without structures.

ghost use Rattle.std.specs.Prelude.{◌≡◌, ◌≢◌, ◌≤◌, ℕ, List, [], false, true, Err, IfOk, length, take};
ghost use Rattle.gl_asking.specs.Driving.{op_for};
ghost use Rattle.gl_asking.specs.Handed.{command_in};
ghost use Rattle.gl_asking.specs.Results.{done_of};
ghost use Rattle.gl_base.specs.declared.command.TheConstants.{GET_LINE, LINE_GET_VALUES, LINE_SET_VALUES};
ghost use Rattle.gl_base.specs.declared.errno.Errno.TheVariants.{NoMemory};
ghost use Rattle.gl_base.specs.declared.limits.TheConstants.{LINES_PER_REQUEST};
ghost use Rattle.gl_chip.specs.DriverCommands.{CommandsOut, requested_of};
ghost use Rattle.gl_model.specs.AskedLines.{lines_asked};
ghost use Rattle.gl_uapi.specs.LineValues.{values_bytes};
ghost use Rattle.gl_uapi.specs.declared.layout.TheConstants.{LINE_REQUEST_SIZE, LINE_VALUES_SIZE};
ghost use Rattle.gl_device.specs.Requests.{as_command, bits_after, request_bytes, without_value};

use crate::device::Device;
use gl_base::command::{GET_LINE, LINE_GET_VALUES, LINE_SET_VALUES};
use gl_base::{Errno, LINES_PER_REQUEST, Name};
use gl_chip::{ChipFd, LineFd};
use gl_core::Core;
use gl_driver::Driver;
use gl_uapi::layout::{LINE_REQUEST_SIZE, LINE_VALUES_SIZE};
use gl_uapi::{ValuesRef, write_request, write_values};
use std::alloc::Global;
use std::sync::Wait;

/// The structure of a request of these lines.
fn request_bytes(offsets: &[u32], consumer: &Name, flags: u64) -> [u8; LINE_REQUEST_SIZE]
    requires { length offsets.now ≤ LINES_PER_REQUEST }
    ensures { result ≡ request_bytes offsets.now consumer.now flags }
{
    let mut bytes = [0; LINE_REQUEST_SIZE];
    write_request(&mut bytes, offsets, consumer, flags, &[], 0);
    bytes
}

/// The structure of these values of the lines that the mask names.
fn values_bytes(bits: u64, mask: u64) -> [u8; LINE_VALUES_SIZE]
    ensures { result ≡ values_bytes bits mask }
{
    let mut bytes = [0; LINE_VALUES_SIZE];
    write_values(&mut bytes, bits, mask);
    bytes
}

impl<D: Driver<Core>> Device<D> {
    /// Requests lines of a chip, 64 at most, for a consumer: each with these flags, and with room for events as the machine gives it.
    /// It is GET_LINE of [`chip_ioctl`](Device::chip_ioctl), and refused as that is.
    pub fn request<R: Wait>(
        &mut self,
        rt: &R,
        alloc: Global,
        fd: &ChipFd,
        offsets: &[u32],
        consumer: &Name,
        flags: u64,
    ) -> Result<LineFd, Errno>
        requires few { length offsets.now ≤ LINES_PER_REQUEST }
        ensures memory { result ≡ Err NoMemory → self.new ≡ self.old }
        ensures called { result ≢ Err NoMemory → let c = command_in fd.now.place fd.now.fd true GET_LINE (request_bytes offsets.now consumer.now flags) in
            let lines = lines_asked (take LINE_REQUEST_SIZE c.bytes) in
            (bytes : List ℕ) × CommandsOut D.Port.told D.Port.faults D.Port.maps D.Port.maps_left D.OwnEntries D.Follows D.ENTRIES
            (requested_of fd.now.place lines) (as_command result) (op_for lines c) self.old c bytes self.new }
    {
        let mut bytes = request_bytes(offsets, consumer, flags);
        match self.chip_ioctl(rt, alloc, fd, GET_LINE, &mut bytes) {
            Ok(Some(line)) => Ok(line),
            Ok(None) => Err(Errno::Inval),
            Err(errno) => Err(errno),
        }
    }

    /// The values of those of a request's lines that the mask names: bit `i` is that of the line at position `i`, and each other bit is
    /// 0. It is GET_VALUES of [`line_ioctl`](Device::line_ioctl), and refused as that is.
    pub fn get_values<R: Wait>(&mut self, rt: &R, fd: &LineFd, mask: u64) -> Result<u64, Errno>
        ensures called { let c = command_in fd.now.place fd.now.fd false LINE_GET_VALUES (values_bytes 0 mask) in
            (bytes : List ℕ) × IfOk result (λ bits. bits ≡ bits_after bytes (values_bytes 0 mask))
            × CommandsOut D.Port.told D.Port.faults D.Port.maps D.Port.maps_left D.OwnEntries D.Follows D.ENTRIES
            done_of (without_value result) (op_for fd.now.lines c) self.old c bytes self.new }
    {
        let mut bytes = values_bytes(0, mask);
        match self.line_ioctl(rt, fd, LINE_GET_VALUES, &mut bytes) {
            Ok(()) => Ok(ValuesRef::of(&bytes).unwrap().bits()),
            Err(errno) => Err(errno),
        }
    }

    /// Sets the values of those of a request's lines that the mask names: bit `i` is that of the line at position `i`. It is SET_VALUES
    /// of [`line_ioctl`](Device::line_ioctl), and refused as that is.
    pub fn set_values<R: Wait>(
        &mut self,
        rt: &R,
        fd: &LineFd,
        mask: u64,
        bits: u64,
    ) -> Result<(), Errno>
        ensures called { let c = command_in fd.now.place fd.now.fd false LINE_SET_VALUES (values_bytes bits mask) in
            (bytes : List ℕ) × CommandsOut D.Port.told D.Port.faults D.Port.maps D.Port.maps_left D.OwnEntries D.Follows D.ENTRIES
            done_of result (op_for fd.now.lines c) self.old c bytes self.new }
    {
        let mut bytes = values_bytes(bits, mask);
        self.line_ioctl(rt, fd, LINE_SET_VALUES, &mut bytes)
    }
}
