//! Open files: opened, polled, read and closed.

ghost use Rattle.gl_asking.specs.Opened.{opened_of};
ghost use Rattle.gl_asking.specs.Results.{done_of, number_of, ready_of};
ghost use Rattle.gl_base.specs.ChipWord.{chip_number_of};
ghost use Rattle.gl_base.specs.declared.errno.Errno.TheVariants.{Full, NoDev, NoMemory};
ghost use Rattle.gl_chip.specs.Called.{ComesOut};
ghost use Rattle.gl_chip.specs.Files.{plain_result};
ghost use Rattle.gl_chip.specs.Opened.{LastFinds, names_leaving};
ghost use Rattle.gl_gate.specs.Calls.{KnowsTheSame};
ghost use Rattle.gl_model.specs.declared.call.Call.TheVariants.{OpenChip, Close, PollChip as PollChipCall, PollLine as PollLineCall, ReadEdges, ReadInfo};
ghost use Rattle.gl_model.specs.declared.device_call.DeviceCall.TheVariants.{Once};
ghost use Rattle.std.specs.Prelude.{◌≡◌, ◌≢◌, ◌↔◌, ◌<◌, ◌^◌, ℕ, [], Some, Err, IfOk, ◌++◌, List, length, drop, IfErr};

use crate::device::Device;
use gl_base::{Errno, Path};
use gl_chip::{ChipFd, LineFd};
use gl_core::Core;
use gl_driver::Driver;
use std::alloc::Global;
use std::sync::Wait;

impl<D: Driver<Core>> Device<D> {
    /// Opens the chip that a word names: by its number, its name, or its path below `/dev/`. Out of memory, nothing was done.
    pub fn open_chip<R: Wait>(
        &mut self,
        rt: &R,
        alloc: Global,
        word: &Path,
    ) -> Result<ChipFd, Errno>
        ensures port { self.new.port ≡ self.old.port }
        ensures places { KnowsTheSame self.old.pass.view self.new.pass.view }
        ensures memory { result ≡ Err NoMemory → self.new ≡ self.old }
        ensures called { result ≢ Err NoMemory
            → ComesOut (opened_of word.now) result self.old.pass.view (Once (OpenChip word.now)) [] self.new.pass.view }
        ensures place { IfOk result (λ file. chip_number_of word.now ≡ Some file.place) }
        ensures leaving { result ≢ Err NoMemory → result ≢ Err Full
            → ((result ≡ Err NoDev) ↔ LastFinds (names_leaving word.now) self.new.pass.view.seen) }
    {
        self.gpio.open_chip(rt, alloc, &mut self.actor, word)
    }

    /// Asks whether a change of a watched line waits at a chip file: bit 0 where one does. 6, which is bits 1 and 2 (an error and
    /// a hang-up), where the removal of its chip had closed the place.
    pub fn poll_chip<R: Wait>(&mut self, rt: &R, fd: &ChipFd) -> Result<u8, Errno>
        ensures port { self.new.port ≡ self.old.port }
        ensures called { ComesOut ready_of result self.old.pass.view (Once (PollChipCall fd.now.place fd.now.fd)) [] self.new.pass.view }
    {
        self.gpio.poll_chip(rt, &mut self.actor, fd)
    }

    /// Asks whether an event of a request waits: bit 0 where one does. 6, which is bits 1 and 2 (an error and a hang-up), where
    /// the removal of its chip had closed the place.
    pub fn poll_line<R: Wait>(&mut self, rt: &R, fd: &LineFd) -> Result<u8, Errno>
        ensures port { self.new.port ≡ self.old.port }
        ensures called { ComesOut ready_of result self.old.pass.view (Once (PollLineCall fd.now.place fd.now.fd)) [] self.new.pass.view }
    {
        self.gpio.poll_line(rt, &mut self.actor, fd)
    }

    /// Reads changes of watched lines, as many as wait and the buffer has room for, and answers how many bytes it gave.
    pub fn read_info<R: Wait>(&mut self, rt: &R, fd: &ChipFd, buf: &mut [u8]) -> Result<u32, Errno>
        requires length { length buf.old < 2 ^ 32 }
        ensures port { self.new.port ≡ self.old.port }
        ensures called { (bytes : List ℕ) × (buf.new ≡ bytes ++ drop (length bytes) buf.old)
            × ComesOut number_of result self.old.pass.view (Once (ReadInfo fd.now.place fd.now.fd (length buf.old))) bytes self.new.pass.view }
    {
        self.gpio.read_info(rt, &mut self.actor, fd, buf)
    }

    /// Reads events of a request, as many as wait and the buffer has room for, and answers how many bytes it gave.
    pub fn read_edges<R: Wait>(&mut self, rt: &R, fd: &LineFd, buf: &mut [u8]) -> Result<u32, Errno>
        requires length { length buf.old < 2 ^ 32 }
        ensures port { self.new.port ≡ self.old.port }
        ensures called { (bytes : List ℕ) × (buf.new ≡ bytes ++ drop (length bytes) buf.old)
            × ComesOut number_of result self.old.pass.view (Once (ReadEdges fd.now.place fd.now.fd (length buf.old))) bytes self.new.pass.view }
    {
        self.gpio.read_edges(rt, &mut self.actor, fd, buf)
    }

    /// Closes a chip, in every phase of it. Where it is refused, the file comes back.
    pub fn close_chip<R: Wait>(&mut self, rt: &R, fd: ChipFd) -> Result<(), (ChipFd, Errno)>
        ensures port { self.new.port ≡ self.old.port }
        ensures places { KnowsTheSame self.old.pass.view self.new.pass.view }
        ensures called { ComesOut done_of (plain_result result) self.old.pass.view (Once (Close fd.fd)) [] self.new.pass.view }
        ensures file { IfErr result (λ refused. refused.0 ≡ fd) }
    {
        self.gpio.close_chip(rt, &mut self.actor, fd)
    }

    /// Closes a request, in every phase of its chip: its lines are free then. Where it is refused, the file comes back.
    pub fn close_line<R: Wait>(&mut self, rt: &R, fd: LineFd) -> Result<(), (LineFd, Errno)>
        ensures port { self.new.port ≡ self.old.port }
        ensures places { KnowsTheSame self.old.pass.view self.new.pass.view }
        ensures called { ComesOut done_of (plain_result result) self.old.pass.view (Once (Close fd.fd)) [] self.new.pass.view }
        ensures file { IfErr result (λ refused. refused.0 ≡ fd) }
    {
        self.gpio.close_line(rt, &mut self.actor, fd)
    }
}
