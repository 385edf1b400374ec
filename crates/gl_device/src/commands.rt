//! Commands on open files, by their numbers.

ghost use Rattle.gl_asking.specs.Driving.{op_for};
ghost use Rattle.gl_asking.specs.Handed.{command_in};
ghost use Rattle.gl_asking.specs.Results.{done_of};
ghost use Rattle.gl_base.specs.Count.{Rises};
ghost use Rattle.gl_base.specs.declared.errno.Errno.TheVariants.{NoMemory};
ghost use Rattle.gl_chip.specs.Answering.{AnswersInOrder, ConfiguresInOrder, RequestsInOrder, WasLetIn};
ghost use Rattle.gl_chip.specs.DriverCommands.{CommandsOut, TakesMemory, requested_of};
ghost use Rattle.gl_model.specs.AskedLines.{lines_asked};
ghost use Rattle.gl_model.specs.Entries.{is_get_line};
ghost use Rattle.gl_model.specs.Parts.{is_driver_asked};
ghost use Rattle.gl_uapi.specs.Command.{command_of};
ghost use Rattle.gl_uapi.specs.declared.commands.Command.TheVariants.{SetConfig};
ghost use Rattle.gl_uapi.specs.declared.layout.TheConstants.{LINE_REQUEST_SIZE};
ghost use Rattle.std.specs.Prelude.{◌≡◌, ◌≢◌, ◌<◌, ◌^◌, ◌++◌, ℕ, List, false, true, Some, Err, length, take, drop, is_some, IfOk};

use crate::device::Device;
use gl_base::Errno;
use gl_chip::{ChipFd, LineFd};
use gl_core::Core;
use gl_driver::Driver;
use std::alloc::Global;
use std::sync::Wait;

impl<D: Driver<Core>> Device<D> {
    /// A command on an open chip, by its number in `linux/gpio.h`, with its structure in the buffer.
    pub fn chip_ioctl<R: Wait>(
        &mut self,
        rt: &R,
        alloc: Global,
        fd: &ChipFd,
        cmd: u32,
        buf: &mut [u8],
    ) -> Result<Option<LineFd>, Errno>
        requires length { length buf.old < 2 ^ 32 }
        ensures memory { result ≡ Err NoMemory → TakesMemory (command_in fd.now.place fd.now.fd true cmd buf.old) × (self.new ≡ self.old) × (buf.new ≡ buf.old) }
        ensures called { result ≢ Err NoMemory → let c = command_in fd.now.place fd.now.fd true cmd buf.old in
            let lines = lines_asked (take LINE_REQUEST_SIZE c.bytes) in
            (bytes : List ℕ) × (buf.new ≡ bytes ++ drop (length bytes) buf.old)
            × CommandsOut D.Port.told D.Port.faults D.Port.maps D.Port.maps_left D.OwnEntries D.Follows D.ENTRIES
            (requested_of fd.now.place lines) result (op_for lines c) self.old c bytes self.new }
        ensures file { IfOk result (λ file. is_some file ≡ is_get_line (command_of cmd)) }
        ensures told { is_driver_asked true (length buf.old) (command_of cmd) ≡ true → WasLetIn result → let c = command_in fd.now.place fd.now.fd true cmd buf.old in
            AnswersInOrder (requested_of fd.now.place (lines_asked (take LINE_REQUEST_SIZE c.bytes))) result self.old.pass.view self.new.pass.view c }
        ensures first_faulty { is_driver_asked true (length buf.old) (command_of cmd) ≡ true → WasLetIn result → let c = command_in fd.now.place fd.now.fd true cmd buf.old in
            RequestsInOrder (Rises (D.Port.faults self.old.port) (D.Port.faults self.new.port)) result self.old.pass.view self.new.pass.view c }
    {
        self.gpio
            .chip_ioctl(rt, alloc, &mut self.actor, fd, cmd, buf)
    }

    /// A command on an open request, by its number in `linux/gpio.h`, with its structure in the buffer.
    pub fn line_ioctl<R: Wait>(
        &mut self,
        rt: &R,
        fd: &LineFd,
        cmd: u32,
        buf: &mut [u8],
    ) -> Result<(), Errno>
        requires length { length buf.old < 2 ^ 32 }
        ensures called { let c = command_in fd.now.place fd.now.fd false cmd buf.old in
            (bytes : List ℕ) × (buf.new ≡ bytes ++ drop (length bytes) buf.old)
            × CommandsOut D.Port.told D.Port.faults D.Port.maps D.Port.maps_left D.OwnEntries D.Follows D.ENTRIES
            done_of result (op_for fd.now.lines c) self.old c bytes self.new }
        ensures told { is_driver_asked false (length buf.old) (command_of cmd) ≡ true → WasLetIn result → let c = command_in fd.now.place fd.now.fd false cmd buf.old in
            AnswersInOrder done_of result self.old.pass.view self.new.pass.view c }
        ensures first_faulty { command_of cmd ≡ Some SetConfig → is_driver_asked false (length buf.old) (command_of cmd) ≡ true → WasLetIn result
            → let c = command_in fd.now.place fd.now.fd false cmd buf.old in
            ConfiguresInOrder (Rises (D.Port.faults self.old.port) (D.Port.faults self.new.port)) result self.new.pass.view c }
    {
        self.gpio.line_ioctl(rt, &mut self.actor, fd, cmd, buf)
    }
}
