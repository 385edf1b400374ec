//! Commands on open files, by their numbers.

ghost use Rattle.std.specs.Prelude.{◌≡◌, ◌≢◌, ◌<◌, ◌^◌, ◌++◌, ℕ, List, false, true, Some, Err, length, take, drop, is_some, IfOk, IfSome};
ghost use Rattle.gl_base.specs.Count.{Rises};
ghost use Rattle.gl_base.specs.Lines.{IsLineCount};
ghost use Rattle.gl_base.specs.declared.errno.Errno.TheVariants.{NoMemory};
ghost use Rattle.gl_base.specs.declared.limits.TheConstants.{PLACES};
ghost use Rattle.gl_base.specs.declared.lines.Lines.{Lines as SomeLines};
ghost use Rattle.gl_uapi.specs.Command.{command_of};
ghost use Rattle.gl_uapi.specs.declared.commands.Command.TheVariants.{SetConfig};
ghost use Rattle.gl_uapi.specs.declared.layout.TheConstants.{LINE_REQUEST_SIZE};
ghost use Rattle.gl_model.specs.AskedLines.{lines_asked};
ghost use Rattle.gl_model.specs.Entries.{is_get_line};
ghost use Rattle.gl_model.specs.Written.{number_answered};
ghost use Rattle.gl_model.specs.declared.reply.Reply.TheVariants.{Number};
ghost use Rattle.gl_model.specs.Parts.{is_driver_asked};
ghost use Rattle.gl_chip.specs.Answering.{AnswersInOrder, ConfiguresInOrder, RequestsInOrder, WasLetIn};
ghost use Rattle.gl_chip.specs.DriverCommands.{CommandsOut, TakesMemory, requested_of};
ghost use Rattle.gl_asking.specs.Driving.{op_for};
ghost use Rattle.gl_asking.specs.Handed.{command_in};
ghost use Rattle.gl_asking.specs.Results.{done_of};
ghost use Rattle.gl_chip.specs.Values.{IsActorOf, IsSameActor};

use crate::actor::Actor;
use crate::bringing::brought_by;
use crate::files::{ChipFd, LineFd};
use crate::gpio::Gpio;
use crate::orders::CallOn;
use gl_asking::{Answered, FileKind, results};
use gl_base::Errno;
use gl_core::{Core, Gift, Reply};
use gl_driver::Driver;
use gl_model::DeviceCall;
use std::alloc::Global;
use std::sync::Wait;

/// The file of a request that a command on a chip of this place made, or why the command was refused. Any other command gives no file.
fn requested(place: u8, answered: &Answered) -> Result<Option<LineFd>, Errno>
    requires place { place < PLACES }
    requires number { number_answered answered.now.reply < 2 ^ 32 }
    requires counts { IfSome answered.now.lines (λ lines. IsLineCount lines.count) }
    ensures { (lines : SomeLines) → ((n : ℕ) → answered.now.reply ≡ Number n → answered.now.lines ≡ Some lines) → result ≡ requested_of place lines answered.now.reply }
{
    match (answered.reply, answered.lines) {
        (Reply::Refused(errno), _) => Err(errno),
        (Reply::Number(number), Some(lines)) => Ok(Some(LineFd {
            place,
            fd: number as u32,
            lines,
        })),
        _ => Ok(None),
    }
}

impl<D: Driver<Core>> Gpio<D> {
    /// A command on an open chip, by its number in `linux/gpio.h`, with its structure in the buffer.
    ///
    /// GET_LINE asks the driver, once, where the machine lets it; where it succeeds, and only there, it gives a file, of the lines
    /// that the buffer named. Its ring is taken before its first entry: when out of memory, nothing was done.
    ///
    /// `NoDev` where the removal of the chip had closed the place; `BadF` where no open file has this number at this place;
    /// `Inval` where the command isn't one of the file that has this number here (a chip's, where the file is of this device);
    /// `Fault` where the buffer is shorter than the command's structure; then the command's own refusals; `Full` where the
    /// history is full. GET_LINE is refused for its bytes alone, with `MFile` where no more file can be open, and then for
    /// its first faulty line: `Inval` where the chip has no such line, `Busy` where somebody has it, it stands earlier in the
    /// request or its pin is held, `NxIo` where it is to tell of edges and has no interrupt, `Io` where it is to be an output
    /// and is locked as an enabled interrupt. `Io` also comes where the driver failed, which its port has counted, and
    /// `NoMemory` where the ring found none.
    pub fn chip_ioctl<R: Wait>(
        &self,
        rt: &R,
        alloc: Global,
        actor: &mut Actor<D>,
        fd: &ChipFd,
        cmd: u32,
        buf: &mut [u8],
    ) -> Result<Option<LineFd>, Errno>
        requires actor { IsActorOf self.now actor.old }
        requires length { length buf.old < 2 ^ 32 }
        ensures actor { IsActorOf self.now actor.new }
        ensures same { IsSameActor actor.old.pass.view actor.new.pass.view }
        ensures memory { result ≡ Err NoMemory → TakesMemory (command_in fd.now.place fd.now.fd true cmd buf.old) × (actor.new ≡ actor.old) × (buf.new ≡ buf.old) }
        ensures called { result ≢ Err NoMemory → let c = command_in fd.now.place fd.now.fd true cmd buf.old in
            let lines = lines_asked (take LINE_REQUEST_SIZE c.bytes) in
            (bytes : List ℕ) × (buf.new ≡ bytes ++ drop (length bytes) buf.old)
            × CommandsOut D.Port.told D.Port.faults D.Port.maps D.Port.maps_left D.OwnEntries D.Follows D.ENTRIES
            (requested_of fd.now.place lines) result (op_for lines c) actor.old c bytes actor.new }
        ensures file { IfOk result (λ file. is_some file ≡ is_get_line (command_of cmd)) }
        ensures told { is_driver_asked true (length buf.old) (command_of cmd) ≡ true → WasLetIn result → let c = command_in fd.now.place fd.now.fd true cmd buf.old in
            AnswersInOrder (requested_of fd.now.place (lines_asked (take LINE_REQUEST_SIZE c.bytes))) result actor.old.pass.view actor.new.pass.view c }
        ensures first_faulty { is_driver_asked true (length buf.old) (command_of cmd) ≡ true → WasLetIn result → let c = command_in fd.now.place fd.now.fd true cmd buf.old in
            RequestsInOrder (Rises (D.Port.faults actor.old.port) (D.Port.faults actor.new.port)) result actor.old.pass.view actor.new.pass.view c }
    {
        let command = fd.command(cmd, buf);
        // What holds of every actor is known once it has told its number.
        let _before = actor.number();
        match brought_by(&command, alloc) {
            Err(errno) => Err(errno),
            Ok(mut gift) => {
                let order = CallOn {
                    call: &DeviceCall::Commanding(command),
                    on: &FileKind::Chip,
                };
                match self.carry(rt, actor, &order, &mut gift, buf) {
                    Ok(answered) => {
                        let _after = actor.number();
                        requested(command.place, &answered)
                    }
                    Err(errno) => Err(errno),
                }
            }
        }
    }

    /// A command on an open request, by its number in `linux/gpio.h`, with its structure in the buffer.
    ///
    /// SET_CONFIG, GET_VALUES and SET_VALUES ask the driver, once, where the machine lets them; GET_VALUES writes its structure.
    ///
    /// `NoDev` where the removal of the chip had closed the place; `BadF` where no open file has this number at this place;
    /// `Inval` where the command isn't one of the file that has this number here (a request, where the file is of this
    /// device); `Fault` where the buffer is shorter than the command's structure; then the command's own refusals; `Io` where
    /// the driver failed, which its port has counted; `Full` where the history is full. SET_CONFIG is refused for its bytes
    /// alone, and then, before the driver is asked and again after it, for the first faulty line among those to which it
    /// gives a direction: `NxIo` where it is to tell of edges and has no interrupt, `Io` where it is to be an output and is
    /// locked as an enabled interrupt.
    pub fn line_ioctl<R: Wait>(
        &self,
        rt: &R,
        actor: &mut Actor<D>,
        fd: &LineFd,
        cmd: u32,
        buf: &mut [u8],
    ) -> Result<(), Errno>
        requires actor { IsActorOf self.now actor.old }
        requires length { length buf.old < 2 ^ 32 }
        ensures actor { IsActorOf self.now actor.new }
        ensures same { IsSameActor actor.old.pass.view actor.new.pass.view }
        ensures called { let c = command_in fd.now.place fd.now.fd false cmd buf.old in
            (bytes : List ℕ) × (buf.new ≡ bytes ++ drop (length bytes) buf.old)
            × CommandsOut D.Port.told D.Port.faults D.Port.maps D.Port.maps_left D.OwnEntries D.Follows D.ENTRIES
            done_of result (op_for fd.now.lines c) actor.old c bytes actor.new }
        ensures told { is_driver_asked false (length buf.old) (command_of cmd) ≡ true → WasLetIn result → let c = command_in fd.now.place fd.now.fd false cmd buf.old in
            AnswersInOrder done_of result actor.old.pass.view actor.new.pass.view c }
        ensures first_faulty { command_of cmd ≡ Some SetConfig → is_driver_asked false (length buf.old) (command_of cmd) ≡ true → WasLetIn result
            → let c = command_in fd.now.place fd.now.fd false cmd buf.old in
            ConfiguresInOrder (Rises (D.Port.faults actor.old.port) (D.Port.faults actor.new.port)) result actor.new.pass.view c }
    {
        let command = fd.command(cmd, buf);
        let order = CallOn {
            call: &DeviceCall::Commanding(command),
            on: &FileKind::Request(fd.lines()),
        };
        match self.carry(rt, actor, &order, &mut Gift::nothing(), buf) {
            Ok(answered) => results::done(answered.reply),
            Err(errno) => Err(errno),
        }
    }
}
