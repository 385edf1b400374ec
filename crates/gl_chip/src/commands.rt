//! Commands on open files, by what their files are of.

ghost use Rattle.std.specs.Prelude.{◌≡◌, ◌<◌, ◌^◌, ◌++◌, ℕ, List, true, false, length, drop, IfOk, IfErr, IfSome};
ghost use Rattle.gl_base.specs.Lines.{IsLineCount};
ghost use Rattle.gl_base.specs.declared.errno.Errno.TheVariants.{Full};
ghost use Rattle.gl_base.specs.declared.limits.TheConstants.{PLACES};
ghost use Rattle.gl_model.specs.declared.device_call.DeviceCall.TheVariants.{Commanding};
ghost use Rattle.gl_model.specs.declared.reply.Reply.TheVariants.{Number};
ghost use Rattle.gl_asking.specs.declared.kinds.FileKind.TheVariants.{Chip};
ghost use Rattle.gl_asking.specs.Driving.{op_for};
ghost use Rattle.gl_asking.specs.Handed.{command_in};
ghost use Rattle.gl_chip.specs.DriverCommands.{HasCommanded, IsOp};
ghost use Rattle.gl_chip.specs.Orders.{Brings, GivesOn, lines_on};
ghost use Rattle.gl_chip.specs.Steps.{FoundNoRoom};
ghost use Rattle.gl_chip.specs.Values.{IsActorOf, IsSameActor};
ghost use Rattle.gl_core.specs.Device.{core};

use crate::actor::Actor;
use crate::driver_commands::DriverCommand;
use crate::driver_operations::{line_op, lines_for, request_op};
use crate::gpio::Gpio;
use gl_asking::Answered;
use gl_base::{Errno, Lines};
use gl_core::{Core, Gift, Reply};
use gl_driver::Driver;
use gl_model::{CommandIn, is_driver_asked};
use std::mem;
use std::sync::Wait;

impl<D: Driver<Core>> Gpio<D> {
    /// A command on an open chip, with what its ask brings, and the lines of the request that it made, where it made one. GET_LINE asks the
    /// driver.
    pub(crate) fn command_on_chip<R: Wait>(
        &self,
        rt: &R,
        actor: &mut Actor<D>,
        command: &CommandIn,
        gift: &mut Gift,
        out: &mut [u8],
    ) -> Result<Answered, Errno>
        requires actor { IsActorOf self.now actor.old }
        requires place { command.now.place < PLACES }
        requires chip { command.now.of_chip ≡ true }
        requires handed { let c = command.now in c ≡ command_in c.place c.fd c.of_chip c.cmd out.old }
        requires brings { Brings (Commanding command.now) gift.old }
        ensures actor { IsActorOf self.now actor.new }
        ensures same { IsSameActor actor.old.pass.view actor.new.pass.view }
        ensures commanded { IfOk result (λ r. (bytes : List ℕ) × (out.new ≡ bytes ++ drop (length bytes) out.old)
            × HasCommanded D.Port.told D.Port.faults D.Port.maps D.Port.maps_left D.OwnEntries D.Follows D.ENTRIES (op_for (lines_on Chip command.now) command.now) actor.old command.now r.reply bytes actor.new) }
        ensures number { IfOk result (λ r. (n : ℕ) → r.reply ≡ Number n → (n < 2 ^ 31) × IsOp (op_for (lines_on Chip command.now) command.now)) }
        ensures lines { IfOk result (GivesOn Chip command.now) }
        ensures counts { IfOk result (λ r. IfSome r.lines (λ lines. IsLineCount lines.count)) }
        ensures full { IfErr result (λ e. (e ≡ Full) × (out.new ≡ out.old) × (actor.new.port ≡ actor.old.port)
            × FoundNoRoom core actor.old.pass.view actor.new.pass.view) }
    {
        if !is_driver_asked(command) {
            return match self.whole_command(rt, actor, command, out) {
                Ok(reply) => Ok(Answered::without_lines(reply)),
                Err(errno) => Err(errno),
            };
        }
        let op = request_op(gift);
        let mut asked = DriverCommand {
            command,
            op: &op,
            gift: mem::replace(gift, Gift::nothing()),
        };
        match self.driven_command(rt, actor, &mut asked, out) {
            Ok(reply) => Ok(Answered {
                reply,
                lines: lines_for(&op),
            }),
            Err(errno) => Err(errno),
        }
    }

    /// A command on an open request of these lines, which brings nothing.
    pub(crate) fn command_on_request<R: Wait>(
        &self,
        rt: &R,
        actor: &mut Actor<D>,
        command: &CommandIn,
        lines: &Lines,
        out: &mut [u8],
    ) -> Result<Reply, Errno>
        requires actor { IsActorOf self.now actor.old }
        requires place { command.now.place < PLACES }
        requires count { IsLineCount lines.now.count }
        requires request { command.now.of_chip ≡ false }
        requires handed { let c = command.now in c ≡ command_in c.place c.fd c.of_chip c.cmd out.old }
        ensures actor { IsActorOf self.now actor.new }
        ensures same { IsSameActor actor.old.pass.view actor.new.pass.view }
        ensures commanded { IfOk result (λ r. (bytes : List ℕ) × (out.new ≡ bytes ++ drop (length bytes) out.old)
            × HasCommanded D.Port.told D.Port.faults D.Port.maps D.Port.maps_left D.OwnEntries D.Follows D.ENTRIES (op_for lines.now command.now) actor.old command.now r bytes actor.new) }
        ensures number { IfOk result (λ r. (n : ℕ) → r ≡ Number n → (n < 2 ^ 31) × IsOp (op_for lines.now command.now)) }
        ensures full { IfErr result (λ e. (e ≡ Full) × (out.new ≡ out.old) × (actor.new.port ≡ actor.old.port)
            × FoundNoRoom core actor.old.pass.view actor.new.pass.view) }
    {
        match line_op(lines, command.cmd, command.len, &command.bytes) {
            None => self.whole_command(rt, actor, command, out),
            Some(op) => {
                let op = Some(op);
                let mut asked = DriverCommand {
                    command,
                    op: &op,
                    gift: Gift::nothing(),
                };
                self.driven_command(rt, actor, &mut asked, out)
            }
        }
    }
}
