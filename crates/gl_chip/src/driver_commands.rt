//! Commands on open files that ask the driver: each is an ask and, where that is answered Go, the driver's call and a tell.

ghost use Rattle.std.specs.Prelude.{◌≡◌, ◌<◌, ◌^◌, ◌++◌, ℕ, List, true, length, drop, IfOk, IfErr};
ghost use Rattle.gl_base.specs.declared.errno.Errno.TheVariants.{Full};
ghost use Rattle.gl_base.specs.declared.limits.TheConstants.{PLACES};
ghost use Rattle.gl_uapi.specs.Command.{command_of};
ghost use Rattle.gl_gate.specs.Values.{IsPassOf};
ghost use Rattle.gl_gate.specs.Calls.{IsInside};
ghost use Rattle.gl_model.specs.declared.reply.Reply.TheVariants.{Number};
ghost use Rattle.gl_model.specs.Entries.{is_go};
ghost use Rattle.gl_model.specs.Fits.{FitsGift};
ghost use Rattle.gl_model.specs.Parts.{in_ask, is_driver_asked};
ghost use Rattle.gl_chip.specs.DriverCommands.{CommandedInside, IsOp, IsOpAfterGo, HasCommanded};
ghost use Rattle.gl_asking.specs.Handed.{command_in};
ghost use Rattle.gl_chip.specs.Steps.{FoundNoRoom, Owes, StoodFull};
ghost use Rattle.gl_chip.specs.Values.{IsActorOf, IsSameActor};
ghost use Rattle.gl_core.specs.Device.{core};

use crate::actor::Actor;
use crate::driving::{OpInside, ask, drive, tell};
use crate::gpio::Gpio;
use crate::guarding::{Guard, refused_at};
use gl_asking::parts::in_part;
use gl_base::Errno;
use gl_core::{Core, Gift, Part, Reply};
use gl_driver::{Driver, Op};
use gl_gate::Pass;
use gl_model::CommandIn;
use std::sync::Wait;

/// The driver is to be asked.
fn is_go(reply: &Reply) -> bool
    ensures { result ≡ is_go reply.now }
{
    matches!(reply, Reply::Go(_))
}

/// A command that asks the driver, with what its ask brings, and what the driver is asked for it where the machine lets it.
#[derive(Drop)]
pub(crate) struct DriverCommand<'a> {
    /// The command, with the buffer that it is called with.
    pub(crate) command: &'a CommandIn,
    /// The operation. There is one wherever the machine answers the ask Go; there is none of a request of lines that its bytes alone
    /// have refused.
    pub(crate) op: &'a Option<Op>,
    /// What the ask brings. After Go its ring is gone, and what is asked for stays.
    pub(crate) gift: Gift,
}

impl<D: Driver<Core>> Gpio<D> {
    /// A command that asks the driver, inside the place of its file: the ask, which brings the gift, and, after Go, the driver's call and
    /// the tell.
    fn command_inside<R: Wait>(
        &self,
        rt: &R,
        pass: &mut Pass<Core>,
        port: &mut D::Port,
        asked: &mut DriverCommand<'_>,
        out: &mut [u8],
    ) -> Result<Reply, Errno>
        requires gate { IsPassOf self.now pass.old }
        requires place { asked.old.command.now.place < PLACES }
        requires inside { IsInside pass.old.view asked.old.command.now.place }
        requires alone { (p : ℕ) → IsInside pass.old.view p → p ≡ asked.old.command.now.place }
        requires owes { Owes core pass.old.view 0 }
        requires handed { let c = asked.old.command.now in c ≡ command_in c.place c.fd c.of_chip c.cmd out.old }
        requires brings { FitsGift (in_ask asked.old.command.now) asked.old.gift }
        requires op { IsOpAfterGo (in_ask asked.old.command.now) asked.old.op.now }
        ensures gate { IsPassOf self.now pass.new }
        ensures owes { Owes core pass.new.view 0 }
        ensures inside { pass.new.view.inside ≡ pass.old.view.inside }
        ensures called { IfOk result (λ r. CommandedInside D.Port.told D.Port.faults D.Port.maps D.Port.maps_left D.OwnEntries D.Follows D.ENTRIES asked.old.op.now
            pass.old.view port.old asked.old.command.now r out.old out.new pass.new.view port.new) }
        ensures full { IfErr result (λ e. (e ≡ Full) × (out.new ≡ out.old) × (port.new ≡ port.old)
            × StoodFull core pass.old.view pass.new.view) }
    {
        let command = asked.command;
        let op = asked.op;
        let asking = in_part(command, Part::Ask);
        match ask(rt, &self.gate, pass, &asking, &mut asked.gift, out) {
            Err(errno) => Err(errno),
            Ok(reply) => match op {
                // A request of lines that its bytes alone have refused.
                None => Ok(reply),
                Some(op) => {
                    if !is_go(&reply) {
                        return Ok(reply);
                    }
                    let inside = OpInside {
                        place: command.place,
                        op,
                    };
                    let answer = drive(rt, &self.gate, &self.driver, port, pass, &inside);
                    let telling = in_part(command, Part::Tell(answer));
                    Ok(tell(rt, &self.gate, pass, &telling, &mut asked.gift, out))
                }
            },
        }
    }

    /// A command on an open file that asks the driver.
    pub(crate) fn driven_command<R: Wait>(
        &self,
        rt: &R,
        actor: &mut Actor<D>,
        asked: &mut DriverCommand<'_>,
        out: &mut [u8],
    ) -> Result<Reply, Errno>
        requires actor { IsActorOf self.now actor.old }
        requires place { asked.old.command.now.place < PLACES }
        requires asked { let c = asked.old.command.now in is_driver_asked c.of_chip c.len (command_of c.cmd) ≡ true }
        requires handed { let c = asked.old.command.now in c ≡ command_in c.place c.fd c.of_chip c.cmd out.old }
        requires brings { FitsGift (in_ask asked.old.command.now) asked.old.gift }
        requires op { IsOpAfterGo (in_ask asked.old.command.now) asked.old.op.now }
        ensures actor { IsActorOf self.now actor.new }
        ensures same { IsSameActor actor.old.pass.view actor.new.pass.view }
        ensures commanded { IfOk result (λ r. (bytes : List ℕ) × (out.new ≡ bytes ++ drop (length bytes) out.old)
            × HasCommanded D.Port.told D.Port.faults D.Port.maps D.Port.maps_left D.OwnEntries D.Follows D.ENTRIES asked.old.op.now
            actor.old asked.old.command.now r bytes actor.new) }
        ensures number { IfOk result (λ r. (n : ℕ) → r ≡ Number n → (n < 2 ^ 31) × IsOp asked.old.op.now) }
        ensures full { IfErr result (λ e. (e ≡ Full) × (out.new ≡ out.old) × (actor.new.port ≡ actor.old.port)
            × FoundNoRoom core actor.old.pass.view actor.new.pass.view) }
    {
        let place = asked.command.place;
        let Actor { pass, port } = actor;
        if !self.gate.enter(pass, place) {
            return refused_at(rt, &self.gate, pass, Guard { place, poll: false }, out);
        }
        let answer = self.command_inside(rt, pass, port, asked, out);
        self.gate.leave(pass, place);
        answer
    }
}
