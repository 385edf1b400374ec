//! Commands on open files that ask no driver: each is one entry of the history, behind the guard of its place.

ghost use Rattle.std.specs.Prelude.{◌≡◌, ◌≢◌, ◌⊎◌, ◌<◌, ◌++◌, ℕ, List, false, true, length, drop, IfOk, IfErr};
ghost use Rattle.gl_base.specs.declared.errno.Errno.TheVariants.{Full};
ghost use Rattle.gl_base.specs.declared.limits.TheConstants.{PLACES};
ghost use Rattle.gl_uapi.specs.Command.{command_of};
ghost use Rattle.gl_model.specs.declared.reply.Reply.TheVariants.{Refused};
ghost use Rattle.gl_model.specs.declared.device_call.DeviceCall.TheVariants.{Commanding};
ghost use Rattle.gl_model.specs.Parts.{in_whole, is_driver_asked};
ghost use Rattle.gl_model.specs.Replies.{has_form};
ghost use Rattle.gl_model.specs.Step.{guard_reply};
ghost use Rattle.gl_chip.specs.Called.{HasCalled};
ghost use Rattle.gl_asking.specs.Handed.{command_in};
ghost use Rattle.gl_chip.specs.Steps.{FoundNoRoom};
ghost use Rattle.gl_chip.specs.Values.{IsActorOf, IsSameActor};
ghost use Rattle.gl_core.specs.Device.{core};

use crate::actor::Actor;
use crate::gpio::Gpio;
use crate::guarding::{Guard, guarded};
use gl_asking::parts::in_part;
use gl_base::Errno;
use gl_core::{Core, Part, Reply};
use gl_driver::Driver;
use gl_model::CommandIn;
use std::sync::Wait;

impl<D: Driver<Core>> Gpio<D> {
    /// A command on an open file for which the driver isn't asked, with the buffer that it is called with.
    pub(crate) fn whole_command<R: Wait>(
        &self,
        rt: &R,
        actor: &mut Actor<D>,
        command: &CommandIn,
        out: &mut [u8],
    ) -> Result<Reply, Errno>
        requires actor { IsActorOf self.now actor.old }
        requires place { command.now.place < PLACES }
        requires not_asked { is_driver_asked command.now.of_chip command.now.len (command_of command.now.cmd) ≡ false }
        requires handed { let c = command.now in c ≡ command_in c.place c.fd c.of_chip c.cmd out.old }
        ensures actor { IsActorOf self.now actor.new }
        ensures same { IsSameActor actor.old.pass.view actor.new.pass.view }
        ensures port { actor.new.port ≡ actor.old.port }
        ensures called { IfOk result (λ r. (bytes : List ℕ) × (out.new ≡ bytes ++ drop (length bytes) out.old)
            × HasCalled 0 actor.old.pass.view (Commanding command.now) r bytes actor.new.pass.view) }
        ensures form { IfOk result (λ r. (r ≡ guard_reply false) ⊎ (has_form (in_whole command.now) r ≡ true)) }
        ensures not_full { IfOk result (λ r. r ≢ Refused Full) }
        ensures full { IfErr result (λ e. (e ≡ Full) × (out.new ≡ out.old)
            × FoundNoRoom core actor.old.pass.view actor.new.pass.view) }
    {
        let call = in_part(command, Part::Whole);
        let guard = Guard {
            place: command.place,
            poll: false,
        };
        guarded(rt, &self.gate, &mut actor.pass, guard, &call, out)
    }
}
