//! The step: each call of the machine is one method of the state.

ghost use Rattle.std.specs.Prelude.{◌≡◌, ◌<◌};
ghost use Rattle.gl_base.specs.declared.limits.TheConstants.{PLACES};
ghost use Rattle.gl_model.specs.Fits.{Fits, FitsBuffer, Leaves};
ghost use Rattle.gl_model.specs.Step.{guard_reply, step};
ghost use Rattle.gl_model.specs.declared.call.Call.TheVariants.{Remove, Unplug};
ghost use Rattle.gl_core.specs.Reached.{IsReached};
ghost use Rattle.gl_core.specs.Steps.{StepsInto};

use crate::commanded::Commanded;
use crate::state::State;
use gl_base::{Errno, Name};
use gl_model::{Call, Gift, Reply};

impl State {
    /// Makes a call for an actor.
    pub(crate) fn step(&mut self, actor: u8, call: &Call, gift: &mut Gift, out: &mut [u8]) -> Reply
        requires fits { Fits call.now gift.old out.old }
        requires reached { IsReached self.old }
        ensures steps { StepsInto (λ w. step w actor call.now) self.old self.new result out.old out.new }
        ensures gift { Leaves call.now result gift.old gift.new }
    {
        match call {
            Call::Probe { label, lines, kind } => self.probe(*label, *lines, *kind),
            Call::Unplug { place, last } => self.unplug(actor, *place, *last, out),
            Call::MakeDir { path } => self.make_dir(path),
            Call::RemoveDir { path } => self.remove_dir(path),
            Call::Write { path, value } => self.write_file(path, value),
            Call::Read { path } => self.read_file(path),
            Call::Live { device } => self.go_live(device),
            Call::Remove { device, last } => self.remove(actor, device, *last, out),
            Call::Tick { mono, real } => self.tick(*mono, *real),
            Call::Pin { place, what } => self.pin(*place, *what),
            Call::Irq {
                place,
                offset,
                what,
            } => self.irq(*place, *offset, *what),
            Call::Pull { place, offset, up } => self.pull(*place, *offset, *up),
            Call::Level {
                place,
                offset,
                pull,
            } => self.read_level(*place, *offset, *pull),
            Call::Interrupt { place, offset, up } => self.interrupt(*place, *offset, *up),
            Call::OpenChip { word } => self.open_chip(word, gift),
            Call::Find { place, name } => self.find_lines(*place, name),
            Call::Ioctl {
                place,
                fd,
                cmd,
                len,
                bytes,
                part,
            } => {
                let commanded = Commanded {
                    place: *place,
                    fd: *fd,
                    len: *len,
                    bytes,
                    part: *part,
                };
                self.ioctl(actor, *cmd, &commanded, gift, out)
            }
            Call::ReadEdges { place, fd, len } => self.read_edges(*place, *fd, *len, out),
            Call::ReadInfo { place, fd, len } => self.read_info(*place, *fd, *len, out),
            Call::PollLine { place, fd } => self.poll_line(*place, *fd),
            Call::PollChip { place, fd } => self.poll_chip(*place, *fd),
            Call::Close { fd } => self.close(*fd),
            Call::Refused { place: _, poll } => guard_reply(*poll),
        }
    }

    /// The removal of a chip that is of no device of the tree begins or ends.
    fn unplug(&mut self, actor: u8, place: u8, last: bool, out: &mut [u8]) -> Reply
        requires place { place < PLACES }
        requires buffer { FitsBuffer (Unplug place last) out.old }
        ensures { StepsInto (λ w. step w actor (Unplug place last)) self.old self.new result out.old out.new }
    {
        if last {
            self.end_unplug(actor, place)
        } else {
            self.begin_unplug(actor, place, out)
        }
    }

    /// The removal of all chips of a device begins or ends.
    fn remove(&mut self, actor: u8, device: &Name, last: bool, out: &mut [u8]) -> Reply
        requires { FitsBuffer (Remove device.now last) out.old }
        ensures { StepsInto (λ w. step w actor (Remove device.now last)) self.old self.new result out.old out.new }
    {
        if last {
            self.end_remove(actor, device)
        } else {
            self.begin_remove(actor, device, out)
        }
    }
}

/// What a call is answered that was refused at a closed guard: `NoDev`, and a poll that the file has hung up, with an error.
fn guard_reply(is_poll: bool) -> Reply
    ensures { result ≡ guard_reply is_poll }
{
    if is_poll {
        Reply::Ready(6)
    } else {
        Reply::Refused(Errno::NoDev)
    }
}
