//! Two actors: the second one's driver call fails, and then both unplug one chip at once.

ghost use Rattle.std.specs.Prelude.{◌≡◌};
ghost use Rattle.gl_chip.specs.Values.{IsActorOf};
ghost use Rattle.gl_chip_tests.specs.Same.{IsSame};

use gl_base::command::GET_LINE;
use gl_base::{Errno, Name, Phase, flag};
use gl_chip::{Actor, ChipFd, Gpio};
use gl_core::Core;
use gl_core::laws::first_bad;
use gl_device::Device;
use gl_driver::{Driver, Port};
use gl_uapi::layout::LINE_REQUEST_SIZE;
use gl_uapi::write_request;
use gl_world::{Entry, Machine};
use std::alloc::Global;
use std::sync::Wait;
use std::thread::{Threads, join};

/// Unplugs the chip of place 0, by an actor that comes back, with what it was answered.
pub fn unplug_once<D: Driver<Core>, R: Wait>(
    rt: &R,
    gpio: &Gpio<D>,
    mut actor: Actor<D>,
) -> (Actor<D>, Result<(), Errno>)
    requires actor { IsActorOf gpio.now actor }
    ensures actor { IsActorOf gpio.now result.0 }
    ensures same { IsSame actor.pass.view result.0.pass.view }
{
    let answer = gpio.unplug(rt, &mut actor, 0);
    (actor, answer)
}

/// Two actors unplug the chip of place 0, in two threads.
fn unplug_in_two_threads<D: Driver<Core>, R: Threads + Wait + Sync>(
    rt: &R,
    gpio: &Gpio<D>,
    first: Actor<D>,
    second: Actor<D>,
) -> ((Actor<D>, Result<(), Errno>), (Actor<D>, Result<(), Errno>))
    requires first { IsActorOf gpio.now first }
    requires second { IsActorOf gpio.now second }
    ensures first { IsActorOf gpio.now result.0.0 }
    ensures second { IsActorOf gpio.now result.1.0 }
    ensures same_first { IsSame first.pass.view result.0.0.pass.view }
    ensures same_second { IsSame second.pass.view result.1.0.pass.view }
{
    join(
        rt,
        || -> (Actor<D>, Result<(), Errno>)
            requires { IsActorOf gpio.now first }
            ensures actor { IsActorOf gpio.entry.now result.0 }
            ensures same { IsSame first.pass.view result.0.pass.view }
        { unplug_once(rt, gpio, first) },
        || -> (Actor<D>, Result<(), Errno>)
            requires { IsActorOf gpio.now second }
            ensures actor { IsActorOf gpio.entry.now result.0 }
            ensures same { IsSame second.pass.view result.0.pass.view }
        { unplug_once(rt, gpio, second) },
    )
}

/// What came of two actors of one device.
#[derive(Drop)]
pub struct Ended {
    /// Their numbers.
    numbers: [u8; 2],
    /// What the second one was answered, whose driver call failed.
    requested: Result<(), Errno>,
    /// What they were answered that unplugged the chip at once.
    unplugged: [Result<(), Errno>; 2],
    /// How many failures their ports counted.
    faults: [u64; 2],
    core: Core,
    history: Vec<Entry<Core>>,
}

/// Whether an actor was told that another one unplugs the chip, or has unplugged it.
fn is_late(answer: Result<(), Errno>) -> bool {
    matches!(answer, Err(Errno::Busy) | Err(Errno::NoDev))
}

impl Ended {
    /// One actor unplugged the chip, and the other was late.
    fn has_one_winner(&self) -> bool {
        let (first, second) = (self.unplugged[0], self.unplugged[1]);
        if first == Ok(()) {
            is_late(second)
        } else {
            is_late(first) && second == Ok(())
        }
    }

    /// The second actor's driver call failed, by the count of its own port alone.
    fn has_failed_once(&self) -> bool {
        self.numbers == [0, 1] && self.requested == Err(Errno::Io) && self.faults == [0, 1]
    }

    /// Whether one actor failed, one unplugged the chip, the chip is gone, and the history is one that the machine can have.
    pub fn is_right(&self, alloc: Global) -> bool {
        self.has_failed_once()
            && self.has_one_winner()
            && self.core.phase(0) == Phase::Gone
            && has_no_bad_entry(&self.history, alloc)
    }
}

/// Whether a short history is one that the machine can have.
pub fn has_no_bad_entry(history: &[Entry<Core>], alloc: Global) -> bool {
    history.len() <= 1000 && first_bad(history, alloc) == Ok(None)
}

/// Requests line 0 as an input, while the first driver call fails.
fn request_and_fail<D: Driver<Core>, R: Wait>(
    rt: &R,
    alloc: Global,
    gpio: &Gpio<D>,
    actor: &mut Actor<D>,
    file: &ChipFd,
) -> Result<(), Errno>
    requires actor { IsActorOf gpio.now actor.old }
    ensures actor { IsActorOf gpio.now actor.new }
    ensures same { IsSame actor.old.pass.view actor.new.pass.view }
{
    actor.plan(1);
    let mut bytes = [0; LINE_REQUEST_SIZE];
    write_request(&mut bytes, &[0], &Name::empty(), 1 << flag::INPUT, &[], 0);
    match gpio.chip_ioctl(rt, alloc, actor, file, GET_LINE, &mut bytes) {
        Ok(_) => Ok(()),
        Err(errno) => Err(errno),
    }
}

/// A second actor, with this port, requests a line in vain, both unplug the chip of place 0 at once, and the device ends.
pub fn unplug_and_end<D: Driver<Core>, R: Threads + Wait + Sync>(
    rt: &R,
    alloc: Global,
    device: Device<D>,
    port: D::Port,
    file: &ChipFd,
) -> Ended {
    let (gpio, mut actor) = device.into_parts();
    let mut other = gpio.split(&mut actor, port);
    let numbers = [actor.number(), other.number()];
    let requested = request_and_fail(rt, alloc, &gpio, &mut other, file);
    let ((mut actor, first), (other, second)) = unplug_in_two_threads(rt, &gpio, actor, other);
    let port = gpio.join(&mut actor, other);
    let (core, history, first_port) = gpio.finish(actor);
    Ended {
        numbers,
        requested,
        unplugged: [first, second],
        faults: [first_port.faults(), port.faults()],
        core,
        history,
    }
}
