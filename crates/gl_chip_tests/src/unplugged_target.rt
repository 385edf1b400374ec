//! Two actors: one reads a chip that stands for the lines of another one, which the other actor unplugs meanwhile.

ghost use Rattle.std.specs.Prelude.{◌≡◌};
ghost use Rattle.gl_chip.specs.Values.{IsActorOf};
ghost use Rattle.gl_chip_tests.specs.Same.{IsSame};

use crate::aggregated::{Files, learn, reading, set_up, values};
use crate::unplugging::{has_no_bad_entry, unplug_once};
use gl_aggregator::laws::own_entries_are_quiet;
use gl_aggregator::{AggDriver, AggPort};
use gl_base::{Errno, flag};
use gl_chip::{Actor, Gpio};
use gl_core::Core;
use gl_device::Device;
use gl_driver::{Driver, SimDriver, SimPort};
use gl_world::Entry;
use std::alloc::Global;
use std::sync::Wait;
use std::thread::{Threads, join};

/// The flags of a reading of inputs.
const INPUTS: u64 = 1 << flag::INPUT;

/// The values of the lines, of which line 1 is high.
const VALUES: u64 = 2;

/// Reads the aggregated chip until it is answered otherwise than so, and at most 30 times. The last answer.
fn read_until_other<D: Driver<Core>, R: Wait>(
    rt: &R,
    alloc: Global,
    gpio: &Gpio<D>,
    actor: &mut Actor<D>,
    files: &Files,
    values: u64,
) -> Result<u64, Errno>
    requires actor { IsActorOf gpio.now actor.old }
    ensures actor { IsActorOf gpio.now actor.new }
    ensures same { IsSame actor.old.pass.view actor.new.pass.view }
{
    for _ in 1..30 {
        let answer = reading(rt, alloc, gpio, actor, &files.aggregated, INPUTS);
        if answer != Ok(values) {
            return answer;
        }
    }
    reading(rt, alloc, gpio, actor, &files.aggregated, INPUTS)
}

/// Reads the aggregated chip until it is refused, and three times more, by an actor that comes back, with the last four answers.
fn read_often<D: Driver<Core>, R: Wait>(
    rt: &R,
    alloc: Global,
    gpio: &Gpio<D>,
    mut actor: Actor<D>,
    files: &Files,
) -> (Actor<D>, [Result<u64, Errno>; 4])
    requires actor { IsActorOf gpio.now actor }
    ensures actor { IsActorOf gpio.now result.0 }
    ensures same { IsSame actor.pass.view result.0.pass.view }
{
    let answers = [
        read_until_other(rt, alloc, gpio, &mut actor, files, VALUES),
        reading(rt, alloc, gpio, &mut actor, &files.aggregated, INPUTS),
        reading(rt, alloc, gpio, &mut actor, &files.aggregated, INPUTS),
        reading(rt, alloc, gpio, &mut actor, &files.aggregated, INPUTS),
    ];
    (actor, answers)
}

/// One actor unplugs and the other one reads, in two threads. The reader's is the one that calls, which begins at once.
fn unplug_while_reading<D: Driver<Core>, R: Threads + Wait + Sync>(
    rt: &R,
    alloc: Global,
    gpio: &Gpio<D>,
    other: Actor<D>,
    reader: Actor<D>,
    files: &Files,
) -> (
    (Actor<D>, Result<(), Errno>),
    (Actor<D>, [Result<u64, Errno>; 4]),
)
    requires other { IsActorOf gpio.now other }
    requires reader { IsActorOf gpio.now reader }
    ensures other { IsActorOf gpio.now result.0.0 }
    ensures reader { IsActorOf gpio.now result.1.0 }
    ensures same_other { IsSame other.pass.view result.0.0.pass.view }
    ensures same_reader { IsSame reader.pass.view result.1.0.pass.view }
{
    join(
        rt,
        || -> (Actor<D>, Result<(), Errno>)
            requires { IsActorOf gpio.now other }
            ensures actor { IsActorOf gpio.entry.now result.0 }
            ensures same { IsSame other.pass.view result.0.pass.view }
        { unplug_once(rt, gpio, other) },
        || -> (Actor<D>, [Result<u64, Errno>; 4])
            requires { IsActorOf gpio.now reader }
            ensures actor { IsActorOf gpio.entry.now result.0 }
            ensures same { IsSame reader.pass.view result.0.pass.view }
        { read_often(rt, alloc, gpio, reader, files) },
    )
}

/// What came of two actors of one device.
#[derive(Drop)]
pub struct Ended {
    /// Whether the ports of both kept the map.
    have_learnt: [bool; 2],
    /// What the first one read before the other one's removal: the chip, the chip with active low lines, and the target.
    pub before: [Result<u64, Errno>; 3],
    /// What it read of the chip meanwhile, in the end.
    meanwhile: [Result<u64, Errno>; 4],
    /// What the other one was answered, that unplugged the target's chip.
    unplugged: Result<(), Errno>,
    /// What the first one read of the chip behind that, and of the target.
    behind: [Result<u64, Errno>; 2],
    /// What a poll of the chip is answered then.
    poll: Result<u8, Errno>,
    pub history: Vec<Entry<Core>>,
}

/// Whether the readings are these values up to some one, and from there on failures.
fn fail_from_some_on(readings: &[Result<u64, Errno>], values: u64) -> bool {
    let mut has_failed = false;
    for reading in readings {
        match reading {
            Ok(told) if !has_failed && *told == values => {}
            Err(Errno::Io) => has_failed = true,
            _ => return false,
        }
    }
    true
}

impl Ended {
    /// Whether the readings are the target's values, line 1 being high, until they are EIO, and from then on EIO; and the chip is still there
    /// behind the removal. The second reading makes the lines active low, and so the target too.
    pub fn is_right(&self) -> bool {
        self.have_learnt == [true; 2]
            && self.before == [Ok(VALUES), Ok(1), Ok(1)]
            && fail_from_some_on(&self.meanwhile, VALUES)
            && self.unplugged == Ok(())
            && self.behind == [Err(Errno::Io), Err(Errno::NoDev)]
            && self.poll == Ok(0)
    }

    /// Whether the history is one that the machine can have.
    pub fn has_a_legal_history(&self, alloc: Global) -> bool {
        has_no_bad_entry(&self.history, alloc)
    }
}

/// Reads the aggregated chip as inputs, and as active low ones, and then its target.
fn read_before<D: Driver<Core>, R: Wait>(
    rt: &R,
    alloc: Global,
    gpio: &Gpio<D>,
    actor: &mut Actor<D>,
    files: &Files,
) -> [Result<u64, Errno>; 3]
    requires actor { IsActorOf gpio.now actor.old }
    ensures actor { IsActorOf gpio.now actor.new }
    ensures same { IsSame actor.old.pass.view actor.new.pass.view }
{
    let active_low = INPUTS | 1 << flag::ACTIVE_LOW;
    [
        reading(rt, alloc, gpio, actor, &files.aggregated, INPUTS),
        reading(rt, alloc, gpio, actor, &files.aggregated, active_low),
        values(rt, gpio, actor, &files.target),
    ]
}

/// Reads the aggregated chip, and its target.
fn read_behind<D: Driver<Core>, R: Wait>(
    rt: &R,
    alloc: Global,
    gpio: &Gpio<D>,
    actor: &mut Actor<D>,
    files: &Files,
) -> [Result<u64, Errno>; 2]
    requires actor { IsActorOf gpio.now actor.old }
    ensures actor { IsActorOf gpio.now actor.new }
    ensures same { IsSame actor.old.pass.view actor.new.pass.view }
{
    [
        reading(rt, alloc, gpio, actor, &files.aggregated, INPUTS),
        values(rt, gpio, actor, &files.target),
    ]
}

/// Two actors, the second one with this port, learn what the aggregated chip stands for. The first one reads, reads on while the other one
/// unplugs the target's chip, and reads behind that; and the device ends.
fn read_to_the_end<D: Driver<Core>, R: Threads + Wait + Sync>(
    rt: &R,
    alloc: Global,
    device: Device<D>,
    port: D::Port,
    files: &Files,
) -> Ended {
    let (gpio, mut actor) = device.into_parts();
    let mut other = gpio.split(&mut actor, port);
    let have_learnt = [
        learn(&mut actor, &files.target),
        learn(&mut other, &files.target),
    ];
    let before = read_before(rt, alloc, &gpio, &mut actor, files);
    let (removal, readings) = unplug_while_reading(rt, alloc, &gpio, other, actor, files);
    let (other, unplugged) = removal;
    let (mut actor, meanwhile) = readings;
    let behind = read_behind(rt, alloc, &gpio, &mut actor, files);
    let poll = gpio.poll_chip(rt, &mut actor, &files.aggregated);
    let _port = gpio.join(&mut actor, other);
    let (_core, history, _first_port) = gpio.finish(actor);
    Ended {
        have_learnt,
        before,
        meanwhile,
        unplugged,
        behind,
        poll,
        history,
    }
}

/// Sets up a device, and has two actors read to its end, the second one with this port.
fn set_up_and_read<D: Driver<Core>, R: Threads + Wait + Sync>(
    rt: &R,
    alloc: Global,
    mut device: Device<D>,
    port: D::Port,
) -> Result<Ended, Errno> {
    match set_up(rt, alloc, &mut device) {
        Ok(files) => Ok(read_to_the_end(rt, alloc, device, port, &files)),
        Err(errno) => Err(errno),
    }
}

/// The same of a new device, whose history takes so many entries, and whose driver is an aggregator over the simulated driver.
pub fn read_with_room<R: Threads + Wait + Sync>(
    rt: &R,
    alloc: Global,
    room: u32,
) -> Result<Ended, Errno> {
    own_entries_are_quiet();
    let driver = AggDriver::new(SimDriver::new());
    match Device::new(alloc, driver, AggPort::new(SimPort::new()), room) {
        Ok(device) => set_up_and_read(rt, alloc, device, AggPort::new(SimPort::new())),
        Err(errno) => Err(errno),
    }
}
