//! Devices with a chip that stands for the lines of a request on another chip.

ghost use Rattle.std.specs.Prelude.{◌≡◌};
ghost use Rattle.gl_chip.specs.Values.{IsActorOf};
ghost use Rattle.gl_chip_tests.specs.Same.{IsSame};
ghost use Rattle.gl_driver.specs.Maps.{FitsMap};

use crate::files::open;
use gl_base::command::{GET_LINE, LINE_GET_VALUES};
use gl_base::{Errno, Kind, Name, flag};
use gl_chip::{Actor, ChipFd, Gpio, LineFd};
use gl_core::Core;
use gl_device::Device;
use gl_driver::{Driver, Map, Target};
use gl_uapi::layout::{LINE_REQUEST_SIZE, LINE_VALUES_SIZE};
use gl_uapi::{ValuesRef, write_request, write_values};
use std::alloc::Global;
use std::sync::Wait;

/// Two files of such a device.
#[derive(Drop)]
pub struct Files {
    /// A request of both lines of the simulated chip, as inputs.
    pub target: LineFd,
    /// The chip that stands for them.
    pub aggregated: ChipFd,
}

/// Makes a simulated chip of two lines at place 0, with line 1 pulled up, and a remote one of two lines at place 1; opens both, and requests
/// the lines of the first.
pub fn set_up<D: Driver<Core>, R: Wait>(
    rt: &R,
    alloc: Global,
    device: &mut Device<D>,
) -> Result<Files, Errno> {
    let made = [
        device.probe(rt, Name::empty(), 2, Kind::Simulated) == Ok(0),
        device.probe(rt, Name::filled(b"agg"), 2, Kind::Remote) == Ok(1),
        device.set_pull(rt, 0, 1, true) == Ok(()),
    ];
    if made != [true; 3] {
        return Err(Errno::Again);
    }
    let aggregated = open(rt, alloc, device, b"gpiochip1")?;
    match lines_of_the_first(rt, alloc, device) {
        Ok(target) => Ok(Files { target, aggregated }),
        Err(errno) => Err(errno),
    }
}

/// Requests both lines of the chip at place 0 as inputs.
fn lines_of_the_first<D: Driver<Core>, R: Wait>(
    rt: &R,
    alloc: Global,
    device: &mut Device<D>,
) -> Result<LineFd, Errno> {
    match open(rt, alloc, device, b"gpiochip0") {
        Ok(chip) => {
            let flags = 1 << flag::INPUT;
            device.request(rt, alloc, &chip, &[0, 1], &Name::empty(), flags)
        }
        Err(errno) => Err(errno),
    }
}

/// The map by which the chip at place 1 stands for a request at place 0.
fn map_to(target: &LineFd) -> Map
    ensures place { result.place ≡ 1 }
    ensures fits { FitsMap result }
{
    let target = Target {
        place: 0,
        fd: target.number(),
        lines: target.lines(),
    };
    Map {
        place: 1,
        count: 1,
        targets: [target; 4],
    }
}

/// Has an actor's port keep the map to a request, as the first of the four that it takes. Whether it keeps it then.
pub fn learn<D: Driver<Core>>(actor: &mut Actor<D>, target: &LineFd) -> bool
    ensures { actor.new.pass ≡ actor.old.pass }
{
    let map = map_to(target);
    let before = actor.maps_left();
    match actor.map(1) {
        Some(_) => false,
        None => {
            actor.learn(&map);
            [before, actor.maps_left()] == [4, 3] && actor.map(1).is_some()
        }
    }
}

/// The values of the two lines of a request.
pub fn values<D: Driver<Core>, R: Wait>(
    rt: &R,
    gpio: &Gpio<D>,
    actor: &mut Actor<D>,
    line: &LineFd,
) -> Result<u64, Errno>
    requires actor { IsActorOf gpio.now actor.old }
    ensures actor { IsActorOf gpio.now actor.new }
    ensures same { IsSame actor.old.pass.view actor.new.pass.view }
{
    let mut bytes = [0; LINE_VALUES_SIZE];
    write_values(&mut bytes, 0, 3);
    match gpio.line_ioctl(rt, actor, line, LINE_GET_VALUES, &mut bytes) {
        Ok(()) => Ok(ValuesRef::of(&bytes).unwrap().bits()),
        Err(errno) => Err(errno),
    }
}

/// Requests both lines of a chip with these flags, gets their values, and closes the request.
pub fn reading<D: Driver<Core>, R: Wait>(
    rt: &R,
    alloc: Global,
    gpio: &Gpio<D>,
    actor: &mut Actor<D>,
    chip: &ChipFd,
    flags: u64,
) -> Result<u64, Errno>
    requires actor { IsActorOf gpio.now actor.old }
    ensures actor { IsActorOf gpio.now actor.new }
    ensures same { IsSame actor.old.pass.view actor.new.pass.view }
{
    let mut bytes = [0; LINE_REQUEST_SIZE];
    write_request(&mut bytes, &[0, 1], &Name::empty(), flags, &[], 0);
    match gpio.chip_ioctl(rt, alloc, actor, chip, GET_LINE, &mut bytes) {
        Ok(Some(line)) => {
            let told = values(rt, gpio, actor, &line);
            let _closed = gpio.close_line(rt, actor, line);
            told
        }
        Ok(None) => Err(Errno::Inval),
        Err(errno) => Err(errno),
    }
}
