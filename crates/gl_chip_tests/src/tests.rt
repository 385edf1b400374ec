use crate::files::open;
use crate::on_places::{OnPlace, call_on_place};
use crate::unplugging::unplug_and_end;
use gl_base::{Errno, Kind, Name, flag};
use gl_chip::{ChipFd, LineFd};
use gl_core::Core;
use gl_device::Device;
use gl_driver::{Driver, FakeDriver, SimDriver, SimPort};
use std::alloc::Global;
use std::sync::Wait;
use std::thread::Threads;

/// Makes a simulated chip of four lines, and opens it.
fn open_new_chip<D: Driver<Core>, R: Wait>(
    rt: &R,
    alloc: Global,
    device: &mut Device<D>,
) -> Result<ChipFd, Errno> {
    match device.probe(rt, Name::empty(), 4, Kind::Simulated) {
        Ok(_) => open(rt, alloc, device, b"gpiochip0"),
        Err(errno) => Err(errno),
    }
}

/// Makes a chip, and has two actors, the second one with this port, unplug it. Whether all came out right.
fn ends_right<D: Driver<Core>, R: Threads + Wait + Sync>(
    rt: &R,
    alloc: Global,
    mut device: Device<D>,
    port: D::Port,
) -> Result<bool, Errno> {
    match open_new_chip(rt, alloc, &mut device) {
        Ok(file) => Ok(unplug_and_end(rt, alloc, device, port, &file).is_right(alloc)),
        Err(errno) => Err(errno),
    }
}

/// The same of a new device.
fn ends_right_of_new<R: Threads + Wait + Sync>(rt: &R, alloc: Global) -> Result<bool, Errno> {
    match Device::new(alloc, SimDriver::new(), SimPort::new(), 20) {
        Ok(device) => ends_right(rt, alloc, device, SimPort::new()),
        Err(errno) => Err(errno),
    }
}

#[test]
fn of_two_actors_one_fails_by_its_own_port_and_one_unplugs_the_chip(rt: HostRuntime) {
    for _ in 0..200 {
        assert!(rt; ends_right_of_new(&rt, rt.alloc()) == Ok(true));
    }
}

/// A new device over a driver that tells that the first of two lines is high.
fn over_levels(alloc: Global) -> Result<Device<FakeDriver>, Errno> {
    let driver = FakeDriver::new(vec![in alloc; true, false]?);
    Device::new(alloc, driver, SimPort::new(), 100)
}

/// Makes calls on the places of a device. Whether each is answered by the kind of its chip, in this order.
fn are_answered_by_kind<D: Driver<Core>, R: Wait>(rt: &R, device: &mut Device<D>) -> [bool; 7] {
    [
        device.probe(rt, Name::empty(), 4, Kind::Simulated) == Ok(0),
        device.probe(rt, Name::empty(), 3, Kind::Remote) == Ok(1),
        call_on_place(rt, device, 0, 1) == OnPlace::simulated(),
        call_on_place(rt, device, 1, 2) == OnPlace::remote(),
        device.unplug(rt, 0) == Ok(()),
        call_on_place(rt, device, 0, 1) == OnPlace::refused(Errno::NoDev),
        call_on_place(rt, device, 2, 1) == OnPlace::refused(Errno::NoEnt),
    ]
}

/// A request of the lines 0 and 1 of the remote chip as inputs.
fn remote_inputs<D: Driver<Core>, R: Wait>(
    rt: &R,
    alloc: Global,
    device: &mut Device<D>,
) -> Result<LineFd, Errno> {
    match open(rt, alloc, device, b"gpiochip1") {
        Ok(file) => device.request(rt, alloc, &file, &[0, 1], &Name::empty(), 1 << flag::INPUT),
        Err(errno) => Err(errno),
    }
}

/// Gets and sets values of that request, tells of an interrupt, and pulls line 1 up. Whether each is answered as the driver tells, in this
/// order.
fn are_as_the_driver_tells<D: Driver<Core>, R: Wait>(
    rt: &R,
    device: &mut Device<D>,
    line: &LineFd,
) -> [bool; 6] {
    [
        (line.number(), line.place()) == (4, 1),
        line.lines().offsets() == [0, 1].as_slice(),
        device.get_values(rt, line, 3) == Ok(1),
        device.set_values(rt, line, 1, 1) == Err(Errno::Perm),
        device.interrupt(rt, 1, 1, true) == Ok(()),
        device.set_pull(rt, 1, 1, true) == Err(Errno::Inval),
    ]
}

/// Makes these calls on a device. Whether they are answered by the kinds of chips and by the driver, in this order.
fn are_answered<D: Driver<Core>, R: Wait>(
    rt: &R,
    alloc: Global,
    device: &mut Device<D>,
) -> Result<[bool; 2], Errno> {
    let by_kind = are_answered_by_kind(rt, device) == [true; 7];
    match remote_inputs(rt, alloc, device) {
        Ok(line) => Ok([
            by_kind,
            are_as_the_driver_tells(rt, device, &line) == [true; 6],
        ]),
        Err(errno) => Err(errno),
    }
}

#[test]
fn calls_are_answered_by_the_kind_of_their_chip_and_by_its_driver(rt: HostRuntime) {
    let Ok(mut device) = over_levels(rt.alloc()) else {
        panic!(rt; "no memory")
    };
    assert!(rt; are_answered(&rt, rt.alloc(), &mut device) == Ok([true; 2]));
}
