use gl_base::{Errno, Kind, Name, Path, flag};
use gl_core::Core;
use gl_device::Device;
use gl_driver::{Driver, SimDriver, SimPort};
use std::alloc::Global;
use std::sync::Wait;

/// Opens a chip, requests its lines 0 and 3 as outputs, and sets the second. Whether each call is answered so, and the levels are these.
fn sets_a_line<D: Driver<Core>, R: Wait>(
    rt: &R,
    alloc: Global,
    device: &mut Device<D>,
    path: &Path,
) -> Result<[bool; 5], Errno> {
    let is_made = device.probe(rt, Name::empty(), 4, Kind::Simulated) == Ok(0);
    let file = device.open_chip(rt, alloc, path)?;
    let line = device.request(rt, alloc, &file, &[0, 3], &Name::empty(), 1 << flag::OUTPUT)?;
    Ok([
        is_made,
        device.set_values(rt, &line, 3, 2) == Ok(()),
        device.get_values(rt, &line, 3) == Ok(2),
        device.level(rt, 0, 3) == Ok(true),
        device.level(rt, 0, 0) == Ok(false),
    ])
}

/// The same on a new device.
fn sets_a_line_of_new<R: Wait>(rt: &R, alloc: Global) -> Result<[bool; 5], Errno> {
    let Some(path) = Path::of(b"gpiochip0") else {
        return Err(Errno::Inval);
    };
    match Device::new(alloc, SimDriver::new(), SimPort::new(), 100) {
        Ok(mut device) => sets_a_line(rt, alloc, &mut device, &path),
        Err(errno) => Err(errno),
    }
}

#[test]
fn a_device_sets_and_gets_the_values_of_lines(rt: HostRuntime) {
    assert_eq!(rt; sets_a_line_of_new(&rt, rt.alloc()), Ok([true; 5]));
}
