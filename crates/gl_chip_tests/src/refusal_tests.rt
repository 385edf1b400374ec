ghost use Rattle.std.specs.Prelude.{◌≤◌, length};

use crate::chip_files::{OnChipFile, call_on_chip_file};
use crate::files::{HandedBack, close_chip, close_line, open};
use crate::on_places::{OnPlace, call_on_place};
use crate::on_requests::{OnRequest, call_on_request};
use gl_base::command::LINE_SET_CONFIG;
use gl_base::{Errno, Kind, Name, Path, flag};
use gl_chip::{ChipFd, LineFd};
use gl_core::Core;
use gl_device::Device;
use gl_driver::{Driver, SimDriver, SimPort};
use gl_uapi::layout::LINE_CONFIG_SIZE;
use std::alloc::Global;
use std::sync::Wait;

/// Makes simulated chips of four lines at the places 0 and 1.
fn add_two_chips<D: Driver<Core>, R: Wait>(rt: &R, device: &mut Device<D>) -> Result<(), Errno> {
    let chips = [
        device.probe(rt, Name::empty(), 4, Kind::Simulated),
        device.probe(rt, Name::empty(), 4, Kind::Simulated),
    ];
    if chips == [Ok(0), Ok(1)] {
        Ok(())
    } else {
        Err(Errno::Again)
    }
}

/// A new device over the simulated driver.
fn new_device(alloc: Global, room: u32) -> Result<Device<SimDriver>, Errno> {
    Device::new(alloc, SimDriver::new(), SimPort::new(), room)
}

/// A request of line 3 of a chip as an output.
fn output<D: Driver<Core>, R: Wait>(
    rt: &R,
    alloc: Global,
    device: &mut Device<D>,
    file: &ChipFd,
) -> Result<LineFd, Errno> {
    device.request(rt, alloc, file, &[3], &Name::empty(), 1 << flag::OUTPUT)
}

/// A chip file, and a request of a line of its chip.
#[derive(Drop)]
struct Opened {
    file: ChipFd,
    line: LineFd,
}

/// Opens the chip that a word names, and requests its line 3 as an output.
fn open_with_output<D: Driver<Core>, R: Wait>(
    rt: &R,
    alloc: Global,
    device: &mut Device<D>,
    word: &[u8],
) -> Result<Opened, Errno> {
    let file = open(rt, alloc, device, word)?;
    match output(rt, alloc, device, &file) {
        Ok(line) => Ok(Opened { file, line }),
        Err(errno) => Err(errno),
    }
}

/// The same after two chips were made.
fn make_and_open<D: Driver<Core>, R: Wait>(
    rt: &R,
    alloc: Global,
    device: &mut Device<D>,
    word: &[u8],
) -> Result<Opened, Errno> {
    match add_two_chips(rt, device) {
        Ok(()) => open_with_output(rt, alloc, device, word),
        Err(errno) => Err(errno),
    }
}

/// Makes two chips, and opens the second one twice, by its number.
fn opened_twice<D: Driver<Core>, R: Wait>(
    rt: &R,
    alloc: Global,
    device: &mut Device<D>,
) -> Result<(ChipFd, ChipFd), Errno> {
    add_two_chips(rt, device)?;
    let third = open(rt, alloc, device, b"1")?;
    match open(rt, alloc, device, b"1") {
        Ok(fourth) => Ok((third, fourth)),
        Err(errno) => Err(errno),
    }
}

/// Whether all calls on a chip file and on a request are refused for this reason.
fn refuse_both<D: Driver<Core>, R: Wait>(
    rt: &R,
    alloc: Global,
    device: &mut Device<D>,
    file: &ChipFd,
    line: &LineFd,
    errno: Errno,
) -> bool {
    let on_chip_file = call_on_chip_file(rt, alloc, device, file);
    let on_request = call_on_request(rt, device, line);
    on_chip_file == OnChipFile::refused(errno) && on_request == OnRequest::refused(errno)
}

/// Closes the request of the number 4 and the chip file of the number 3 at place 1. Whether both are handed back for this reason.
fn are_handed_back<D: Driver<Core>, R: Wait>(
    rt: &R,
    device: &mut Device<D>,
    file: ChipFd,
    line: LineFd,
    errno: Errno,
) -> bool {
    let place = 1;
    let file_back = HandedBack {
        number: 3,
        place,
        errno,
    };
    let line_back = HandedBack {
        number: 4,
        place,
        errno,
    };
    close_line(rt, device, line) == Err(line_back) && close_chip(rt, device, file) == Err(file_back)
}

/// Calls each device with a file of the other one, which is of another kind there. Whether each call is refused.
fn are_of_another_kind<D: Driver<Core>, R: Wait>(
    rt: &R,
    alloc: Global,
    first: &mut Device<D>,
    second: &mut Device<D>,
    line: &LineFd,
    fourth: &ChipFd,
) -> [bool; 2] {
    [
        call_on_chip_file(rt, alloc, first, fourth) == OnChipFile::refused(Errno::Inval),
        call_on_request(rt, second, line) == OnRequest::refused(Errno::Inval),
    ]
}

/// Calls two devices with files of each other, and the second one with closed ones. Whether the files have the same numbers on both, each
/// call on a file of another kind is refused, both chip files of the second one are closed, each call on these numbers is refused, and their
/// closes hand the files back, in this order.
fn are_refused<D: Driver<Core>, R: Wait>(
    rt: &R,
    alloc: Global,
    first: &mut Device<D>,
    second: &mut Device<D>,
    opened: Opened,
    twice: (ChipFd, ChipFd),
) -> [bool; 5] {
    let Opened { file, line } = opened;
    let (third, fourth) = twice;
    let are_alike = [third.number(), fourth.number()] == [file.number(), line.number()];
    let unlike = are_of_another_kind(rt, alloc, first, second, &line, &fourth);
    let closed = [
        close_chip(rt, second, third) == Ok(()),
        close_chip(rt, second, fourth) == Ok(()),
    ];
    [
        are_alike,
        unlike == [true; 2],
        closed == [true; 2],
        refuse_both(rt, alloc, second, &file, &line, Errno::BadF),
        are_handed_back(rt, second, file, line, Errno::BadF),
    ]
}

/// The same of two new devices.
fn are_refused_on_new<D: Driver<Core>, R: Wait>(
    rt: &R,
    alloc: Global,
    first: &mut Device<D>,
    second: &mut Device<D>,
) -> Result<[bool; 5], Errno> {
    let opened = make_and_open(rt, alloc, first, b"/dev/gpiochip1")?;
    match opened_twice(rt, alloc, second) {
        Ok(twice) => Ok(are_refused(rt, alloc, first, second, opened, twice)),
        Err(errno) => Err(errno),
    }
}

#[test]
fn a_file_of_another_kind_is_refused_and_so_is_a_closed_one(rt: HostRuntime) {
    let Ok(mut first) = new_device(rt.alloc(), 100) else {
        panic!(rt; "no memory")
    };
    let Ok(mut second) = new_device(rt.alloc(), 100) else {
        panic!(rt; "no memory")
    };
    let refused = are_refused_on_new(&rt, rt.alloc(), &mut first, &mut second);
    assert!(rt; refused == Ok([true; 5]));
}

/// Configures a request so that of its lines the ones of a mask are inputs and outputs, and the others inputs.
fn set_faulty<D: Driver<Core>, R: Wait>(
    rt: &R,
    device: &mut Device<D>,
    line: &LineFd,
    mask: u8,
) -> Result<(), Errno> {
    let mut config = [0u8; LINE_CONFIG_SIZE];
    config[0] = 1 << flag::INPUT;
    // One attribute, of flags, for the lines of the mask.
    config[8] = 1;
    config[32] = 1;
    config[40] = 1 << flag::INPUT | 1 << flag::OUTPUT;
    config[48] = mask;
    device.line_ioctl(rt, line, LINE_SET_CONFIG, &mut config)
}

/// Configures a request of two lines of the first device on both devices; its number is on the second one that of a request of one line.
/// Whether each call is answered as by the latter, in this order: its second line doesn't count.
fn are_of_one_line<D: Driver<Core>, R: Wait>(
    rt: &R,
    first: &mut Device<D>,
    second: &mut Device<D>,
    line: &LineFd,
) -> [bool; 5] {
    [
        second.set_pull(rt, 1, 0, true).is_ok(),
        set_faulty(rt, first, line, 2) == Err(Errno::Inval),
        set_faulty(rt, second, line, 2) == Ok(()),
        second.get_values(rt, line, 1) == Ok(1),
        set_faulty(rt, second, line, 1) == Err(Errno::Inval),
    ]
}

/// A request of the first lines of the chip at place 1 as inputs.
fn inputs<D: Driver<Core>, R: Wait>(
    rt: &R,
    alloc: Global,
    device: &mut Device<D>,
    offsets: &[u32],
) -> Result<LineFd, Errno>
    requires few { length offsets.now ≤ 64 }
{
    match open(rt, alloc, device, b"gpiochip1") {
        Ok(file) => device.request(rt, alloc, &file, offsets, &Name::empty(), 1 << flag::INPUT),
        Err(errno) => Err(errno),
    }
}

/// Makes two chips, and requests the first lines of the second one as inputs.
fn inputs_of_new<D: Driver<Core>, R: Wait>(
    rt: &R,
    alloc: Global,
    device: &mut Device<D>,
    offsets: &[u32],
) -> Result<LineFd, Errno>
    requires few { length offsets.now ≤ 64 }
{
    match add_two_chips(rt, device) {
        Ok(()) => inputs(rt, alloc, device, offsets),
        Err(errno) => Err(errno),
    }
}

/// Whether a request of two lines on one new device has the number of one of one line on the other, and is taken for that there, in this
/// order.
fn are_of_one_number<D: Driver<Core>, R: Wait>(
    rt: &R,
    alloc: Global,
    first: &mut Device<D>,
    second: &mut Device<D>,
) -> Result<[bool; 2], Errno> {
    let line = inputs_of_new(rt, alloc, first, &[0, 1])?;
    match inputs_of_new(rt, alloc, second, &[0]) {
        Ok(other) => Ok([
            other.number() == line.number(),
            are_of_one_line(rt, first, second, &line) == [true; 5],
        ]),
        Err(errno) => Err(errno),
    }
}

#[test]
fn a_file_of_another_device_is_the_one_of_its_number(rt: HostRuntime) {
    let Ok(mut first) = new_device(rt.alloc(), 100) else {
        panic!(rt; "no memory")
    };
    let Ok(mut second) = new_device(rt.alloc(), 100) else {
        panic!(rt; "no memory")
    };
    let numbers = are_of_one_number(&rt, rt.alloc(), &mut first, &mut second);
    assert!(rt; numbers == Ok([true; 2]));
}

/// Which calls of the tree and the clock are refused for want of room, in this order.
fn are_full_on_the_tree<D: Driver<Core>, R: Wait>(rt: &R, device: &mut Device<D>) -> [bool; 7] {
    match (Path::of(b"d"), Path::of(b"d/b/label"), Path::of(b"d/live")) {
        (Some(made), Some(label), Some(live)) => are_full_at(rt, device, &made, &label, &live),
        _ => [false; 7],
    }
}

/// The same, of a device of the tree, its first bank's label, and whether it is live.
fn are_full_at<D: Driver<Core>, R: Wait>(
    rt: &R,
    device: &mut Device<D>,
    made: &Path,
    label: &Path,
    live: &Path,
) -> [bool; 7] {
    let name = Name::filled(b"d");
    [
        device.mkdir(rt, made) == Err(Errno::Full),
        device.rmdir(rt, made) == Err(Errno::Full),
        device.write(rt, label, &name) == Err(Errno::Full),
        device.read(rt, live) == Err(Errno::Full),
        device.live(rt, &name, true) == Err(Errno::Full),
        device.live(rt, &name, false) == Err(Errno::Full),
        device.tick(rt, 1, 1) == Err(Errno::Full),
    ]
}

/// Which calls on chips are refused for want of room, in this order.
fn are_full_on_chips<D: Driver<Core>, R: Wait>(
    rt: &R,
    alloc: Global,
    device: &mut Device<D>,
) -> [bool; 7] {
    let name = Name::filled(b"d");
    [
        device.probe(rt, name, 4, Kind::Simulated) == Err(Errno::Full),
        device.probe(rt, name, 4, Kind::Remote) == Err(Errno::Full),
        device.unplug(rt, 0) == Err(Errno::Full),
        matches!(open(rt, alloc, device, b"0"), Err(Errno::Full)),
        device.find(rt, None, &name) == Err(Errno::Full),
        device.find(rt, Some(0), &name) == Err(Errno::Full),
        call_on_place(rt, device, 0, 1) == OnPlace::refused(Errno::Full),
    ]
}

/// Whether all calls of the tree and the clock and all on chips that name no file are refused for want of room, in this order.
fn are_full<D: Driver<Core>, R: Wait>(rt: &R, alloc: Global, device: &mut Device<D>) -> [bool; 2] {
    [
        are_full_on_the_tree(rt, device) == [true; 7],
        are_full_on_chips(rt, alloc, device) == [true; 7],
    ]
}

/// Fills a history of four entries up. Whether all calls are refused then, those that name no file and those that do, in this order.
fn are_full_behind_four<D: Driver<Core>, R: Wait>(
    rt: &R,
    alloc: Global,
    device: &mut Device<D>,
) -> Result<[bool; 3], Errno> {
    let Opened { file, line } = make_and_open(rt, alloc, device, b"gpiochip1")?;
    Ok([
        are_full(rt, alloc, device) == [true; 2],
        refuse_both(rt, alloc, device, &file, &line, Errno::Full),
        are_handed_back(rt, device, file, line, Errno::Full),
    ])
}

#[test]
fn a_full_history_refuses_every_call(rt: HostRuntime) {
    let Ok(mut device) = new_device(rt.alloc(), 4) else {
        panic!(rt; "no memory")
    };
    let full = are_full_behind_four(&rt, rt.alloc(), &mut device);
    assert!(rt; full == Ok([true; 3]));
}

#[test]
fn a_device_without_room_refuses_the_first_call(rt: HostRuntime) {
    let Ok(mut device) = new_device(rt.alloc(), 0) else {
        panic!(rt; "no memory")
    };
    assert!(rt; are_full(&rt, rt.alloc(), &mut device) == [true; 2]);
}
