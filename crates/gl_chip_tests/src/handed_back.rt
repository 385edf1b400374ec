//! Files that `Gpio::call` gives back: of a close that is refused, and of one that finds the history full.

ghost use Rattle.std.specs.Prelude.{◌≡◌, ◌<◌, ◌^◌, true};
ghost use Rattle.gl_asking.specs.Opened.{place_named};
ghost use Rattle.gl_base.specs.declared.limits.TheConstants.{PLACES};
ghost use Rattle.gl_chip.specs.Values.{IsActorOf};
ghost use Rattle.gl_model.specs.Written.{number_answered};

use gl_asking::Change;
use gl_base::{Do, Errno, Kind, Name, PLACES, Path, chip_number};
use gl_chip::{Actor, Gpio, Handed, HeldFile, Order, files_behind};
use gl_core::{Core, Reply};
use gl_device::Device;
use gl_driver::{Driver, SimDriver, SimPort};
use gl_model::{Call, DeviceCall};
use std::alloc::Global;
use std::sync::Wait;

/// Whether a word names a place.
fn names_place(word: &Path) -> bool
    ensures { result ≡ true → place_named word.now < PLACES }
{
    match chip_number(word.as_bytes()) {
        Some(number) => number < u64::from(PLACES),
        None => true,
    }
}

/// Whether a reply is the number of a file.
fn is_file_number(reply: Reply) -> bool
    ensures { result ≡ true → number_answered reply < 2 ^ 32 }
{
    match reply {
        Reply::Number(number) => number < 1 << 31,
        _ => false,
    }
}

/// Opens a chip by an order.
fn open_by_order<D: Driver<Core>, R: Wait>(
    rt: &R,
    alloc: Global,
    gpio: &Gpio<D>,
    actor: &mut Actor<D>,
    word: &Path,
) -> Option<HeldFile>
    requires actor { IsActorOf gpio.now actor.old }
    ensures actor { IsActorOf gpio.now actor.new }
{
    let what = Do::OpenChip {
        slot: 0,
        word: *word,
    };
    let call = DeviceCall::Once(Call::OpenChip { word: *word });
    if !names_place(word) {
        return None;
    }
    match gpio.call(rt, alloc, actor, Order::of(&call, Handed::Nothing), &mut []) {
        Ok(answer) if is_file_number(answer.reply()) => match files_behind(&what, answer) {
            Change::Adds(file) => Some(file),
            Change::Stays | Change::Removes(_) => None,
        },
        Ok(_) | Err(_) => None,
    }
}

/// Closes a file by an order: what that is answered, and the file if it comes back.
fn close_by_order<D: Driver<Core>, R: Wait>(
    rt: &R,
    alloc: Global,
    gpio: &Gpio<D>,
    actor: &mut Actor<D>,
    file: HeldFile,
) -> (Result<Reply, Errno>, Option<HeldFile>)
    requires actor { IsActorOf gpio.now actor.old }
    ensures actor { IsActorOf gpio.now actor.new }
{
    let call = DeviceCall::Once(Call::Close {
        fd: file.row().number(),
    });
    let order = Order::of(&call, Handed::GivenUp(file));
    match gpio.call(rt, alloc, actor, order, &mut []) {
        Ok(answer) => (Ok(answer.reply()), answer.into_file()),
        Err((order, errno)) => (Err(errno), order.into_file()),
    }
}

/// Closes a file on another device, where its number is that of no file, and then on its own one. Whether the other one refuses the close and
/// gives the file back, and its own one closes it and doesn't, in this order.
fn close_elsewhere_first<D: Driver<Core>, R: Wait>(
    rt: &R,
    alloc: Global,
    other: (&Gpio<D>, &mut Actor<D>),
    own: (&Gpio<D>, &mut Actor<D>),
    file: HeldFile,
) -> [bool; 4]
    requires other { IsActorOf other.0.now other.1.now }
    requires own { IsActorOf own.0.now own.1.now }
{
    let number = file.row().number();
    match close_by_order(rt, alloc, other.0, other.1, file) {
        (reply, Some(file)) => {
            let is_same = file.row().number() == number;
            let (closed, back) = close_by_order(rt, alloc, own.0, own.1, file);
            [
                reply == Ok(Reply::Refused(Errno::BadF)),
                is_same,
                closed == Ok(Reply::Done),
                back.is_none(),
            ]
        }
        (_, None) => [false; 4],
    }
}

/// Opens a chip of one device, and closes its file on another one first.
fn open_and_close<D: Driver<Core>, R: Wait>(
    rt: &R,
    alloc: Global,
    other: Device<D>,
    own: Device<D>,
    word: &Path,
) -> [bool; 4] {
    let (other_gpio, mut other_actor) = other.into_parts();
    let (gpio, mut actor) = own.into_parts();
    match open_by_order(rt, alloc, &gpio, &mut actor, word) {
        Some(file) => close_elsewhere_first(
            rt,
            alloc,
            (&other_gpio, &mut other_actor),
            (&gpio, &mut actor),
            file,
        ),
        None => [false; 4],
    }
}

/// Opens a chip and closes its file, whose close finds no room in the history. Whether that is the answer, and the file comes back.
fn close_in_full<D: Driver<Core>, R: Wait>(
    rt: &R,
    alloc: Global,
    device: Device<D>,
    word: &Path,
) -> [bool; 2] {
    let (gpio, mut actor) = device.into_parts();
    match open_by_order(rt, alloc, &gpio, &mut actor, word) {
        Some(file) => {
            let number = file.row().number();
            match close_by_order(rt, alloc, &gpio, &mut actor, file) {
                (reply, Some(file)) => {
                    [reply == Err(Errno::Full), file.row().number() == number]
                }
                (_, None) => [false; 2],
            }
        }
        None => [false; 2],
    }
}

/// A new device with a chip at place 0. Its history takes so many entries, of which the chip's is one.
fn with_chip<R: Wait>(rt: &R, alloc: Global, room: u32) -> Result<Device<SimDriver>, Errno> {
    let mut device = Device::new(alloc, SimDriver::new(), SimPort::new(), room)?;
    match device.probe(rt, Name::empty(), 4, Kind::Simulated) {
        Ok(_) => Ok(device),
        Err(errno) => Err(errno),
    }
}

#[test]
fn a_refused_close_gives_its_file_back(rt: HostRuntime) {
    let (Some(word), Ok(other), Ok(own)) = (
        Path::of(b"gpiochip0"),
        with_chip(&rt, rt.alloc(), 10),
        with_chip(&rt, rt.alloc(), 10),
    ) else {
        panic!(rt; "no memory")
    };
    assert!(rt; open_and_close(&rt, rt.alloc(), other, own, &word) == [true; 4]);
}

#[test]
fn a_close_in_a_full_history_gives_its_file_back(rt: HostRuntime) {
    let (Some(word), Ok(device)) = (Path::of(b"gpiochip0"), with_chip(&rt, rt.alloc(), 2)) else {
        panic!(rt; "no memory")
    };
    assert!(rt; close_in_full(&rt, rt.alloc(), device, &word) == [true; 2]);
}
