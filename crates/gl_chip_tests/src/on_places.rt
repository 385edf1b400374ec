//! What the calls that name a line or the pins of a place are answered.

ghost use Rattle.std.specs.Prelude.{◌<◌};
ghost use Rattle.gl_base.specs.declared.limits.TheConstants.{PLACES};

use gl_base::{Errno, IrqDo, PinDo};
use gl_core::Core;
use gl_device::Device;
use gl_driver::Driver;
use std::sync::Wait;

/// What each of these calls was answered, made once, in this order.
#[derive(Clone, Copy, PartialEq, Eq)]
pub struct OnPlace {
    pub set_pull: Result<(), Errno>,
    pub level: Result<bool, Errno>,
    pub pull: Result<bool, Errno>,
    pub interrupt: Result<(), Errno>,
    pub pin: Result<(), Errno>,
    pub irq: Result<(), Errno>,
}

impl OnPlace {
    /// The answers on a line of a simulated chip that is high, and no interrupt of a driver.
    pub fn simulated() -> OnPlace {
        OnPlace {
            set_pull: Ok(()),
            level: Ok(true),
            pull: Ok(true),
            interrupt: Err(Errno::Inval),
            pin: Ok(()),
            irq: Ok(()),
        }
    }

    /// The answers on a line of a remote chip: its driver alone tells of levels.
    pub fn remote() -> OnPlace {
        OnPlace {
            set_pull: Err(Errno::Inval),
            level: Err(Errno::Inval),
            pull: Err(Errno::Inval),
            interrupt: Ok(()),
            pin: Ok(()),
            irq: Ok(()),
        }
    }

    /// All calls were refused for one reason.
    pub fn refused(errno: Errno) -> OnPlace {
        OnPlace {
            set_pull: Err(errno),
            level: Err(errno),
            pull: Err(errno),
            interrupt: Err(errno),
            pin: Err(errno),
            irq: Err(errno),
        }
    }
}

/// Pulls a line up, reads its level and its pull, tells of an interrupt, makes two lines the pins 7 and 8, and locks the line as an interrupt.
pub fn call_on_place<D: Driver<Core>, R: Wait>(
    rt: &R,
    device: &mut Device<D>,
    place: u8,
    offset: u32,
) -> OnPlace
    requires place { place < PLACES }
{
    let range = PinDo::Range {
        offset: 0,
        pin: 7,
        count: 2,
    };
    OnPlace {
        set_pull: device.set_pull(rt, place, offset, true),
        level: device.level(rt, place, offset),
        pull: device.pull(rt, place, offset),
        interrupt: device.interrupt(rt, place, offset, true),
        pin: device.pin(rt, place, range),
        irq: device.irq(rt, place, offset, IrqDo::Lock),
    }
}
