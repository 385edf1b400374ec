//! What the calls on a request are answered.

ghost use Rattle.std.specs.Prelude.{◌≤◌};

use gl_base::Errno;
use gl_base::command::LINE_SET_CONFIG;
use gl_chip::LineFd;
use gl_core::Core;
use gl_device::Device;
use gl_driver::Driver;
use gl_uapi::layout::LINE_CONFIG_SIZE;
use std::sync::Wait;

/// What each of these calls was answered, made once, in this order.
#[derive(Clone, Copy, PartialEq, Eq)]
pub struct OnRequest {
    /// SET_CONFIG with no flags, which leaves each line as it is.
    pub set_config: Result<(), Errno>,
    /// SET_VALUES, which sets the first line.
    pub set_values: Result<(), Errno>,
    /// GET_VALUES of the first line.
    pub get_values: Result<u64, Errno>,
    /// A poll.
    pub poll: Result<u8, Errno>,
    /// A read into a buffer that one event fits into.
    pub read: Result<u32, Errno>,
    /// A read into a buffer that is one byte shorter, which each open file answers alike, whatever its kind.
    pub short_read: Result<u32, Errno>,
}

impl OnRequest {
    /// All calls were refused for one reason.
    pub fn refused(errno: Errno) -> OnRequest {
        OnRequest {
            set_config: Err(errno),
            set_values: Err(errno),
            get_values: Err(errno),
            poll: Err(errno),
            read: Err(errno),
            short_read: Err(errno),
        }
    }
}

/// Configures a request with no flags.
fn set_config<D: Driver<Core>, R: Wait>(
    rt: &R,
    device: &mut Device<D>,
    line: &LineFd,
) -> Result<(), Errno> {
    let mut config = [0; LINE_CONFIG_SIZE];
    device.line_ioctl(rt, line, LINE_SET_CONFIG, &mut config)
}

/// Reads a request into a buffer of so many bytes.
fn read<D: Driver<Core>, R: Wait>(
    rt: &R,
    device: &mut Device<D>,
    line: &LineFd,
    size: usize,
) -> Result<u32, Errno>
    requires size { size ≤ 48 }
{
    let mut events = [0; 48];
    device.read_edges(rt, line, &mut events[..size])
}

/// Configures a request, sets and gets the value of its first line, polls it, and reads it twice.
pub fn call_on_request<D: Driver<Core>, R: Wait>(
    rt: &R,
    device: &mut Device<D>,
    line: &LineFd,
) -> OnRequest {
    OnRequest {
        set_config: set_config(rt, device, line),
        set_values: device.set_values(rt, line, 1, 1),
        get_values: device.get_values(rt, line, 1),
        poll: device.poll_line(rt, line),
        read: read(rt, device, line, 48),
        short_read: read(rt, device, line, 47),
    }
}
