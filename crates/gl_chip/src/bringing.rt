//! The memory that a call of the device brings. It is taken before the call's first entry.

ghost use Rattle.std.specs.Prelude.{◌≡◌, IfErr, IfOk};
ghost use Rattle.gl_base.specs.declared.errno.Errno.TheVariants.{NoMemory};
ghost use Rattle.gl_model.specs.declared.device_call.DeviceCall.TheVariants.{Commanding};
ghost use Rattle.gl_chip.specs.DriverCommands.{TakesMemory};
ghost use Rattle.gl_chip.specs.Orders.{Brings, DeviceCallTakesMemory};

use gl_base::Errno;
use gl_core::Gift;
use gl_core::fits::{gift_for, gift_for_lines};
use gl_model::{CommandIn, DeviceCall, is_driver_asked};
use std::alloc::Global;

/// What a call brings: an open a queue, GET_LINE a ring and what its bytes ask for, and any other call nothing. `NoMemory` is its only
/// error, and comes only where the call takes memory.
pub(crate) fn brought(call: &DeviceCall, alloc: Global) -> Result<Gift, Errno>
    ensures ok { IfOk result (Brings call.now) }
    ensures memory { IfErr result (λ e. (e ≡ NoMemory) × DeviceCallTakesMemory call.now) }
{
    match call {
        DeviceCall::Once(call) => gift_for(call, alloc),
        DeviceCall::Removing(_) => Ok(Gift::nothing()),
        DeviceCall::Commanding(command) => brought_by(command, alloc),
    }
}

/// What a command brings. `NoMemory` is its only error, and comes only where it takes memory.
pub(crate) fn brought_by(command: &CommandIn, alloc: Global) -> Result<Gift, Errno>
    ensures ok { IfOk result (Brings (Commanding command.now)) }
    ensures memory { IfErr result (λ e. (e ≡ NoMemory) × TakesMemory command.now) }
{
    if !command.of_chip {
        return Ok(Gift::nothing());
    }
    if !is_driver_asked(command) {
        return Ok(Gift::nothing());
    }
    gift_for_lines(&command.bytes, alloc)
}
