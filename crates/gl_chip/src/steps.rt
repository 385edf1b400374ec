//! Calls of the gate, as steps of one call of the device. They are the same for every machine.

ghost use Rattle.std.specs.Prelude.{◌≡◌, IfOk, IfErr};
ghost use Rattle.gl_base.specs.declared.errno.Errno.TheVariants.{Full};
ghost use Rattle.gl_gate.specs.Values.{IsPassOf};
ghost use Rattle.gl_gate.specs.Calls.{MayName};
ghost use Rattle.gl_chip.specs.Steps.{CalledOnce, IsWhole, Owes, StoodFull};

use gl_base::Errno;
use gl_gate::{Gate, Pass};
use gl_world::Machine;
use std::sync::Wait;

/// One call of the machine that is whole by itself.
pub(crate) fn alone<M: Machine, R: Wait>(
    rt: &R,
    gate: &Gate<M>,
    pass: &mut Pass<M>,
    call: &M::Call,
    gift: &mut M::Gift,
    out: &mut [u8],
) -> Result<M::Reply, Errno>
    requires gate { IsPassOf gate.now pass.old }
    requires fits { M.Fits call.now gift.old out.old }
    requires whole { IsWhole M.Machine call.now }
    requires named { MayName M.Machine pass.old.view call.now }
    requires owes { Owes M.Machine pass.old.view 0 }
    ensures gate { IsPassOf gate.now pass.new }
    ensures owes { Owes M.Machine pass.new.view 0 }
    ensures called { IfOk result (λ r. CalledOnce M.Machine pass.old.view call.now r out.old out.new pass.new.view) }
    ensures gift { IfOk result (λ r. M.Leaves call.now r gift.old gift.new) }
    ensures full { IfErr result (λ e. (e ≡ Full) × (out.new ≡ out.old) × (gift.new ≡ gift.old)
        × StoodFull M.Machine pass.old.view pass.new.view) }
{
    // What holds of every pass is known once it has told its number.
    let _number = pass.number();
    match gate.act(rt, pass, *call, gift, out) {
        Ok(reply) => Ok(reply),
        Err(errno) => Err(errno),
    }
}
