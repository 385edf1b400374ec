//! Calls behind the guard of a place.

ghost use Rattle.std.specs.Prelude.{◌≡◌, ℕ, ◌<◌, None, Some, IfOk, IfErr};
ghost use Rattle.gl_base.specs.declared.errno.Errno.TheVariants.{Full};
ghost use Rattle.gl_base.specs.declared.limits.TheConstants.{PLACES};
ghost use Rattle.gl_gate.specs.Values.{IsPassOf};
ghost use Rattle.gl_gate.specs.Calls.{KnowsClosed};
ghost use Rattle.gl_gate.specs.Grown.{IsFree};
ghost use Rattle.gl_model.specs.declared.call.Call.TheVariants.{Refused as RefusedCall};
ghost use Rattle.gl_model.specs.Entries.{guarded_place, refused_place};
ghost use Rattle.gl_model.specs.Fits.{Fits};
ghost use Rattle.gl_chip.specs.Steps.{CalledGuarded, CalledOnce, FoundNoRoom, IsWhole, Owes, StoodFull};
ghost use Rattle.gl_core.specs.Device.{core};

use crate::steps::alone;
use gl_base::Errno;
use gl_core::{Call, Core, Gift, Reply};
use gl_gate::{Gate, Pass};
use std::sync::Wait;

/// The guard that a call takes: whose it is, and whether the call is a poll, which a closed guard answers otherwise.
#[derive(Clone, Copy)]
pub(crate) struct Guard {
    /// The place, below `PLACES`.
    pub(crate) place: u8,
    /// Whether the call is a poll.
    pub(crate) poll: bool,
}

/// Records that a call was refused at the closed guard of its place. It is made apart from the calls themselves, so that none of
/// them carries it along.
#[inline(never)]
pub(crate) fn refused_at<R: Wait>(
    rt: &R,
    gate: &Gate<Core>,
    pass: &mut Pass<Core>,
    guard: Guard,
    out: &mut [u8],
) -> Result<Reply, Errno>
    requires gate { IsPassOf gate.now pass.old }
    requires place { guard.place < PLACES }
    requires closed { KnowsClosed pass.old.view guard.place }
    requires owes { Owes core pass.old.view 0 }
    ensures gate { IsPassOf gate.now pass.new }
    ensures owes { Owes core pass.new.view 0 }
    ensures called { IfOk result (λ r. CalledOnce core pass.old.view (RefusedCall guard.place guard.poll) r out.old out.new pass.new.view) }
    ensures full { IfErr result (λ e. (e ≡ Full) × (out.new ≡ out.old) × StoodFull core pass.old.view pass.new.view) }
{
    let Guard { place, poll } = guard;
    let call = Call::Refused { place, poll };
    let mut gift = Gift::nothing();
    alone(rt, gate, pass, &call, &mut gift, out)
}

/// A guarded call that is whole by itself and brings nothing. At a closed guard just that is recorded.
pub(crate) fn guarded<R: Wait>(
    rt: &R,
    gate: &Gate<Core>,
    pass: &mut Pass<Core>,
    guard: Guard,
    call: &Call,
    out: &mut [u8],
) -> Result<Reply, Errno>
    requires gate { IsPassOf gate.now pass.old }
    requires places { gate.now.places ≡ PLACES }
    requires place { guard.place < PLACES }
    requires fits { Fits call.now (record { ring = None; queue = None; asked = None }) out.old }
    requires whole { IsWhole core call.now }
    requires named { (guarded_place call.now ≡ Some guard.place) × ((p : ℕ) → refused_place call.now ≡ Some p → ⊥) }
    requires free { IsFree core pass.old.view }
    ensures gate { IsPassOf gate.now pass.new }
    ensures free { IsFree core pass.new.view }
    ensures called { IfOk result (λ r. CalledGuarded core guard.place (RefusedCall guard.place guard.poll) pass.old.view call.now r out.old out.new pass.new.view) }
    ensures full { IfErr result (λ e. (e ≡ Full) × (out.new ≡ out.old)
        × FoundNoRoom core pass.old.view pass.new.view) }
{
    if !gate.enter(pass, guard.place) {
        return refused_at(rt, gate, pass, guard, out);
    }
    let mut gift = Gift::nothing();
    let answer = alone(rt, gate, pass, call, &mut gift, out);
    gate.leave(pass, guard.place);
    answer
}
