//! The steps of a command that asks the driver: the ask, the driver's call, the tell. They are the same for every machine.

ghost use Rattle.std.specs.Prelude.{◌≡◌, ℕ, ◌≤◌, cond, List, Option, None, IfOk, IfErr};
ghost use Rattle.gl_base.specs.declared.errno.Errno.TheVariants.{Full};
ghost use Rattle.gl_base.specs.declared.limits.TheConstants.{PLACES};
ghost use Rattle.gl_base.specs.Count.{Rises};
ghost use Rattle.gl_world.specs.declared.history.Entry.{Entry};
ghost use Rattle.gl_world.specs.Removal.{AllQuiet};
ghost use Rattle.gl_gate.specs.Values.{IsPassOf};
ghost use Rattle.gl_gate.specs.Calls.{IsInside, MayName};
ghost use Rattle.gl_driver.specs.declared.map.Map.{Map};
ghost use Rattle.gl_driver.specs.Calls.{Drives, FitsOp, OwesAt};
ghost use Rattle.gl_driver.specs.Maps.{map_for};
ghost use Rattle.gl_driver.specs.Told.{faults_after};
ghost use Rattle.gl_chip.specs.Steps.{CalledOnce, IsAsk, IsTell, Owes, StoodFull};

use gl_base::Errno;
use gl_driver::{Driver, Op};
use gl_gate::{Gate, Pass};
use gl_world::{Machine, quiet_entries_keep_removals};
use std::sync::Wait;

/// The first entry of a command. Where it begins, a second one is owed.
pub(crate) fn ask<M: Machine, R: Wait>(
    rt: &R,
    gate: &Gate<M>,
    pass: &mut Pass<M>,
    call: &M::Call,
    gift: &mut M::Gift,
    out: &mut [u8],
) -> Result<M::Reply, Errno>
    requires gate { IsPassOf gate.now pass.old }
    requires fits { M.Fits call.now gift.old out.old }
    requires ask { IsAsk M.Machine call.now }
    requires named { MayName M.Machine pass.old.view call.now }
    requires owes { Owes M.Machine pass.old.view 0 }
    ensures gate { IsPassOf gate.now pass.new }
    ensures owes { IfOk result (λ r. Owes M.Machine pass.new.view (cond (M.begins call.now r) 1 0)) }
    ensures called { IfOk result (λ r. CalledOnce M.Machine pass.old.view call.now r out.old out.new pass.new.view) }
    ensures gift { IfOk result (λ r. M.Leaves call.now r gift.old gift.new) }
    ensures owes_nothing { IfErr result (λ _. Owes M.Machine pass.new.view 0) }
    ensures full { IfErr result (λ e. (e ≡ Full) × (out.new ≡ out.old) × (gift.new ≡ gift.old)
        × StoodFull M.Machine pass.old.view pass.new.view) }
{
    // What holds of every pass is known once it has told its number.
    let _number = pass.number();
    match gate.act(rt, pass, *call, gift, out) {
        Ok(reply) => Ok(reply),
        Err(errno) => Err(errno),
    }
}

/// What the driver is asked for, inside the place of the lines.
#[derive(Clone, Copy)]
pub(crate) struct OpInside<'a> {
    /// The place.
    pub(crate) place: u8,
    /// The operation.
    pub(crate) op: &'a Op,
}

/// Asks the driver, between an ask and its tell.
pub(crate) fn drive<M: Machine, D: Driver<M>, R: Wait>(
    rt: &R,
    gate: &Gate<M>,
    driver: &D,
    port: &mut D::Port,
    pass: &mut Pass<M>,
    asked: &OpInside<'_>,
) -> Option<u64>
    requires gate { IsPassOf gate.now pass.old }
    requires places { gate.now.places ≡ PLACES }
    requires inside { IsInside pass.old.view asked.now.place }
    requires alone { (p : ℕ) → IsInside pass.old.view p → p ≡ asked.now.place }
    requires owes { Owes M.Machine pass.old.view 1 }
    requires asked_here { OwesAt M.Machine pass.old.view asked.now.place }
    requires op { FitsOp asked.now.op.now }
    requires quiet { (map : Option Map) (own : List (Entry M M.Call M.Reply M.Gift)) → D.OwnEntries map asked.now.op.now own → AllQuiet M.Machine own }
    ensures gate { IsPassOf gate.now pass.new }
    ensures drives { Drives M.Machine D.ENTRIES D.OwnEntries D.Follows (map_for D.ENTRIES asked.now.place (D.Port.maps port.old)) asked.now.op.now
        (D.Port.told port.old) (D.Port.told port.new) result pass.old.view pass.new.view }
    ensures owes { Owes M.Machine pass.new.view 1 }
    ensures maps { D.Port.maps port.new ≡ D.Port.maps port.old }
    ensures maps_left { D.Port.maps_left port.new ≡ D.Port.maps_left port.old }
    ensures counted { D.Port.faults port.new ≡ faults_after result (D.Port.faults port.old) }
    ensures never_falls { D.Port.faults port.old ≤ D.Port.faults port.new }
    ensures fault { result ≡ None → Rises (D.Port.faults port.old) (D.Port.faults port.new) }
{
    quiet_entries_keep_removals::<M>();
    // What holds of every pass is known once it has told its number.
    let _number = pass.number();
    let answer = driver.call(rt, gate, port, pass, asked.place, asked.op);
    // What holds of every pass is known once it has told its number.
    let _number = pass.number();
    match answer {
        Ok(bits) => Some(bits),
        Err(_) => None,
    }
}

/// The second entry of a command. It is never refused for want of room.
pub(crate) fn tell<M: Machine, R: Wait>(
    rt: &R,
    gate: &Gate<M>,
    pass: &mut Pass<M>,
    call: &M::Call,
    gift: &mut M::Gift,
    out: &mut [u8],
) -> M::Reply
    requires gate { IsPassOf gate.now pass.old }
    requires fits { M.Fits call.now gift.old out.old }
    requires tell { IsTell M.Machine call.now }
    requires named { MayName M.Machine pass.old.view call.now }
    requires owes { Owes M.Machine pass.old.view 1 }
    ensures gate { IsPassOf gate.now pass.new }
    ensures owes { Owes M.Machine pass.new.view 0 }
    ensures called { CalledOnce M.Machine pass.old.view call.now result out.old out.new pass.new.view }
{
    // What holds of every pass is known once it has told its number.
    let _number = pass.number();
    match gate.act(rt, pass, *call, gift, out) {
        Ok(reply) => reply,
        Err(_) => unreachable!(),
    }
}
