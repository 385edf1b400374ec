//! The call that makes an entry.
ghost use Rattle.std.specs.Prelude.{◌≡◌, IfOk, IfErr};
ghost use Rattle.gl_base.specs.declared.errno.Errno.TheVariants.{Full};
ghost use Rattle.gl_world.specs.Events.{PhasesGoForward, NothingAfterGone};
ghost use Rattle.gl_world.specs.Worlds.{PhasesNeverFall, RefusedIsClosing, NothingBehindGone};
ghost use Rattle.gl_gate.specs.Values.{IsPassOf};
ghost use Rattle.gl_gate.specs.Calls.{SamePass, KnowsTheSame, HasItsOwn, HoldsNoTurn, MayCall, MayName, MayEndRemoval, Acts, Refuses};

use crate::gate::Gate;
use crate::pass::Pass;
use gl_base::Errno;
use gl_world::Machine;
use std::sync::Wait;

impl<M: Machine> Gate<M> {
    /// Makes a call on the machine: waits for the pass's turn, and makes it then. The call's entry is the
    /// last that the pass has seen afterwards.
    ///
    /// What it has seen is legal, so phases only go forward in it, and no guarded call stands in it after the
    /// entry that made its place Gone. The same holds whatever happens, in whatever order. What the pass knows of
    /// closed and drained places stays as it is.
    ///
    /// `Full` where the history had at least `room` entries and the call is no second entry. Nothing was
    /// called then.
    pub fn act<R: Wait>(
        &self,
        rt: &R,
        pass: &mut Pass<M>,
        call: M::Call,
        gift: &mut M::Gift,
        out: &mut [u8],
    ) -> Result<M::Reply, Errno>
        requires gate { IsPassOf self.now pass.old }
        requires fits { M.Fits call gift.old out.old }
        requires owed { MayCall M.Machine pass.old.view call }
        requires named { MayName M.Machine pass.old.view call }
        requires last { MayEndRemoval M.Machine pass.old.view call }
        ensures gate { IsPassOf self.now pass.new }
        ensures same { SamePass pass.old.view pass.new.view }
        ensures own { HasItsOwn pass.new.view }
        ensures no_turn { HoldsNoTurn pass.new.view }
        ensures acts { IfOk result (λ r. Acts M.Machine pass.old.view call r out.old out.new pass.new.view) }
        ensures gift { IfOk result (λ r. M.Leaves call r gift.old gift.new) }
        ensures full { IfErr result (λ e. e ≡ Full) }
        ensures refuses { IfErr result (λ _. Refuses M.Machine pass.old.view call pass.new.view) }
        ensures knows { KnowsTheSame pass.old.view pass.new.view }
        ensures phases_never_fall { PhasesNeverFall M.Machine }
        ensures refused_is_closing { RefusedIsClosing M.Machine }
        ensures phases_go_forward { PhasesGoForward M.Machine }
        ensures nothing_behind_gone { NothingBehindGone M.Machine }
        ensures nothing_after_gone { NothingAfterGone M.Machine }
        ensures untouched { IfErr result (λ _. (gift.new ≡ gift.old) × (out.new ≡ out.old)) }
    {
        let number = pass.number;
        match self
            .turnstile
            .serve(rt, &mut pass.seat, number, &call, gift, out)
        {
            Some(reply) => Ok(reply),
            None => Err(Errno::Full),
        }
    }
}
