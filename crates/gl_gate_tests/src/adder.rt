//! A machine whose call adds 1 and answers the old number.
ghost use Rattle.std.specs.Prelude.{◌≡◌, ℕ, ◌+◌, ◌%◌, ◌^◌, [], None, false};
ghost use Rattle.std.proofs.Common.{arith};
ghost use Rattle.gl_base.specs.declared.phase.Phase.TheVariants.{Absent};
ghost use Rattle.gl_gate_tests.specs.Adder.{is_first, is_second};
ghost use Rattle.gl_gate_tests.specs.AdderLaws.{never_both, no_member};
ghost use Rattle.gl_gate_tests.specs.declared.adder_call.AdderCall.TheVariants.{Alone};

use crate::adder_call::AdderCall;
use gl_base::Phase;
use gl_world::Machine;

/// A number.
#[derive(Drop)]
pub struct Adder {
    pub value: u64,
}

impl Machine for Adder {
    type Call = AdderCall;

    type Reply = u64;

    type Gift = ();

    ghost World = { ℕ };

    ghost opening = { 0 };

    ghost stands_for = { λ s w. s.value ≡ w % 2 ^ 64 };

    ghost Sound = { λ _. Unit {0} };

    ghost world_after = { λ w _ _. w + 1 };

    ghost reply_of = { λ w _ _. w % 2 ^ 64 };

    ghost bytes_of = { λ _ _ _. [] };

    ghost FitsCall = { λ _. Unit {0} };

    ghost Fits = { λ _ _ _. Unit {0} };

    ghost Leaves = { λ _ _ _ _. Unit {0} };

    ghost begins = { λ call _. is_first call };

    ghost ends = { is_second };

    ghost place_of = { λ _. None };

    ghost refused_at = { λ _. None };

    ghost phase_of = { λ _ _. Absent };

    ghost remover_of = { λ _ _. None };

    ghost is_last_removal = { λ _. false };

    ghost begun_places = { λ _ _ _. [] };

    ghost last_call = { λ call. call };

    ghost awaited_call = { λ _ _. Alone };

    fn step(&mut self, _actor: u8, _call: &AdderCall, _gift: &mut (), _out: &mut [u8]) -> u64 {
        let old = self.value;
        self.value = old.wrapping_add(1);
        old
    }

    fn phase(&self, _place: u8) -> Phase {
        Phase::Absent
    }

    fn place_of(_call: &AdderCall) -> Option<u8> {
        None
    }

    fn begins(call: &AdderCall, _reply: &u64) -> bool {
        matches!(call, AdderCall::First)
    }

    fn ends(call: &AdderCall) -> bool {
        matches!(call, AdderCall::Second)
    }

    ghost fits_calls = { λ _ _ _ _. tt };

    ghost ends_not_begins = { λ call _ e. never_both call e };

    ghost opens_sound = { tt };

    ghost keeps_sound = { λ w a c s f. tt };

    ghost opens_places = { λ p. Prim.omega arith };

    ghost goes_forward = { λ w a c p s f. Prim.omega arith };

    ghost ends_place = { λ w a c p s f h e. absurd (Prim.omega arith) };

    ghost begins_place = { λ w a c p s f h e. absurd (Prim.omega arith) };

    ghost begins_removal = { λ w a c p s f h. absurd (no_member p h) };

    ghost removal_stays = { λ w a c p s f h e. absurd (Prim.omega arith) };

    ghost ends_removal = { λ w a c p s f h r e. absurd (Prim.omega arith) };
}
