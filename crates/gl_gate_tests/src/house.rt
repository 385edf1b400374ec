//! A machine with one place, in which passes work until it is removed.
ghost use Rattle.std.specs.Prelude.{◌≡◌, ℕ, ◌+◌, Some, length};
ghost use Rattle.gl_base.specs.declared.phase.Phase.{Phase};
ghost use Rattle.gl_base.specs.declared.phase.Phase.TheVariants.{Up};
ghost use Rattle.gl_gate_tests.specs.declared.errand.Errand.TheVariants.{Remove, Finish};
ghost use Rattle.gl_gate_tests.specs.House.{after, answer, bytes, is_begin, first_places, is_finish, named, turned_away, phase_at, places_of};
ghost use Rattle.gl_gate_tests.specs.HouseLaws.{never_both, low, forward, ends_it, begins_it, begins_them, stays, finishes};

use crate::errand::{Answer, Errand};
use gl_base::Phase;
use gl_world::Machine;

/// The phase of place 0, and who removes it.
#[derive(Drop)]
pub struct House {
    pub phase: Phase,
    pub remover: u8,
}

impl House {
    fn begin_removal(&mut self, actor: u8, out: &mut [u8]) -> Answer
        requires { length out.old ≡ 2 }
        ensures state { (self.new.phase, self.new.remover) ≡ after (self.old.phase, self.old.remover) actor Remove }
        ensures answer { result ≡ answer (self.old.phase, self.old.remover) actor Remove }
        ensures bytes { out.new ≡ places_of (self.old.phase, self.old.remover) out.old }
    {
        if self.phase != Phase::Up {
            return Answer::Busy;
        }
        self.phase = Phase::Leaving;
        self.remover = actor;
        out[0] = 0;
        out[1] = 1;
        Answer::Done
    }

    fn finish_removal(&mut self, actor: u8) -> Answer
        ensures state { (self.new.phase, self.new.remover) ≡ after (self.old.phase, self.old.remover) actor Finish }
        ensures answer { result ≡ answer (self.old.phase, self.old.remover) actor Finish }
    {
        if self.phase != Phase::Leaving || self.remover != actor {
            return Answer::Busy;
        }
        self.phase = Phase::Gone;
        Answer::Done
    }
}

impl Machine for House {
    type Call = Errand;

    type Reply = Answer;

    type Gift = ();

    ghost World = { Phase × ℕ };

    ghost opening = { (Up, 0) };

    ghost stands_for = { λ s w. (s.phase, s.remover) ≡ w };

    ghost Sound = { λ _. Unit {0} };

    ghost world_after = { after };

    ghost reply_of = { answer };

    ghost bytes_of = { bytes };

    ghost FitsCall = { λ _. Unit {0} };

    ghost Fits = { λ call _ out. call ≡ Remove → length out ≡ 2 };

    ghost Leaves = { λ _ _ _ _. Unit {0} };

    ghost begins = { is_begin };

    ghost ends = { is_finish };

    ghost place_of = { named };

    ghost refused_at = { turned_away };

    ghost phase_of = { phase_at };

    ghost remover_of = { λ w _. Some w.1 };

    ghost is_last_removal = { is_finish };

    ghost begun_places = { λ call reply _. first_places call reply };

    ghost last_call = { λ _. Finish };

    ghost awaited_call = { λ _ _. Finish };

    fn step(&mut self, actor: u8, call: &Errand, _gift: &mut (), out: &mut [u8]) -> Answer {
        match *call {
            Errand::Work => Answer::Done,
            Errand::Remove => self.begin_removal(actor, out),
            Errand::Finish => self.finish_removal(actor),
            Errand::TurnedAway => Answer::NoDev,
        }
    }

    fn phase(&self, place: u8) -> Phase {
        if place == 0 {
            self.phase
        } else {
            Phase::Absent
        }
    }

    fn place_of(call: &Errand) -> Option<u8> {
        match call {
            Errand::Work => Some(0),
            _ => None,
        }
    }

    fn begins(call: &Errand, reply: &Answer) -> bool {
        matches!((call, reply), (Errand::Remove, Answer::Done))
    }

    fn ends(call: &Errand) -> bool {
        matches!(call, Errand::Finish)
    }

    ghost fits_calls = { λ _ _ _ _. tt };

    ghost ends_not_begins = { λ call r e. never_both call r e };

    ghost opens_sound = { tt };

    ghost keeps_sound = { λ w a c s f. tt };

    ghost opens_places = { low };

    ghost goes_forward = { λ w a c p s f. forward w a c p };

    ghost ends_place = { λ w a c p s f. ends_it w a c p };

    ghost begins_place = { λ w a c p s f. begins_it w a c p };

    ghost begins_removal = { λ w a c p s f. begins_them w a c p };

    ghost removal_stays = { λ w a c p s f. stays w a c p };

    ghost ends_removal = { λ w a c p s f. finishes w a c p };
}
