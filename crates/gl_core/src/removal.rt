//! Removing chips.

ghost use Rattle.std.specs.Prelude.{◌≡◌, ◌==◌, ◌<◌, ◌≤◌, ℕ, length, slice_index_or};
ghost use Rattle.std.specs.List.{filter};
ghost use Rattle.gl_base.specs.declared.limits.TheConstants.{PLACES};
ghost use Rattle.gl_simtree.specs.Calls.{remove_refusal};
ghost use Rattle.gl_model.specs.Chips.{places_from};
ghost use Rattle.gl_model.specs.Removal.{begin_remove, begin_unplug, end_at, end_remove, end_unplug, is_actor, is_device_named, is_of, is_outside_tree, is_removing, is_removing_of, is_unplugging, is_up_of, leave_at, phase_refusal, unplug_refusal};
ghost use Rattle.gl_core.specs.Chosen.{Chooses, is_chosen, is_in_removal};
ghost use Rattle.gl_core.specs.Steps.{Follows, Steps, StepsInto, Tells};

use crate::chosen::{Chosen, clear_deadlines, move_on, set_remover};
use crate::state::State;
use gl_base::{Errno, Name, PLACES, Phase};
use gl_model::Reply;

/// An actor that may not be there is this one.
fn is_actor(actor: u8, other: Option<u8>) -> bool
    ensures { result ≡ is_actor actor other }
{
    match other {
        Some(other) => other == actor,
        None => false,
    }
}

/// A device that may not be there is this one.
fn is_device_named(device: &Name, other: &Option<Name>) -> bool
    ensures { result ≡ is_device_named device.now other.now }
{
    match other {
        Some(other) => other == device,
        None => false,
    }
}

/// Why a chip in this phase can't be removed once more: `Busy` where it is leaving, `NoDev` where it is gone.
fn phase_refusal(phase: Phase) -> Option<Errno>
    ensures { result ≡ phase_refusal phase }
{
    match phase {
        Phase::Absent | Phase::Up => None,
        Phase::Leaving => Some(Errno::Busy),
        Phase::Gone => Some(Errno::NoDev),
    }
}

/// The one place.
fn only(place: u8) -> Chosen
    requires { place < PLACES }
    ensures { (p : ℕ) → is_chosen result p ≡ (p == place) }
{
    let mut chosen = [false; PLACES as usize];
    chosen[usize::from(place)] = true;
    chosen
}

/// The first of the marked ones of the first `used` places, or 0, and how many there are.
fn summary(places: &Chosen, used: u8) -> (u8, u8)
    requires { used ≤ PLACES }
    ensures first { result.0 ≡ slice_index_or (filter (is_chosen places.now) (places_from 0 used)) 0 0 }
    ensures count { result.1 ≡ length (filter (is_chosen places.now) (places_from 0 used)) }
{
    let mut first = 0;
    let mut count = 0;
    for place in (0..used).rev() {
        if places[usize::from(place)] {
            first = place;
            count += 1;
        }
    }
    (first, count)
}

impl State {
    /// How many places a chip was made at.
    pub(crate) fn used(&self) -> u8
        ensures used { Tells (λ w. length w.chips) self.now result }
        ensures origins { Tells (λ w. length w.origins) self.now result }
        ensures within { result ≤ PLACES }
    {
        PLACES - self.chips.left() as u8
    }

    /// Whether the chip of a place is of a device of the tree.
    fn is_of(&self, device: &Name, place: u8) -> bool
        ensures { Tells (λ w. is_of device.now w place) self.now result }
    {
        match self.origins.get(usize::from(place)) {
            Some(origin) => is_device_named(device, &origin.device),
            None => false,
        }
    }

    /// Whether the chip of a place is of no device of the tree.
    fn is_outside_tree(&self, place: u8) -> bool
        ensures { Tells (λ w. is_outside_tree w place) self.now result }
    {
        match self.origins.get(usize::from(place)) {
            Some(origin) => origin.device.is_none(),
            None => true,
        }
    }

    /// Whether this actor's removal of the chip of a place has begun, and hasn't ended.
    fn is_removing(&self, actor: u8, place: u8) -> bool
        ensures { Tells (λ w. is_removing actor w place) self.now result }
    {
        match self.origins.get(usize::from(place)) {
            Some(origin) => {
                self.chips.phase(place) == Phase::Leaving && is_actor(actor, origin.remover)
            }
            None => false,
        }
    }

    /// Whether the chip of a place is of a device and is up.
    fn is_up_of(&self, device: &Name, place: u8) -> bool
        ensures { Tells (λ w. is_up_of device.now w place) self.now result }
    {
        self.is_of(device, place) && self.chips.phase(place) == Phase::Up
    }

    /// Whether the chip of a place is of a device, and this actor's removal of it has begun and hasn't ended.
    fn is_removing_of(&self, device: &Name, actor: u8, place: u8) -> bool
        ensures { Tells (λ w. is_removing_of device.now actor w place) self.now result }
    {
        self.is_of(device, place) && self.is_removing(actor, place)
    }

    /// Whether the chip of a place is one of those that the removal of a device begins with, or, with an actor, of those that
    /// this actor removes.
    fn is_in_removal(&self, device: &Name, remover: Option<u8>, place: u8) -> bool
        ensures { Tells (λ w. is_in_removal device.now remover w place) self.now result }
    {
        match remover {
            None => self.is_up_of(device, place),
            Some(actor) => self.is_removing_of(device, actor, place),
        }
    }

    /// The places of a device's chips that its removal begins with, or, with an actor, of those that this actor removes.
    fn removal_places(&self, device: &Name, remover: Option<u8>) -> Chosen
        ensures { Chooses (is_in_removal device.now remover) self.now result }
    {
        let mut places = [false; PLACES as usize];
        for place in 0..self.used() {
            places[usize::from(place)] = self.is_in_removal(device, remover, place);
        }
        places
    }

    /// The chips of some places become Leaving, and this actor removes them.
    fn leave_at(&mut self, places: &Chosen, actor: u8)
        ensures { Follows (leave_at (is_chosen places.now) actor) self.old self.new }
    {
        move_on(&mut self.chips, places);
        set_remover(&mut self.origins, places, actor);
    }

    /// The chips of some places become Gone, and no deadline of their lines runs.
    fn end_at(&mut self, places: &Chosen)
        ensures { Follows (end_at (is_chosen places.now)) self.old self.new }
    {
        move_on(&mut self.chips, places);
        clear_deadlines(&mut self.timers, places);
    }

    /// Why an unplug is refused, first case first: `NoEnt` where no chip was made there; `Perm` where it is of a device of the
    /// tree; `Busy` where its removal has begun; `NoDev` where it was removed.
    fn unplug_refusal(&self, place: u8) -> Option<Errno>
        ensures { Tells (unplug_refusal place) self.now result }
    {
        if let Some(errno) = self.place_refusal(place) {
            return Some(errno);
        }
        if !self.is_outside_tree(place) {
            return Some(Errno::Perm);
        }
        phase_refusal(self.chips.phase(place))
    }

    /// The first call of an unplug. It writes the place, and how many places there are: one.
    pub(crate) fn begin_unplug(&mut self, actor: u8, place: u8, out: &mut [u8]) -> Reply
        requires place { place < PLACES }
        requires buffer { length out.old ≡ 2 }
        ensures { StepsInto (begin_unplug actor place) self.old self.new result out.old out.new }
    {
        match self.unplug_refusal(place) {
            Some(errno) => Reply::Refused(errno),
            None => {
                self.leave_at(&only(place), actor);
                out[0] = place;
                out[1] = 1;
                Reply::Done
            }
        }
    }

    /// The last call of an unplug: `Busy` where this actor has begun no such unplug, or has ended it.
    pub(crate) fn end_unplug(&mut self, actor: u8, place: u8) -> Reply
        requires { place < PLACES }
        ensures { Steps (end_unplug actor place) self.old self.new result }
    {
        if self.is_outside_tree(place) && self.is_removing(actor, place) {
            self.end_at(&only(place));
            Reply::Done
        } else {
            Reply::Refused(Errno::Busy)
        }
    }

    /// Why the removal of all chips of a device is refused.
    fn remove_refusal(&self, device: &Name) -> Option<Errno>
        ensures { Tells (λ w. remove_refusal device.now w.tree) self.now result }
    {
        self.tree.check_remove(device).err()
    }

    /// The first call of the removal of all chips of a device. It writes the first of their places, and how many there are.
    pub(crate) fn begin_remove(&mut self, actor: u8, device: &Name, out: &mut [u8]) -> Reply
        requires { length out.old ≡ 2 }
        ensures { StepsInto (begin_remove actor device.now) self.old self.new result out.old out.new }
    {
        match self.remove_refusal(device) {
            Some(errno) => Reply::Refused(errno),
            None => {
                let places = self.removal_places(device, None);
                let (first, count) = summary(&places, self.used());
                self.tree.set_leaving(device);
                self.leave_at(&places, actor);
                out[0] = first;
                out[1] = count;
                Reply::Done
            }
        }
    }

    /// The last call of that removal: `Busy` where this actor has begun no such removal, or has ended it.
    pub(crate) fn end_remove(&mut self, actor: u8, device: &Name) -> Reply
        ensures { Steps (end_remove actor device.now) self.old self.new result }
    {
        let places = self.removal_places(device, Some(actor));
        let (_first, count) = summary(&places, self.used());
        if count == 0 {
            return Reply::Refused(Errno::Busy);
        }
        self.tree.set_off(device);
        self.end_at(&places);
        Reply::Done
    }
}
