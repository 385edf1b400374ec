//! Making a device, more actors, and the end.

ghost use Rattle.std.specs.Prelude.{◌≡◌, ◌≢◌, ℕ, ◌+◌, ◌<◌, ◌≤◌, [], length, IfOk, IfErr};
ghost use Rattle.gl_base.specs.declared.errno.Errno.TheVariants.{NoMemory};
ghost use Rattle.gl_base.specs.declared.limits.TheConstants.{PLACES};
ghost use Rattle.gl_world.specs.History.{StartsWith, Legal, fold, entries_of};
ghost use Rattle.gl_rule.specs.Views.{newcomer, with_one_more, taking_in};
ghost use Rattle.gl_gate.specs.Calls.{HasItsOwn, HasAllOf, KnowsAsMuch};
ghost use Rattle.gl_core.specs.Kept.{StandsFor};
ghost use Rattle.gl_chip.specs.Values.{IsActorOf, IsQuietDriver};
ghost use Rattle.gl_core.specs.Device.{core};

use crate::actor::Actor;
use crate::gpio::Gpio;
use gl_base::{Errno, PLACES};
use gl_core::Core;
use gl_driver::Driver;
use gl_gate::Gate;
use gl_world::Entry;
use std::alloc::Global;

impl<D: Driver<Core>> Gpio<D> {
    /// A device with a new machine, and its first actor, whose number is 0. The history takes `room` entries. The driver's own
    /// entries have nothing to do with removals and request no lines.
    ///
    /// `NoMemory` when out of memory.
    pub fn new(
        alloc: Global,
        driver: D,
        port: D::Port,
        room: u32,
    ) -> Result<(Gpio<D>, Actor<D>), Errno>
        requires quiet { IsQuietDriver D.OwnEntries }
        ensures actor { IfOk result (λ made. IsActorOf made.0 made.1) }
        ensures places { IfOk result (λ made. made.0.places ≡ PLACES) }
        ensures first { IfOk result (λ made. made.1.pass.view ≡ newcomer 0 room [] 1 [] []) }
        ensures port { IfOk result (λ made. made.1.port ≡ port) }
        ensures memory { IfErr result (λ e. e ≡ NoMemory) }
    {
        let Ok(machine) = Core::new(alloc) else {
            return Err(Errno::NoMemory);
        };
        match Gate::new(alloc, machine, PLACES, room) {
            Ok((gate, pass)) => Ok((Gpio { gate, driver }, Actor { pass, port })),
            Err(errno) => Err(errno),
        }
    }

    /// One more actor, with a port of its own. It has the next number, has seen as much as the first actor, and knows as
    /// much of places. A device has 256 actors at most.
    pub fn split(&self, actor: &mut Actor<D>, port: D::Port) -> Actor<D>
        requires actor { IsActorOf self.now actor.old }
        requires first { actor.old.pass.view.number ≡ 0 }
        requires few { actor.old.pass.view.made < 256 }
        ensures actor { IsActorOf self.now actor.new }
        ensures old { actor.new.pass.view ≡ with_one_more actor.old.pass.view }
        ensures old_port { actor.new.port ≡ actor.old.port }
        ensures other { IsActorOf self.now result }
        ensures new { let v = actor.old.pass.view in result.pass.view ≡ newcomer v.made v.room v.seen 0 v.closed v.drained }
        ensures port { result.port ≡ port }
        ensures own { HasItsOwn actor.new.pass.view × HasItsOwn result.pass.view }
    {
        let pass = self.gate.split(&mut actor.pass);
        Actor { pass, port }
    }

    /// Takes in another actor: the longer of what both have seen, the other's own entries and those that it took in, and
    /// what it knows of places. Gives back its port.
    pub fn join(&self, actor: &mut Actor<D>, other: Actor<D>) -> D::Port
        requires actor { IsActorOf self.now actor.old }
        requires other { IsActorOf self.now other }
        requires not_first { other.pass.view.number ≢ 0 }
        ensures actor { IsActorOf self.now actor.new }
        ensures joined { actor.new.pass.view ≡ taking_in actor.old.pass.view other.pass.view }
        ensures seen { StartsWith actor.new.pass.view.seen actor.old.pass.view.seen }
        ensures other_seen { StartsWith actor.new.pass.view.seen other.pass.view.seen }
        ensures knows { KnowsAsMuch actor.old.pass.view actor.new.pass.view }
        ensures own { HasItsOwn actor.new.pass.view }
        ensures kept_port { actor.new.port ≡ actor.old.port }
        ensures port { result ≡ other.port }
    {
        let Actor { pass, port } = other;
        self.gate.join(&mut actor.pass, pass);
        port
    }

    /// The machine, the history of all calls, and the port of the first actor, into which all others were joined.
    pub fn finish(self, actor: Actor<D>) -> (Core, Vec<Entry<Core>>, D::Port)
        requires actor { IsActorOf self actor }
        requires first { actor.pass.view.number ≡ 0 }
        requires all { length actor.pass.view.joined + 1 ≡ actor.pass.view.made }
        ensures machine { StandsFor result.0 (fold core result.1.items) }
        ensures legal { Legal core result.1.items }
        ensures seen { StartsWith result.1.items actor.pass.view.seen }
        ensures mine { entries_of 0 result.1.items ≡ actor.pass.view.mine }
        ensures joined { HasAllOf actor.pass.view.joined result.1.items }
        ensures others { (n : ℕ) → actor.pass.view.made ≤ n → entries_of n result.1.items ≡ [] }
        ensures port { result.2 ≡ actor.port }
    {
        let Gpio { gate, driver: _ } = self;
        let Actor { pass, port } = actor;
        let (machine, history) = gate.finish(pass);
        (machine, history, port)
    }
}
