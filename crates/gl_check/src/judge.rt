//! The machine and all actors in the midst of a history.

ghost use Rattle.std.specs.Prelude.{◌≡◌, ◌<◌, ◌≤◌, ◌+◌, ◌^◌, ◌&&◌, ℕ, List, true, false, length, get_or, map, IfOk, IsOkUnless};
ghost use Rattle.std.specs.Bool.{Decides};
ghost use Rattle.gl_base.specs.Words.{Span};
ghost use Rattle.gl_core.specs.Device.{core as device_core};
ghost use Rattle.gl_core.specs.Kept.{StandsFor};
ghost use Rattle.gl_core.specs.Legal.{GoesOn};
ghost use Rattle.gl_model.specs.Machine.{world_after};
ghost use Rattle.gl_model.specs.World.{World};
ghost use Rattle.gl_script.specs.Script.{sections_of};
ghost use Rattle.gl_script.specs.Section.{SaidSection};
ghost use Rattle.gl_talk.specs.Over.{columns_in};
ghost use Rattle.gl_world.specs.Deeds.{deed_in};
ghost use Rattle.gl_check.specs.Judging.{AreSeats, AreTaken, IsFirst, IsKeptIn, IsTaken, Judges, Takes, actor_words, all_words, setup_words};
ghost use Rattle.gl_check.specs.Misfit.{AtEnd, Moment, actors_in, all_ended, beginning, with_other};
ghost use Rattle.gl_check.specs.Seating.{IsKept, port_in, seat_in};
ghost use Rattle.gl_check.specs.Seats.{Seat as SeatOf, Suits, SuitsStand, is_ended, moved};
ghost use Rattle.gl_check.specs.declared.seat.Seat.{Seat as SeatCode};

use crate::seat::Seat;
use crate::sections::{actor_statements, count_actors};
use gl_base::Errno;
use gl_core::Core;
use gl_core::laws::core_is_well_kept;
use gl_script::{Script, Statement};
use gl_world::Entry;
use std::alloc::Global;
use std::mem;

/// The machine and all actors in the midst of a history.
#[derive(Drop)]
pub struct Judge {
    /// The machine.
    pub core: Core,
    /// Actor 0.
    pub first: Seat,
    /// Whether actor 0 is in `after`.
    pub after: bool,
    /// What `setup` printed, once actor 0 is in `after`.
    pub setup: Vec<u8>,
    /// The other actors, in order.
    pub others: Vec<Seat>,
}

/// The actors beside actor 0, each at its first call of the device. `NoMemory` alone is refused.
fn start_others(alloc: Global, script: &Script<'_>) -> Result<Vec<Seat>, Errno>
    ensures seats { IfOk result (λ seats. AreSeats (sections_of script.now) seats.items (beginning (sections_of script.now)).others) }
    ensures as_many { IfOk result (λ seats. length seats.items ≡ actors_in (sections_of script.now)) }
    ensures memory_alone { IsOkUnless result Errno.NoMemory }
{
    let mut seats = Vec::new(alloc);
    for i in 0..count_actors(script) {
        let seat = Seat::start(alloc, actor_statements(script, i + 1), true)?;
        seats.push(seat)?;
    }
    Ok(seats)
}

/// Whether all these actors are at their end.
fn all_ended(seats: &[Seat]) -> bool
    ensures { (sections : List SaidSection) (others : ℕ → SeatOf) → AreSeats sections seats.now others → result ≡ all_ended (length seats.now) others }
{
    for i in 0..seats.len() {
        if !seats[i].is_ended() {
            return false;
        }
    }
    true
}

/// Whether all is at its end: `setup`, the others, and `after`.
fn ends(setup: bool, others: bool, last: bool) -> bool
    ensures { result ≡ (setup && (others && last)) }
{
    setup && (others && last)
}

/// Begins `after`, where `setup` is at its end. Whether it did. `NoMemory` alone is refused.
fn begin_after(
    alloc: Global,
    all: &[Statement<'_>],
    first: &mut Seat,
    printed: &mut Vec<u8>,
) -> Result<bool, Errno>
    requires kept { (words : List (List Span)) × (length words ≤ length all.now) × IsKept false words first.old }
    ensures first { IfOk result (λ after. (sections : List SaidSection) (c : Moment) → map columns_in all.now ≡ all_words sections
        → IsFirst sections false first.old printed.old.items c → IsFirst sections after first.new printed.new.items c) }
    ensures after { IfOk result (λ after. after ≡ is_ended first.old.stand) }
    ensures memory_alone { IsOkUnless result Errno.NoMemory }
{
    if !first.is_ended() {
        return Ok(false);
    }
    *printed = mem::replace(&mut first.text, Vec::new(alloc));
    first.talk.leave_setup();
    match first.settle(alloc, all, true, None) {
        Ok(()) => Ok(true),
        Err(errno) => Err(errno),
    }
}

/// Actor 0 at its first call of the device: whether that is in `after`, and what `setup` printed then. `NoMemory` alone is refused.
fn start_first(
    alloc: Global,
    setup: &[Statement<'_>],
    all: &[Statement<'_>],
) -> Result<(Seat, bool, Vec<u8>), Errno>
    requires within { length setup.now ≤ length all.now }
    ensures first { IfOk result (λ begun. (sections : List SaidSection) → map columns_in setup.now ≡ setup_words sections → map columns_in all.now ≡ all_words sections
        → IsFirst sections begun.1 begun.0 begun.2.items (beginning sections) × (begun.1 ≡ is_ended (beginning sections).setup.stand)) }
    ensures memory_alone { IsOkUnless result Errno.NoMemory }
{
    let mut first = Seat::start(alloc, setup, false)?;
    let mut printed = Vec::new(alloc);
    let after = begin_after(alloc, all, &mut first, &mut printed)?;
    Ok((first, after, printed))
}

/// Takes an entry of an actor in, where it is legal and the actor's next one. It tells whether it is; after `false` nothing is said of the
/// machine and the actor any more. `NoMemory` alone is refused.
fn enter(
    core: &mut Core,
    seat: &mut Seat,
    alloc: Global,
    statements: &[Statement<'_>],
    quit: bool,
    entry: &Entry<Core>,
) -> Result<bool, Errno>
    requires kept { IsKept quit (map columns_in statements.now) seat.old }
    ensures fits { IfOk result (λ good. (w : World) → StandsFor core.old w
        → Decides good (GoesOn w entry.now.actor entry.now.call entry.now.reply × SuitsStand seat.old.stand (port_in seat.old.port) entry.now)) }
    ensures world { IfOk result (λ good. (w : World) → StandsFor core.old w → good ≡ true → StandsFor core.new (world_after w entry.now.actor entry.now.call)) }
    ensures moved { IfOk result (λ good. (w : World) → StandsFor core.old w → good ≡ true
        → seat_in quit (map columns_in statements.now) seat.new ≡ moved (seat_in quit (map columns_in statements.now) seat.old) (deed_in device_core w entry.now)) }
    ensures kept { IfOk result (λ good. good ≡ true → IsKept quit (map columns_in statements.now) seat.new) }
    ensures memory_alone { IsOkUnless result Errno.NoMemory }
{
    if !seat.suits(entry) {
        return Ok(false);
    }
    let mut buffer = seat.buffer(alloc)?;
    core_is_well_kept(core);
    match core.goes_on_into(entry, &mut buffer, alloc) {
        Ok(true) => match seat.take(alloc, statements, quit, entry, buffer) {
            Ok(()) => Ok(true),
            Err(errno) => Err(errno),
        },
        Ok(false) => Ok(false),
        Err(errno) => Err(errno),
    }
}

/// The same of the actor at a place among these.
fn enter_at(
    core: &mut Core,
    seats: &mut [Seat],
    at: usize,
    alloc: Global,
    statements: &[Statement<'_>],
    entry: &Entry<Core>,
) -> Result<bool, Errno>
    requires within { at < length seats.old }
    requires kept { (d : SeatCode) → IsKept true (map columns_in statements.now) (get_or seats.old at d) }
    ensures fits { (sections : List SaidSection) (others : ℕ → SeatOf) → map columns_in statements.now ≡ actor_words sections (at + 1) → AreSeats sections seats.old others
        → IfOk result (λ good. (w : World) → StandsFor core.old w → Decides good (GoesOn w entry.now.actor entry.now.call entry.now.reply × Suits (others (at + 1)) entry.now)) }
    ensures world { IfOk result (λ good. (w : World) → StandsFor core.old w → good ≡ true → StandsFor core.new (world_after w entry.now.actor entry.now.call)) }
    ensures others { (sections : List SaidSection) (others : ℕ → SeatOf) → map columns_in statements.now ≡ actor_words sections (at + 1) → AreSeats sections seats.old others
        → IfOk result (λ good. (w : World) → StandsFor core.old w → good ≡ true
        → AreSeats sections seats.new (with_other (at + 1) (moved (others (at + 1)) (deed_in device_core w entry.now)) others)) }
    ensures as_many { length seats.new ≡ length seats.old }
    ensures memory_alone { IsOkUnless result Errno.NoMemory }
{
    match enter(core, &mut seats[at], alloc, statements, true, entry) {
        Ok(good) => Ok(good),
        Err(errno) => Err(errno),
    }
}

impl Judge {
    /// All actors at their beginning, over a new machine. `setup` are the statements of `setup`, and `all` those of `setup` and `after`.
    /// `NoMemory` alone is refused.
    pub fn new(
        alloc: Global,
        script: &Script<'_>,
        setup: &[Statement<'_>],
        all: &[Statement<'_>],
    ) -> Result<Judge, Errno>
        requires setup { map columns_in setup.now ≡ setup_words (sections_of script.now) }
        requires all { map columns_in all.now ≡ all_words (sections_of script.now) }
        ensures ok { IfOk result (λ j. Judges (sections_of script.now) j (beginning (sections_of script.now))) }
        ensures memory_alone { IsOkUnless result Errno.NoMemory }
    {
        let others = start_others(alloc, script)?;
        let begun = start_first(alloc, setup, all)?;
        let core = Core::new(alloc)?;
        let (first, after, printed) = begun;
        Ok(Judge {
            core,
            first,
            after,
            setup: printed,
            others,
        })
    }

    /// Takes an entry in, where it fits. It tells whether it does; after `false` nothing is said of the judge any more. `NoMemory` alone is
    /// refused.
    pub fn take(
        &mut self,
        alloc: Global,
        script: &Script<'_>,
        setup: &[Statement<'_>],
        all: &[Statement<'_>],
        entry: &Entry<Core>,
    ) -> Result<bool, Errno>
        requires setup { map columns_in setup.now ≡ setup_words (sections_of script.now) }
        requires all { map columns_in all.now ≡ all_words (sections_of script.now) }
        requires judges { (c : Moment) × Judges (sections_of script.now) self.old c }
        ensures taken { IfOk result (λ good. (c : Moment) → Judges (sections_of script.now) self.old c → IsTaken (sections_of script.now) entry.now c good self.new) }
        ensures memory_alone { IsOkUnless result Errno.NoMemory }
    {
        if entry.actor == 0 {
            self.take_first(alloc, setup, all, entry)
        } else {
            self.take_other(alloc, script, entry)
        }
    }

    /// The same of an entry of actor 0.
    fn take_first(
        &mut self,
        alloc: Global,
        setup: &[Statement<'_>],
        all: &[Statement<'_>],
        entry: &Entry<Core>,
    ) -> Result<bool, Errno>
        requires actor { entry.now.actor ≡ 0 }
        requires few { length setup.now ≤ length all.now }
        requires kept { IsKeptIn self.old.after (map columns_in setup.now) (map columns_in all.now) self.old.first }
        ensures taken { IfOk result (λ good. Takes (map columns_in setup.now) (map columns_in all.now) self.old entry.now good self.new) }
        ensures memory_alone { IsOkUnless result Errno.NoMemory }
    {
        if self.after {
            match self.take_last(alloc, all, entry) {
                Ok(good) => Ok(good),
                Err(errno) => Err(errno),
            }
        } else {
            self.take_setup(alloc, setup, all, entry)
        }
    }

    /// The same while actor 0 is in `setup`.
    fn take_setup(
        &mut self,
        alloc: Global,
        setup: &[Statement<'_>],
        all: &[Statement<'_>],
        entry: &Entry<Core>,
    ) -> Result<bool, Errno>
        requires actor { entry.now.actor ≡ 0 }
        requires phase { self.old.after ≡ false }
        requires few { length setup.now ≤ length all.now }
        requires kept { IsKept false (map columns_in setup.now) self.old.first }
        ensures taken { IfOk result (λ good. Takes (map columns_in setup.now) (map columns_in all.now) self.old entry.now good self.new) }
        ensures memory_alone { IsOkUnless result Errno.NoMemory }
    {
        match enter(&mut self.core, &mut self.first, alloc, setup, false, entry) {
            Ok(true) => match begin_after(alloc, all, &mut self.first, &mut self.setup) {
                Ok(after) => {
                    self.after = after;
                    Ok(true)
                }
                Err(errno) => Err(errno),
            },
            Ok(false) => Ok(false),
            Err(errno) => Err(errno),
        }
    }

    /// The same while actor 0 is in `after`: all others have to be at their end.
    fn take_last(
        &mut self,
        alloc: Global,
        all: &[Statement<'_>],
        entry: &Entry<Core>,
    ) -> Result<bool, Errno>
        requires actor { entry.now.actor ≡ 0 }
        requires phase { self.old.after ≡ true }
        requires kept { IsKept true (map columns_in all.now) self.old.first }
        ensures taken { IfOk result (λ good. (setup : List (List Span)) → Takes setup (map columns_in all.now) self.old entry.now good self.new) }
        ensures memory_alone { IsOkUnless result Errno.NoMemory }
    {
        if !all_ended(&self.others) {
            return Ok(false);
        }
        match enter(&mut self.core, &mut self.first, alloc, all, true, entry) {
            Ok(good) => Ok(good),
            Err(errno) => Err(errno),
        }
    }

    /// The same of an entry of another actor.
    fn take_other(
        &mut self,
        alloc: Global,
        script: &Script<'_>,
        entry: &Entry<Core>,
    ) -> Result<bool, Errno>
        requires actor { 1 ≤ entry.now.actor }
        requires judges { (c : Moment) × Judges (sections_of script.now) self.old c }
        ensures taken { IfOk result (λ good. (c : Moment) → Judges (sections_of script.now) self.old c → IsTaken (sections_of script.now) entry.now c good self.new) }
        ensures memory_alone { IsOkUnless result Errno.NoMemory }
    {
        if !self.after {
            return Ok(false);
        }
        let at = entry.actor as usize - 1;
        if at >= self.others.len() {
            return Ok(false);
        }
        let statements = actor_statements(script, u32::from(entry.actor));
        match enter_at(
            &mut self.core,
            &mut self.others,
            at,
            alloc,
            statements,
            entry,
        ) {
            Ok(good) => Ok(good),
            Err(errno) => Err(errno),
        }
    }

    /// Takes entries in, up to the first that doesn't fit, and tells its index, counted from 0. `NoMemory` alone is refused.
    pub fn take_all(
        &mut self,
        alloc: Global,
        script: &Script<'_>,
        setup: &[Statement<'_>],
        all: &[Statement<'_>],
        history: &[Entry<Core>],
    ) -> Result<Option<u32>, Errno>
        requires setup { map columns_in setup.now ≡ setup_words (sections_of script.now) }
        requires all { map columns_in all.now ≡ all_words (sections_of script.now) }
        requires few { length history.now < 2 ^ 32 }
        requires beginning { Judges (sections_of script.now) self.old (beginning (sections_of script.now)) }
        ensures taken { IfOk result (AreTaken (sections_of script.now) history.now self.new) }
        ensures memory_alone { IsOkUnless result Errno.NoMemory }
    {
        for i in 0..history.len() {
            match self.take(alloc, script, setup, all, &history[i]) {
                Ok(true) => {}
                Ok(false) => return Ok(Some(i as u32)),
                Err(errno) => return Err(errno),
            }
        }
        Ok(None)
    }

    /// Whether all actors are at their end.
    pub fn is_at_end(&self) -> bool
        ensures { (sections : List SaidSection) (c : Moment) → Judges sections self.now c → Decides result (AtEnd sections c) }
    {
        let all = all_ended(&self.others);
        let last = self.first.is_ended();
        ends(self.after, all, last)
    }
}
