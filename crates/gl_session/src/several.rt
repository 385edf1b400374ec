//! A session that several actors carry out on a device of their own: `setup`, then each actor's section in a thread of its own
//! where one can be made, then `after`.
ghost use Rattle.std.specs.Prelude.{◌≡◌, ◌⊎◌, ℕ, ◌≤◌, ◌<◌, true, [], length, IfOk, IfErr, OnOk, IsOkUnless};
ghost use Rattle.gl_base.specs.declared.errno.Errno.TheVariants.{NoMemory};
ghost use Rattle.gl_world.specs.History.{StartsWith};
ghost use Rattle.gl_rule.specs.Views.{newcomer};
ghost use Rattle.gl_chip.specs.Values.{IsActorOf, IsQuietDriver};
ghost use Rattle.gl_script.specs.Cost.{session_cost};
ghost use Rattle.gl_script.specs.Script.{sections_of};
ghost use Rattle.gl_talk.specs.Open.{setup_names};
ghost use Rattle.gl_talk.specs.Talk.{names_in};
ghost use Rattle.gl_session.specs.Many.{CameToMany};
ghost use Rattle.gl_check.specs.Drivers.{driver_kind, over};
ghost use Rattle.gl_check.specs.Joining.{no_maps, taught};
ghost use Rattle.gl_check.specs.Many.{actor_sections, program_of};
ghost use Rattle.gl_session.specs.OneActor.{IsSized};
ghost use Rattle.gl_session.specs.Workers.{CannotEnd, HasCarriedOut, HasForked, HasForkedFull, there_at, told_at};
ghost use Rattle.gl_session.specs.Placed.{AreMapsPlaced};
ghost use Rattle.gl_session.specs.Ports.{AllHave, AreAllThere, AreMaps, LearnAbove, OwnsNothing, TakeMaps, left_at, maps_at, maps_of};
ghost use Rattle.gl_session.specs.Several.{texts_of};

use crate::fork::{Common, all_printed, give_port, join_all, split_all, take_port, work_all};
use crate::one_actor::{play_kind, play_to_end};
use crate::player::Player;
use crate::teaching::teach_all;
use gl_base::{ByteList, Errno};
use gl_check::sections::count_actors;
use gl_chip::{Actor, Gpio};
use gl_core::Core;
use gl_driver::Driver;
use gl_script::{Script, SectionKind};
use gl_talk::Talk;
use gl_world::Entry;
use std::alloc::Global;
use std::sync::Wait;
use std::thread::Threads;

/// What the parts of a session printed.
#[derive(Drop)]
pub struct Printed {
    /// What `setup` printed.
    pub setup: Vec<u8>,
    /// What each actor printed, in order.
    pub actors: Vec<ByteList>,
    /// What `after` printed.
    pub last: Vec<u8>,
}

/// The sections of all actors, each carried out by an actor of its own with the port of its number, which is in its place again
/// after it. Gives what each printed.
fn fork<R: Threads + Wait + Sync, D: Driver<Core>>(
    rt: &R,
    alloc: Global,
    first: &mut Player<'_, D>,
    ports: &mut [Option<D::Port>],
    script: &Script<'_>,
) -> Result<Vec<ByteList>, Errno>
    requires none { OwnsNothing D.OwnEntries }
    requires maps { AllHave D.Port.maps D.Port.maps_left first.old.carried.maps ports.old }
    requires alone { (first.old.view.number ≡ 0) × (first.old.view.made ≡ 1) }
    requires sized { IsSized (sections_of script.now) }
    requires count { (length (actor_sections (sections_of script.now)) < 256) × (length (actor_sections (sections_of script.now)) < length ports.old) }
    requires there { (n : ℕ) → 1 ≤ n → n < length ports.old → there_at ports.old n ≡ true }
    ensures device { first.new.gate ≡ first.old.gate }
    ensures files { first.new.carried.files ≡ first.old.carried.files }
    ensures told { first.new.carried.told ≡ first.old.carried.told }
    ensures maps { first.new.carried.maps ≡ first.old.carried.maps }
    ensures text { first.new.text ≡ first.old.text }
    ensures ports_maps { OnOk result (AllHave D.Port.maps D.Port.maps_left first.old.carried.maps ports.new) }
    ensures forked { IfOk result (λ texts. HasForked D.Port.told (driver_kind D.ENTRIES D.is_planned D.OwnEntries D.Follows) first.old.carried.maps (program_of (sections_of script.now)) (length (actor_sections (sections_of script.now)))
        first.old.view ports.old first.new.view texts.items ports.new) }
    ensures stopped { IfErr result (λ e. (e ≡ NoMemory) ⊎ HasForkedFull (driver_kind D.ENTRIES D.is_planned D.OwnEntries D.Follows) first.old.carried.maps (program_of (sections_of script.now)) (told_at D.Port.told ports.old)
        (length (actor_sections (sections_of script.now))) first.old.view first.new.view) }
    ensures ports_len { length ports.new ≡ length ports.old }
{
    let common = Common {
        script,
        maps: &first.maps,
    };
    work_beside(rt, alloc, first.device, &mut first.actor, ports, &common)
}

/// The same, by the first actor of a device.
fn work_beside<R: Threads + Wait + Sync, D: Driver<Core>>(
    rt: &R,
    alloc: Global,
    device: &Gpio<D>,
    first: &mut Actor<D>,
    ports: &mut [Option<D::Port>],
    common: &Common<'_>,
) -> Result<Vec<ByteList>, Errno>
    requires none { OwnsNothing D.OwnEntries }
    requires may_be_learned { AreMaps common.now.maps.now }
    requires placed { AreMapsPlaced first.old.pass.view.seen common.now.maps.now }
    requires maps { (maps_of D.Port.maps D.Port.maps_left first.old.port).kept ≡ common.now.maps.now }
    requires others { AllHave D.Port.maps D.Port.maps_left (maps_of D.Port.maps D.Port.maps_left first.old.port) ports.old }
    requires actor { IsActorOf device.now first.old }
    requires alone { (first.old.pass.view.number ≡ 0) × (first.old.pass.view.made ≡ 1) }
    requires sized { IsSized (sections_of common.now.script.now) }
    requires count { (length (actor_sections (sections_of common.now.script.now)) < 256) × (length (actor_sections (sections_of common.now.script.now)) < length ports.old) }
    requires there { (n : ℕ) → 1 ≤ n → n < length ports.old → there_at ports.old n ≡ true }
    ensures actor { IsActorOf device.now first.new }
    ensures port { first.new.port ≡ first.old.port }
    ensures grows { StartsWith first.new.pass.view.seen first.old.pass.view.seen }
    ensures ports_maps { OnOk result (AllHave D.Port.maps D.Port.maps_left (maps_of D.Port.maps D.Port.maps_left first.old.port) ports.new) }
    ensures forked { IfOk result (λ texts. HasForked D.Port.told (driver_kind D.ENTRIES D.is_planned D.OwnEntries D.Follows) (maps_of D.Port.maps D.Port.maps_left first.old.port) (program_of (sections_of common.now.script.now)) (length (actor_sections (sections_of common.now.script.now)))
        first.old.pass.view ports.old first.new.pass.view texts.items ports.new) }
    ensures stopped { IfErr result (λ e. (e ≡ NoMemory) ⊎ HasForkedFull (driver_kind D.ENTRIES D.is_planned D.OwnEntries D.Follows) (maps_of D.Port.maps D.Port.maps_left first.old.port) (program_of (sections_of common.now.script.now)) (told_at D.Port.told ports.old)
        (length (actor_sections (sections_of common.now.script.now))) first.old.pass.view first.new.pass.view) }
    ensures ports_len { length ports.new ≡ length ports.old }
{
    let count = count_actors(common.script) as usize;
    let actors = match split_all(alloc, device, first, ports, count) {
        Ok(actors) => actors,
        Err(errno) => return Err(errno),
    };
    let all = match work_all(rt, alloc, device, common, actors) {
        Ok(all) => all,
        Err(_) => return Err(Errno::NoMemory),
    };
    let texts = match join_all(alloc, device, first, ports, all) {
        Ok(texts) => texts,
        Err(errno) => return Err(errno),
    };
    match all_printed(alloc, texts) {
        Ok(texts) => Ok(texts),
        Err(errno) => Err(errno),
    }
}

/// Carries the parts of a session out. The talk of `setup` waits with its files and names while the actors are at work, and goes on
/// with `after`. The ports of the actors, and all others, learn the maps that the first one learned in `setup`.
fn carry_parts<R: Threads + Wait + Sync, D: Driver<Core>>(
    rt: &R,
    alloc: Global,
    first: &mut Player<'_, D>,
    talk: &mut Talk,
    ports: &mut [Option<D::Port>],
    script: &Script<'_>,
) -> Result<Printed, Errno>
    requires none { OwnsNothing D.OwnEntries }
    requires few_own { D.ENTRIES ≤ 8 }
    requires maps { first.old.carried.maps ≡ no_maps first.old.carried.maps.left }
    requires bare { AllHave D.Port.maps D.Port.maps_left first.old.carried.maps ports.old }
    requires first { first.old.view ≡ newcomer 0 (session_cost (sections_of script.now)) [] 1 [] [] }
    requires new { (first.old.carried.files ≡ []) × (first.old.text ≡ []) }
    requires sized { IsSized (sections_of script.now) }
    requires talk { (names_in talk.old ≡ setup_names) × (talk.old.begun ≡ 0) }
    requires count { (length (actor_sections (sections_of script.now)) < 256) × (length (actor_sections (sections_of script.now)) < length ports.old) }
    requires there { (n : ℕ) → 1 ≤ n → n < length ports.old → there_at ports.old n ≡ true }
    ensures device { first.new.gate ≡ first.old.gate }
    ensures out { IfOk result (λ printed. HasCarriedOut D.Port.told (over first.old.carried.maps.left (driver_kind D.ENTRIES D.is_planned D.OwnEntries D.Follows)) (sections_of script.now) first.old.view first.old.carried.told ports.old
        (texts_of printed) first.new.view first.new.carried.told first.new.carried.maps ports.new) }
    ensures others { OnOk result ((them : LearnAbove D.Port.maps D.Port.maps_left D.Port.told D.Port.faults (length (actor_sections (sections_of script.now))) (sections_of script.now) first.old.carried.maps ports.old ports.new)
        × (first.new.carried.maps ≡ taught them.taught_maps first.old.carried.maps)) }
    ensures stopped { IfErr result (λ e. (e ≡ NoMemory) ⊎ CannotEnd first.new.view) }
    ensures ports_len { length ports.new ≡ length ports.old }
{
    match play_kind(rt, alloc, first, talk, script, SectionKind::Setup) {
        Ok(()) => {}
        Err(errno) => return Err(errno),
    }
    let setup = first.take_text(alloc);
    teach_all::<D>(ports, first.maps());
    let actors = match fork(rt, alloc, first, ports, script) {
        Ok(actors) => actors,
        Err(errno) => return Err(errno),
    };
    let _number = first.number();
    talk.leave_setup();
    match play_to_end(rt, alloc, first, talk, script, SectionKind::After) {
        Ok(()) => {
            let last = first.take_text(alloc);
            Ok(Printed {
                setup,
                actors,
                last,
            })
        }
        Err(errno) => Err(errno),
    }
}

/// Carries a session out as the first actor of a device.
fn carry_out<R: Threads + Wait + Sync, D: Driver<Core>>(
    rt: &R,
    alloc: Global,
    first: &mut Player<'_, D>,
    ports: &mut [Option<D::Port>],
    script: &Script<'_>,
) -> Result<Printed, Errno>
    requires none { OwnsNothing D.OwnEntries }
    requires few_own { D.ENTRIES ≤ 8 }
    requires maps { first.old.carried.maps ≡ no_maps first.old.carried.maps.left }
    requires bare { AllHave D.Port.maps D.Port.maps_left first.old.carried.maps ports.old }
    requires first { first.old.view ≡ newcomer 0 (session_cost (sections_of script.now)) [] 1 [] [] }
    requires new { (first.old.carried.files ≡ []) × (first.old.text ≡ []) }
    requires sized { IsSized (sections_of script.now) }
    requires count { (length (actor_sections (sections_of script.now)) < 256) × (length (actor_sections (sections_of script.now)) < length ports.old) }
    requires there { (n : ℕ) → 1 ≤ n → n < length ports.old → there_at ports.old n ≡ true }
    ensures device { first.new.gate ≡ first.old.gate }
    ensures out { IfOk result (λ printed. HasCarriedOut D.Port.told (over first.old.carried.maps.left (driver_kind D.ENTRIES D.is_planned D.OwnEntries D.Follows)) (sections_of script.now) first.old.view first.old.carried.told ports.old
        (texts_of printed) first.new.view first.new.carried.told first.new.carried.maps ports.new) }
    ensures others { OnOk result ((them : LearnAbove D.Port.maps D.Port.maps_left D.Port.told D.Port.faults (length (actor_sections (sections_of script.now))) (sections_of script.now) first.old.carried.maps ports.old ports.new)
        × (first.new.carried.maps ≡ taught them.taught_maps first.old.carried.maps)) }
    ensures stopped { IfErr result (λ e. (e ≡ NoMemory) ⊎ CannotEnd first.new.view) }
    ensures ports_len { length ports.new ≡ length ports.old }
{
    match Talk::for_setup(alloc) {
        Ok(mut talk) => carry_parts(rt, alloc, first, &mut talk, ports, script),
        Err(errno) => Err(errno),
    }
}

/// Runs a session by an actor for each of its actors' sections, on a new device with this driver, each actor with the port of its
/// number. Gives what they printed, and the history.
///
/// The history takes just as many entries as the session costs, and is never full before a call. `NoMemory` alone is refused, and then
/// ports may be missing.
pub fn run_several<R: Threads + Wait + Sync, D: Driver<Core>>(
    rt: &R,
    alloc: Global,
    driver: D,
    ports: &mut [Option<D::Port>],
    script: &Script<'_>,
) -> Result<(Printed, Vec<Entry<Core>>), Errno>
    requires none { OwnsNothing D.OwnEntries }
    requires quiet { IsQuietDriver D.OwnEntries }
    requires few_own { D.ENTRIES ≤ 8 }
    requires bare { TakeMaps D.Port.maps D.Port.maps_left ports.old }
    requires sized { IsSized (sections_of script.now) }
    requires count { length (actor_sections (sections_of script.now)) ≤ 16 }
    requires ports { AreAllThere ports.old }
    ensures came { IfOk result (λ ran. CameToMany (over (left_at D.Port.maps_left ports.old 0) (driver_kind D.ENTRIES D.is_planned D.OwnEntries D.Follows)) (sections_of script.now) (told_at D.Port.told ports.old) (told_at D.Port.told ports.new) (maps_at D.Port.maps D.Port.maps_left ports.new 0) ran.1.items (texts_of ran.0)) }
    ensures there { OnOk result (AreAllThere ports.new) }
    ensures others { OnOk result (LearnAbove D.Port.maps D.Port.maps_left D.Port.told D.Port.faults (length (actor_sections (sections_of script.now))) (sections_of script.now) (no_maps (left_at D.Port.maps_left ports.old 0)) ports.old ports.new) }
    ensures memory_alone { IsOkUnless result Errno.NoMemory }
{
    match take_port::<D>(ports, 0) {
        Some(port) => match Gpio::new(alloc, driver, port, script.cost() as u32) {
            Ok((device, actor)) => {
                let mut first = Player::new(alloc, &device, actor);
                match carry_out(rt, alloc, &mut first, ports, script) {
                    Ok(printed) => {
                        let actor = first.into_actor();
                        let (_machine, history, port) = device.finish(actor);
                        give_port::<D>(ports, 0, port);
                        Ok((printed, history))
                    }
                    Err(Errno::NoMemory) => Err(Errno::NoMemory),
                    Err(_) => {
                        let actor = first.into_actor();
                        let _ended = device.finish(actor);
                        unreachable!()
                    }
                }
            }
            Err(_) => Err(Errno::NoMemory),
        },
        None => unreachable!(),
    }
}
