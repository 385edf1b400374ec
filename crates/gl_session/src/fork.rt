//! The actors of a session: made, each carrying its section out in a thread of its own, and taken in again.
ghost use Rattle.std.specs.Prelude.{◌≡◌, ◌≢◌, ◌⊎◌, ℕ, ◌+◌, ◌≤◌, ◌<◌, true, List, [], ◌∷◌, ◌++◌, length, map, Some, None, Ok, Err, IfOk, IfErr, OnOk, IsOkUnless, slice_get, slice_set, slice_index_or, vec_len};
ghost use Rattle.std.specs.List.{Contains};
ghost use Rattle.gl_base.specs.Rows.{Each};
ghost use Rattle.gl_base.specs.declared.errno.Errno.TheVariants.{NoMemory};
ghost use Rattle.gl_world.specs.History.{StartsWith};
ghost use Rattle.gl_rule.specs.Views.{taking_in, with_one_more};
ghost use Rattle.gl_chip.specs.Values.{IsActorOf};
ghost use Rattle.gl_script.specs.Script.{sections_of};
ghost use Rattle.gl_script.specs.declared.section.SectionKind.TheVariants.{Actor as ActorKind};
ghost use Rattle.gl_check.specs.Drivers.{driver_kind};
ghost use Rattle.gl_check.specs.One.{said_in_kind};
ghost use Rattle.gl_check.specs.Many.{actor_sections, program_of};
ghost use Rattle.gl_check.specs.Joining.{Maps};
ghost use Rattle.gl_session.specs.Placed.{AreMapsPlaced};
ghost use Rattle.gl_session.specs.Ports.{AllHave, AreMaps, OwnsNothing, maps_of};
ghost use Rattle.gl_session.specs.Workers.{AreDone, AreFresh, AreKept, HasJoined, HasSplit, HaveMaps, IsFresh, StillHas, WorkDone, there_at, told_at};

use crate::player::Player;
use crate::rendezvous::Rendezvous;
use crate::worker::play_beside;
use gl_base::{ByteList, Errno};
use gl_check::sections::actor_statements;
use gl_chip::{Actor, Gpio};
use gl_core::Core;
use gl_driver::{Driver, Map};
use gl_script::Script;
use std::alloc::{AllocError, Global};
use std::sync::Wait;
use std::thread;
use std::thread::Threads;

/// An actor that has carried its section out, and what it printed.
pub type Done<D> = (Actor<D>, Result<ByteList, Errno>);

/// Takes the port of a number out.
pub fn take_port<D: Driver<Core>>(ports: &mut [Option<D::Port>], n: usize) -> Option<D::Port>
    requires { n < length ports.old }
    ensures taken { slice_get ports.old n ≡ Some result }
    ensures left { ports.new ≡ slice_set ports.old n None }
{
    ports[n].take()
}

/// Puts the port of a number in its place.
pub fn give_port<D: Driver<Core>>(ports: &mut [Option<D::Port>], n: usize, port: D::Port)
    requires { n < length ports.old }
    ensures { ports.new ≡ slice_set ports.old n (Some port) }
{
    ports[n] = Some(port);
}

/// Puts an actor after the others.
fn put<D: Driver<Core>>(actors: &mut Vec<Actor<D>>, actor: Actor<D>) -> Result<(), Errno>
    ensures put { OnOk result (actors.new.items ≡ actors.old.items ++ actor ∷ []) }
    ensures memory_alone { IsOkUnless result Errno.NoMemory }
{
    match actors.push(actor) {
        Ok(()) => Ok(()),
        Err(_) => Err(Errno::NoMemory),
    }
}

/// One more actor, after the others.
fn split_one<D: Driver<Core>>(
    device: &Gpio<D>,
    first: &mut Actor<D>,
    actors: &mut Vec<Actor<D>>,
    port: D::Port,
) -> Result<(), Errno>
    requires actor { IsActorOf device.now first.old }
    requires number { first.old.pass.view.number ≡ 0 }
    requires few { first.old.pass.view.made < 256 }
    ensures actor { IsActorOf device.now first.new }
    ensures view { first.new.pass.view ≡ with_one_more first.old.pass.view }
    ensures port { first.new.port ≡ first.old.port }
    ensures more { OnOk result ((a : _) × (actors.new.items ≡ actors.old.items ++ a ∷ [])
        × IsFresh D.Port.told (λ _. D.Port.told port) device.now first.old.pass.view first.old.pass.view.made a × (a.port ≡ port)) }
    ensures memory_alone { IsOkUnless result Errno.NoMemory }
{
    let actor = device.split(first, port);
    put(actors, actor)
}

/// So many actors more, from number 1 on, each with the port of its number.
pub fn split_all<D: Driver<Core>>(
    alloc: Global,
    device: &Gpio<D>,
    first: &mut Actor<D>,
    ports: &mut [Option<D::Port>],
    count: usize,
) -> Result<Vec<Actor<D>>, Errno>
    requires actor { IsActorOf device.now first.old }
    requires alone { (first.old.pass.view.number ≡ 0) × (first.old.pass.view.made ≡ 1) }
    requires few { count < 256 }
    requires ports { count < length ports.old }
    requires there { (n : ℕ) → 1 ≤ n → n < length ports.old → there_at ports.old n ≡ true }
    ensures actor { IsActorOf device.now first.new }
    ensures port { first.new.port ≡ first.old.port }
    ensures seen { first.new.pass.view.seen ≡ first.old.pass.view.seen }
    ensures maps { (m : Maps) → AllHave D.Port.maps D.Port.maps_left m ports.old → IfOk result (λ v. HaveMaps D.Port.maps D.Port.maps_left m v.items) }
    ensures maps_left { (m : Maps) → AllHave D.Port.maps D.Port.maps_left m ports.old → OnOk result (AllHave D.Port.maps D.Port.maps_left m ports.new) }
    ensures split { OnOk result (HasSplit first.old.pass.view count first.new.pass.view) }
    ensures len { IfOk result (λ v. vec_len v ≡ count) }
    ensures fresh { IfOk result (λ v. AreFresh D.Port.told (told_at D.Port.told ports.old) device.now first.old.pass.view 1 v.items) }
    ensures ports_len { length ports.new ≡ length ports.old }
    ensures others { OnOk result ((n : ℕ) → count < n → slice_get ports.new n ≡ slice_get ports.old n) }
    ensures memory_alone { IsOkUnless result Errno.NoMemory }
{
    let mut actors = Vec::new(alloc);
    for n in 0..count {
        match take_port::<D>(ports, n + 1) {
            Some(port) => match split_one(device, first, &mut actors, port) {
                Ok(()) => {}
                Err(errno) => return Err(errno),
            },
            None => unreachable!(),
        }
    }
    Ok(actors)
}

/// What the actors at work have in common.
#[derive(Drop)]
pub struct Common<'a> {
    /// The session.
    pub script: &'a Script<'a>,
    /// The maps that their ports keep.
    pub maps: &'a [Map],
}

/// Maps, once more.
fn copied(alloc: Global, maps: &[Map]) -> Result<Vec<Map>, Errno>
    ensures copied { IfOk result (λ v. v.items ≡ maps.now) }
    ensures memory_alone { IsOkUnless result Errno.NoMemory }
{
    let mut copy = Vec::new(alloc);
    match copy.extend_from_slice(maps) {
        Ok(()) => Ok(copy),
        Err(_) => Err(Errno::NoMemory),
    }
}

/// One actor's work: the section of its number, to the end. It begins when the others do, also where it has no memory for it.
fn work<R: Wait, D: Driver<Core>>(
    rt: &R,
    alloc: Global,
    device: &Gpio<D>,
    common: &Common<'_>,
    start: &Rendezvous,
    actor: Actor<D>,
) -> Done<D>
    requires none { OwnsNothing D.OwnEntries }
    requires fresh { IsFresh D.Port.told (λ _. D.Port.told actor.port) device.now actor.pass.view actor.pass.view.number actor }
    requires maps { AreMaps common.now.maps.now × (common.now.maps.now ≡ D.Port.maps actor.port) × AreMapsPlaced actor.pass.view.seen common.now.maps.now }
    requires section { (1 ≤ actor.pass.view.number) × (actor.pass.view.number ≤ length (actor_sections (sections_of common.now.script.now))) }
    requires few { length (said_in_kind ActorKind (sections_of common.now.script.now)) ≤ 1048576 }
    ensures maps { StillHas D.Port.maps D.Port.maps_left (maps_of D.Port.maps D.Port.maps_left actor.port) result }
    ensures done { WorkDone D.Port.told (λ _. D.Port.told actor.port) device.now (driver_kind D.ENTRIES D.is_planned D.OwnEntries D.Follows) (maps_of D.Port.maps D.Port.maps_left actor.port) (program_of (sections_of common.now.script.now)) actor.pass.view actor.pass.view.number result }
{
    let number = actor.number();
    let maps = match copied(alloc, common.maps) {
        Ok(maps) => maps,
        Err(errno) => {
            start.meet();
            return (actor, Err(errno));
        }
    };
    let statements = actor_statements(common.script, u32::from(number));
    let mut player = Player::with_maps(alloc, device, actor, maps);
    let text = play_beside(rt, alloc, &mut player, start, statements);
    (player.into_actor(), text)
}

/// All actors at work, each in a thread of its own where one can be made. They begin together.
fn map_all<R: Threads + Wait + Sync, D: Driver<Core>>(
    rt: &R,
    alloc: Global,
    device: &Gpio<D>,
    common: &Common<'_>,
    actors: Vec<Actor<D>>,
) -> Result<Vec<Done<D>>, AllocError>
    requires none { OwnsNothing D.OwnEntries }
    requires few { length (said_in_kind ActorKind (sections_of common.now.script.now)) ≤ 1048576 }
    requires may_be_learned { AreMaps common.now.maps.now }
    requires fresh { (i : ℕ) (a : _) → i < vec_len actors → a ≡ slice_index_or actors.items i a
        → IsFresh D.Port.told (λ _. D.Port.told a.port) device.now a.pass.view a.pass.view.number a
        × (1 ≤ a.pass.view.number) × (a.pass.view.number ≤ length (actor_sections (sections_of common.now.script.now))) }
    requires maps { (i : ℕ) (a : _) → i < vec_len actors → a ≡ slice_index_or actors.items i a → (common.now.maps.now ≡ D.Port.maps a.port) × AreMapsPlaced a.pass.view.seen common.now.maps.now }
    ensures len { IfOk result (λ v. vec_len v ≡ vec_len actors) }
    ensures maps { IfOk result (λ v. (i : ℕ) (a : _) (d : _) → i < vec_len actors → a ≡ slice_index_or actors.items i a
        → StillHas D.Port.maps D.Port.maps_left (maps_of D.Port.maps D.Port.maps_left a.port) (slice_index_or v.items i d)) }
    ensures done { IfOk result (λ v. (i : ℕ) (a : _) (d : _) → i < vec_len actors → a ≡ slice_index_or actors.items i a
        → WorkDone D.Port.told (λ _. D.Port.told a.port) device.now (driver_kind D.ENTRIES D.is_planned D.OwnEntries D.Follows) (maps_of D.Port.maps D.Port.maps_left a.port) (program_of (sections_of common.now.script.now)) a.pass.view a.pass.view.number (slice_index_or v.items i d)) }
{
    let meeting = Rendezvous::of(actors.len());
    let start = &meeting;
    let job = |actor: Actor<D>| -> Done<D>
        requires none { OwnsNothing D.OwnEntries }
        requires few { length (said_in_kind ActorKind (sections_of common.now.script.now)) ≤ 1048576 }
        requires fresh { IsFresh D.Port.told (λ _. D.Port.told actor.port) device.now actor.pass.view actor.pass.view.number actor }
        requires maps { AreMaps common.now.maps.now × (common.now.maps.now ≡ D.Port.maps actor.port) × AreMapsPlaced actor.pass.view.seen common.now.maps.now }
        requires section { (1 ≤ actor.pass.view.number) × (actor.pass.view.number ≤ length (actor_sections (sections_of common.now.script.now))) }
        ensures maps { StillHas D.Port.maps D.Port.maps_left (maps_of D.Port.maps D.Port.maps_left actor.port) result }
        ensures done { WorkDone D.Port.told (λ _. D.Port.told actor.port) device.entry.now (driver_kind D.ENTRIES D.is_planned D.OwnEntries D.Follows) (maps_of D.Port.maps D.Port.maps_left actor.port) (program_of (sections_of common.entry.now.script.now)) actor.pass.view actor.pass.view.number result }
    { work(rt, alloc, device, common, start, actor) };
    thread::map_vec(rt, actors, &job)
}

/// All actors at work, by their numbers.
pub fn work_all<R: Threads + Wait + Sync, D: Driver<Core>>(
    rt: &R,
    alloc: Global,
    device: &Gpio<D>,
    common: &Common<'_>,
    actors: Vec<Actor<D>>,
) -> Result<Vec<Done<D>>, AllocError>
    requires none { OwnsNothing D.OwnEntries }
    requires few { length (said_in_kind ActorKind (sections_of common.now.script.now)) ≤ 1048576 }
    requires fresh { (start : _) × (v : _) × AreFresh D.Port.told start device.now v 1 actors.items × AreMapsPlaced v.seen common.now.maps.now }
    requires may_be_learned { AreMaps common.now.maps.now }
    requires maps { (m : Maps) × (m.kept ≡ common.now.maps.now) × HaveMaps D.Port.maps D.Port.maps_left m actors.items }
    requires sections { vec_len actors ≤ length (actor_sections (sections_of common.now.script.now)) }
    ensures len { IfOk result (λ v. vec_len v ≡ vec_len actors) }
    ensures maps { IfOk result (λ all. (m : Maps) → HaveMaps D.Port.maps D.Port.maps_left m actors.items → Each (StillHas D.Port.maps D.Port.maps_left m) all.items) }
    ensures done { IfOk result (λ all. (start : _) (v : _) (m : Maps) → AreFresh D.Port.told start device.now v 1 actors.items
        → HaveMaps D.Port.maps D.Port.maps_left m actors.items
        → AreDone D.Port.told start device.now (driver_kind D.ENTRIES D.is_planned D.OwnEntries D.Follows) m (program_of (sections_of common.now.script.now)) v 1 all.items) }
{
    match map_all(rt, alloc, device, common, actors) {
        Ok(done) => Ok(done),
        Err(error) => Err(error),
    }
}

/// Takes in one actor that wasn't out of memory, and keeps what came of it before the others, and its port in its place.
fn join_one<D: Driver<Core>>(
    device: &Gpio<D>,
    first: &mut Actor<D>,
    ports: &mut [Option<D::Port>],
    texts: &mut Vec<Result<ByteList, Errno>>,
    done: Done<D>,
    n: usize,
) -> Result<(), Errno>
    requires actor { IsActorOf device.now first.old }
    requires port { n < length ports.old }
    requires other { done.1 ≢ Err NoMemory → IsActorOf device.now done.0 × (done.0.pass.view.number ≢ 0) }
    ensures actor { IsActorOf device.now first.new }
    ensures port { first.new.port ≡ first.old.port }
    ensures grows { StartsWith first.new.pass.view.seen first.old.pass.view.seen }
    ensures ports { OnOk result (ports.new ≡ slice_set ports.old n (Some done.0.port)) }
    ensures joined { OnOk result ((first.new.pass.view ≡ taking_in first.old.pass.view done.0.pass.view)
        × StartsWith first.new.pass.view.seen first.old.pass.view.seen × StartsWith first.new.pass.view.seen done.0.pass.view.seen) }
    ensures text { OnOk result ((done.1 ≢ Err NoMemory) × (texts.new.items ≡ done.1 ∷ texts.old.items)) }
    ensures memory_alone { IsOkUnless result Errno.NoMemory }
{
    let (actor, text) = done;
    match text {
        Err(Errno::NoMemory) => Err(Errno::NoMemory),
        text => {
            let port = device.join(first, actor);
            give_port::<D>(ports, n, port);
            match texts.insert(0, text) {
                Ok(()) => Ok(()),
                Err(_) => Err(Errno::NoMemory),
            }
        }
    }
}

/// Takes in all actors, and gives what came of them in the order of their numbers: a text, or an error where the history was full. The
/// port of each is in its place again, and keeps its maps where all have a text.
pub fn join_all<D: Driver<Core>>(
    alloc: Global,
    device: &Gpio<D>,
    first: &mut Actor<D>,
    ports: &mut [Option<D::Port>],
    mut all: Vec<Done<D>>,
) -> Result<Vec<Result<ByteList, Errno>>, Errno>
    requires actor { IsActorOf device.now first.old }
    requires ports { vec_len all < length ports.old }
    requires done { (start : _) × (m : _) × (programs : _) × (v : _) × AreDone D.Port.told start device.now (driver_kind D.ENTRIES D.is_planned D.OwnEntries D.Follows) m programs v 1 all.items }
    ensures actor { IsActorOf device.now first.new }
    ensures port { first.new.port ≡ first.old.port }
    ensures grows { StartsWith first.new.pass.view.seen first.old.pass.view.seen }
    ensures joined { OnOk result (HasJoined first.old.pass.view (vec_len all) first.new.pass.view) }
    ensures len { IfOk result (λ texts. vec_len texts ≡ vec_len all) }
    ensures kept { IfOk result (λ texts. (start : _) (m : _) (programs : _) (v : _) → AreDone D.Port.told start device.now (driver_kind D.ENTRIES D.is_planned D.OwnEntries D.Follows) m programs v 1 all.items
        → AreKept (driver_kind D.ENTRIES D.is_planned D.OwnEntries D.Follows) m programs start (told_at D.Port.told ports.new) v first.new.pass.view 1 texts.items) }
    ensures maps { (m : Maps) → AllHave D.Port.maps D.Port.maps_left m ports.old → Each (StillHas D.Port.maps D.Port.maps_left m) all.items
        → IfOk result (λ texts. (printed : List (List ℕ)) → texts.items ≡ map Ok printed → AllHave D.Port.maps D.Port.maps_left m ports.new) }
    ensures ports_len { length ports.new ≡ length ports.old }
    ensures others { OnOk result ((n : ℕ) → vec_len all < n → slice_get ports.new n ≡ slice_get ports.old n) }
    ensures there { OnOk result ((n : ℕ) → 1 ≤ n → n ≤ vec_len all → there_at ports.new n ≡ true) }
    ensures memory_alone { IsOkUnless result Errno.NoMemory }
{
    let mut texts = Vec::new(alloc);
    while let Some(done) = all.pop() {
        let n = all.len() + 1;
        match join_one(device, first, ports, &mut texts, done, n) {
            Ok(()) => {}
            Err(errno) => return Err(errno),
        }
    }
    Ok(texts)
}

/// The texts of all actors, if each has one.
pub fn all_printed(
    alloc: Global,
    mut results: Vec<Result<ByteList, Errno>>,
) -> Result<Vec<ByteList>, Errno>
    ensures printed { IfOk result (λ texts. results.items ≡ map Ok texts.items) }
    ensures cause { IfErr result (λ e. (e ≡ NoMemory) ⊎ Contains results.items (Err e)) }
{
    let mut texts = Vec::new(alloc);
    while let Some(text) = results.pop() {
        match text {
            Ok(text) => match texts.insert(0, text) {
                Ok(()) => {}
                Err(_) => return Err(Errno::NoMemory),
            },
            Err(errno) => return Err(errno),
        }
    }
    Ok(texts)
}
