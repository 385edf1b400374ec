//! A session that one actor carries out on a device of its own: its sections one after the other.
ghost use Rattle.std.specs.Prelude.{◌≡◌, ◌⊎◌, ◌+◌, ◌≤◌, false, List, [], IfOk, IfErr, OnOk, IsOkUnless};
ghost use Rattle.gl_base.specs.declared.errno.Errno.TheVariants.{Full, NoMemory};
ghost use Rattle.gl_client.specs.Program.{done};
ghost use Rattle.gl_rule.specs.Views.{newcomer};
ghost use Rattle.gl_script.specs.Cost.{has_aggregate, session_cost};
ghost use Rattle.gl_script.specs.Script.{sections_of};
ghost use Rattle.gl_talk.specs.Open.{Names, setup_names};
ghost use Rattle.gl_talk.specs.Talk.{names_in, quits, says};
ghost use Rattle.gl_check.specs.Drivers.{driver_kind, over};
ghost use Rattle.gl_check.specs.Joining.{no_maps, taught};
ghost use Rattle.gl_check.specs.Programs.{actor_of};
ghost use Rattle.gl_asking.specs.Files.{OpenFile};
ghost use Rattle.gl_chip.specs.Values.{IsQuietDriver};
ghost use Rattle.gl_session.specs.Ports.{AreMaps, HasLearnedThem, OwnsNothing, maps_of};
ghost use Rattle.gl_check.specs.One.{said_in_kind};
ghost use Rattle.gl_session.specs.OneActor.{CameAloneWith, HasPlayed, IsSized, StoppedBelow, count_in_kind};
ghost use Rattle.gl_session.specs.Performed.{PlaysOn, StoppedFull};
ghost use Rattle.gl_check.specs.Turns.{carried};

use crate::play::{play, play_all};
use crate::player::Player;
use crate::rows::Rows;
use gl_base::Errno;
use gl_check::sections::statements_of_kind;
use gl_chip::Gpio;
use gl_core::Core;
use gl_driver::{Driver, Map};
use gl_script::{Script, SectionKind};
use gl_talk::Talk;
use std::alloc::Global;
use std::sync::Wait;

/// Carries out the statements of all sections of a kind, in a talk that may go on after them.
pub fn play_kind<R: Wait, D: Driver<Core>>(
    rt: &R,
    alloc: Global,
    player: &mut Player<'_, D>,
    talk: &mut Talk,
    script: &Script<'_>,
    kind: SectionKind,
) -> Result<(), Errno>
    requires none { OwnsNothing D.OwnEntries }
    requires begun { talk.old.begun + count_in_kind kind (sections_of script.now) ≤ 1048576 }
    ensures device { player.new.gate ≡ player.old.gate }
    ensures counted { OnOk result (talk.new.begun ≡ talk.old.begun + count_in_kind kind (sections_of script.now)) }
    ensures played { OnOk result (PlaysOn (driver_kind D.ENTRIES D.is_planned D.OwnEntries D.Follows) (says talk.old.begun (said_in_kind kind (sections_of script.now)) done (names_in talk.old))
        player.old.view player.old.carried player.old.text
        (done (names_in talk.new)) player.new.view player.new.carried player.new.text) }
    ensures stopped { IfErr result (λ e. (e ≡ NoMemory) ⊎ ((e ≡ Full)
        × StoppedFull (driver_kind D.ENTRIES D.is_planned D.OwnEntries D.Follows) (says talk.old.begun (said_in_kind kind (sections_of script.now)) done (names_in talk.old))
        player.old.view player.old.carried player.new.view)) }
{
    for section in 0..script.sections() {
        let statements = statements_of_kind(script, section, kind);
        match play_all(rt, alloc, player, talk, statements) {
            Ok(()) => {}
            Err(errno) => return Err(errno),
        }
    }
    Ok(())
}

/// Carries out the statements of all sections of a kind, and then closes the files that are open in the talk.
pub fn play_to_end<R: Wait, D: Driver<Core>>(
    rt: &R,
    alloc: Global,
    player: &mut Player<'_, D>,
    talk: &mut Talk,
    script: &Script<'_>,
    kind: SectionKind,
) -> Result<(), Errno>
    requires none { OwnsNothing D.OwnEntries }
    requires begun { talk.old.begun + count_in_kind kind (sections_of script.now) ≤ 1048576 }
    ensures device { player.new.gate ≡ player.old.gate }
    ensures played { OnOk result (PlaysOn (driver_kind D.ENTRIES D.is_planned D.OwnEntries D.Follows) (says talk.old.begun (said_in_kind kind (sections_of script.now)) quits (names_in talk.old))
        player.old.view player.old.carried player.old.text
        (done (names_in talk.new)) player.new.view player.new.carried player.new.text) }
    ensures stopped { IfErr result (λ e. (e ≡ NoMemory) ⊎ ((e ≡ Full)
        × StoppedFull (driver_kind D.ENTRIES D.is_planned D.OwnEntries D.Follows) (says talk.old.begun (said_in_kind kind (sections_of script.now)) quits (names_in talk.old))
        player.old.view player.old.carried player.new.view)) }
{
    match play_kind(rt, alloc, player, talk, script, kind) {
        Ok(()) => {}
        Err(errno) => return Err(errno),
    }
    talk.quit();
    match play(rt, alloc, player, talk) {
        Ok(()) => Ok(()),
        Err(errno) => Err(errno),
    }
}

/// Carries out the actor's section, which is a talk of its own, while the files that are open wait.
fn play_actor<R: Wait, D: Driver<Core>>(
    rt: &R,
    alloc: Global,
    player: &mut Player<'_, D>,
    script: &Script<'_>,
) -> Result<(), Errno>
    requires none { OwnsNothing D.OwnEntries }
    requires sized { IsSized (sections_of script.now) }
    ensures device { player.new.gate ≡ player.old.gate }
    ensures played { OnOk result ((names : Names) × (files : List OpenFile)
        × PlaysOn (driver_kind D.ENTRIES D.is_planned D.OwnEntries D.Follows) (actor_of (sections_of script.now)) player.old.view (carried [] player.old.carried.told player.old.carried.maps) player.old.text
        (done names) player.new.view (carried files player.new.carried.told player.new.carried.maps) player.new.text) }
    ensures waiting { OnOk result (player.new.carried.files ≡ player.old.carried.files) }
    ensures stopped { IfErr result (λ e. (e ≡ NoMemory) ⊎ ((e ≡ Full)
        × StoppedFull (driver_kind D.ENTRIES D.is_planned D.OwnEntries D.Follows) (actor_of (sections_of script.now)) player.old.view (carried [] player.old.carried.told player.old.carried.maps) player.new.view)) }
{
    let waiting = player.change_files(Rows::new(alloc));
    match Talk::new(alloc) {
        Ok(mut talk) => {
            match play_to_end(rt, alloc, player, &mut talk, script, SectionKind::Actor) {
                Ok(()) => {
                    let _left = player.change_files(waiting);
                    Ok(())
                }
                Err(errno) => Err(errno),
            }
        }
        Err(errno) => Err(errno),
    }
}

/// Carries out the three parts of a session. The talk of `setup` waits with its files and names while the actor's section is
/// carried out, and goes on with `after`.
fn play_parts<R: Wait, D: Driver<Core>>(
    rt: &R,
    alloc: Global,
    player: &mut Player<'_, D>,
    talk: &mut Talk,
    script: &Script<'_>,
) -> Result<(), Errno>
    requires none { OwnsNothing D.OwnEntries }
    requires sized { IsSized (sections_of script.now) }
    requires talk { (names_in talk.old ≡ setup_names) × (talk.old.begun ≡ 0) }
    requires few_own { D.ENTRIES ≤ 8 }
    requires new { (player.old.carried.files ≡ []) × (player.old.text ≡ []) }
    requires bare { player.old.carried.maps ≡ no_maps player.old.carried.maps.left }
    requires first { player.old.view.number ≡ 0 }
    ensures device { player.new.gate ≡ player.old.gate }
    ensures played { OnOk result (HasPlayed (over player.old.carried.maps.left (driver_kind D.ENTRIES D.is_planned D.OwnEntries D.Follows)) (sections_of script.now) player.old.carried.told player.new.text player.new.carried.told player.new.carried.maps
        player.old.view player.new.view) }
    ensures learned { OnOk result (HasLearnedThem player.old.carried.maps.left player.new.carried.maps) }
    ensures without { OnOk result (has_aggregate (sections_of script.now) ≡ false → player.new.carried.maps ≡ player.old.carried.maps) }
    ensures stopped { IfErr result (λ e. (e ≡ NoMemory) ⊎ ((e ≡ Full) × StoppedBelow (session_cost (sections_of script.now)) player.old.view player.new.view)) }
{
    match play_kind(rt, alloc, player, talk, script, SectionKind::Setup) {
        Ok(()) => {}
        Err(errno) => return Err(errno),
    }
    match play_actor(rt, alloc, player, script) {
        Ok(()) => {}
        Err(errno) => return Err(errno),
    }
    talk.leave_setup();
    match play_to_end(rt, alloc, player, talk, script, SectionKind::After) {
        Ok(()) => Ok(()),
        Err(errno) => Err(errno),
    }
}

/// Carries a session out as the first actor of a device.
fn play_session<R: Wait, D: Driver<Core>>(
    rt: &R,
    alloc: Global,
    player: &mut Player<'_, D>,
    script: &Script<'_>,
) -> Result<Vec<u8>, Errno>
    requires none { OwnsNothing D.OwnEntries }
    requires sized { IsSized (sections_of script.now) }
    requires few_own { D.ENTRIES ≤ 8 }
    requires new { (player.old.carried.files ≡ []) × (player.old.text ≡ []) }
    requires bare { player.old.carried.maps ≡ no_maps player.old.carried.maps.left }
    requires first { player.old.view ≡ newcomer 0 (session_cost (sections_of script.now)) [] 1 [] [] }
    ensures device { player.new.gate ≡ player.old.gate }
    ensures played { IfOk result (λ text. HasPlayed (over player.old.carried.maps.left (driver_kind D.ENTRIES D.is_planned D.OwnEntries D.Follows)) (sections_of script.now) player.old.carried.told text.items player.new.carried.told player.new.carried.maps
        player.old.view player.new.view) }
    ensures learned { OnOk result (HasLearnedThem player.old.carried.maps.left player.new.carried.maps) }
    ensures without { OnOk result (has_aggregate (sections_of script.now) ≡ false → player.new.carried.maps ≡ player.old.carried.maps) }
    ensures memory_alone { IsOkUnless result Errno.NoMemory }
{
    match Talk::for_setup(alloc) {
        Ok(mut talk) => match play_parts(rt, alloc, player, &mut talk, script) {
            Ok(()) => Ok(player.take_text(alloc)),
            Err(errno) => {
                let _number = player.number();
                Err(errno)
            }
        },
        Err(errno) => Err(errno),
    }
}

/// Runs a session by one actor, on a new device with this driver. Gives its text, how many entries its history has, the port through
/// which the driver was asked, and the maps that it learned.
///
/// The history takes just as many entries as the session costs, and is never full before a call. `NoMemory` alone is refused.
pub fn run_one<R: Wait, D: Driver<Core>>(
    rt: &R,
    alloc: Global,
    driver: D,
    port: D::Port,
    script: &Script<'_>,
) -> Result<(Vec<u8>, u64, D::Port, Vec<Map>), Errno>
    requires none { OwnsNothing D.OwnEntries }
    requires quiet { IsQuietDriver D.OwnEntries }
    requires few_own { D.ENTRIES ≤ 8 }
    requires bare { D.Port.maps port ≡ [] }
    requires sized { IsSized (sections_of script.now) }
    ensures came { IfOk result (λ ran. CameAloneWith (over (D.Port.maps_left port) (driver_kind D.ENTRIES D.is_planned D.OwnEntries D.Follows)) (sections_of script.now) (D.Port.told port) ran.0.items (D.Port.told ran.2) (maps_of D.Port.maps D.Port.maps_left ran.2) ran.1) }
    ensures without { IfOk result (λ ran. has_aggregate (sections_of script.now) ≡ false → ran.3.items ≡ []) }
    ensures maps { IfOk result (λ ran. AreMaps ran.3.items × (maps_of D.Port.maps D.Port.maps_left ran.2 ≡ taught ran.3.items (no_maps (D.Port.maps_left port)))) }
    ensures memory_alone { IsOkUnless result Errno.NoMemory }
{
    match Gpio::new(alloc, driver, port, script.cost() as u32) {
        Ok((device, actor)) => {
            let mut player = Player::new(alloc, &device, actor);
            match play_session(rt, alloc, &mut player, script) {
                Ok(text) => {
                    let (actor, maps) = player.into_parts();
                    let (_machine, history, port) = device.finish(actor);
                    Ok((text, history.len() as u64, port, maps))
                }
                Err(errno) => Err(errno),
            }
        }
        Err(errno) => Err(errno),
    }
}
