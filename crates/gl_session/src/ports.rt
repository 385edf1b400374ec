//! The ports of a run.
ghost use Rattle.std.specs.Prelude.{◌≡◌, ◌≤◌, false, drop, length, IfOk, OnOk, IsOkUnless};
ghost use Rattle.gl_script.specs.Cost.{has_aggregate};
ghost use Rattle.gl_script.specs.Script.{sections_of};
ghost use Rattle.gl_check.specs.Drivers.{driver_kind, over};
ghost use Rattle.gl_check.specs.Joining.{no_maps};
ghost use Rattle.gl_check.specs.Many.{actor_sections};
ghost use Rattle.gl_chip.specs.Values.{IsQuietDriver};
ghost use Rattle.gl_session.specs.OneActor.{CameAloneWith, IsSized};
ghost use Rattle.gl_session.specs.Ports.{AreAllThere, LearnAbove, OthersLearn, OwnsNothing, TakeMaps, left_at, maps_at};
ghost use Rattle.gl_session.specs.Run.{CameTo};
ghost use Rattle.gl_session.specs.Workers.{told_at};

use crate::fork::{give_port, take_port};
use crate::one_actor::run_one;
use crate::output::output_of;
use crate::several::run_several;
use crate::teaching::teach_all;
use gl_base::Errno;
use gl_check::sections::count_actors;
use gl_core::Core;
use gl_driver::Driver;
use gl_script::Script;
use std::alloc::Global;
use std::sync::Wait;
use std::thread::Threads;

/// Runs a session by one actor through the first port, which is put back after it; the others learn what it learned. Gives the text, and how
/// many entries were made.
///
/// `NoMemory` alone is refused, and then the first port may be missing.
pub fn run_alone<R: Wait, D: Driver<Core>>(
    rt: &R,
    alloc: Global,
    script: &Script<'_>,
    driver: D,
    ports: &mut [Option<D::Port>],
) -> Result<(Vec<u8>, u64), Errno>
    requires none { OwnsNothing D.OwnEntries }
    requires quiet { IsQuietDriver D.OwnEntries }
    requires few_own { D.ENTRIES ≤ 8 }
    requires bare { TakeMaps D.Port.maps D.Port.maps_left ports.old }
    requires sized { IsSized (sections_of script.now) }
    requires ports { AreAllThere ports.old }
    ensures came { IfOk result (λ ran. CameAloneWith (over (left_at D.Port.maps_left ports.old 0) (driver_kind D.ENTRIES D.is_planned D.OwnEntries D.Follows)) (sections_of script.now) (told_at D.Port.told ports.old 0) ran.0.items (told_at D.Port.told ports.new 0) (maps_at D.Port.maps D.Port.maps_left ports.new 0) ran.1) }
    ensures there { IfOk result (λ _. AreAllThere ports.new) }
    ensures others { OnOk result (LearnAbove D.Port.maps D.Port.maps_left D.Port.told D.Port.faults 0 (sections_of script.now) (no_maps (left_at D.Port.maps_left ports.old 0)) ports.old ports.new) }
    ensures others_stay { has_aggregate (sections_of script.now) ≡ false → drop 1 ports.new ≡ drop 1 ports.old }
    ensures memory_alone { IsOkUnless result Errno.NoMemory }
{
    match take_port::<D>(ports, 0) {
        Some(port) => match run_one(rt, alloc, driver, port, script) {
            Ok((text, entries, port, maps)) => {
                teach_all::<D>(ports, &maps);
                give_port::<D>(ports, 0, port);
                Ok((text, entries))
            }
            Err(errno) => Err(errno),
        },
        None => unreachable!(),
    }
}

/// Runs a session: by the first actor alone where it has fewer than two actors, else by an actor for each of its actors' sections. Gives
/// its output; the ports are back in their places.
///
/// `NoMemory` alone is refused, and then ports may be missing.
pub fn carry_script<R: Threads + Wait + Sync, D: Driver<Core>>(
    rt: &R,
    alloc: Global,
    script: &Script<'_>,
    driver: D,
    ports: &mut [Option<D::Port>],
) -> Result<Vec<u8>, Errno>
    requires none { OwnsNothing D.OwnEntries }
    requires quiet { IsQuietDriver D.OwnEntries }
    requires few_own { D.ENTRIES ≤ 8 }
    requires bare { TakeMaps D.Port.maps D.Port.maps_left ports.old }
    requires sized { IsSized (sections_of script.now) }
    requires few { length (actor_sections (sections_of script.now)) ≤ 16 }
    requires ports { AreAllThere ports.old }
    ensures came { IfOk result (λ text. CameTo (over (left_at D.Port.maps_left ports.old 0) (driver_kind D.ENTRIES D.is_planned D.OwnEntries D.Follows)) (sections_of script.now) (told_at D.Port.told ports.old) (told_at D.Port.told ports.new) (maps_at D.Port.maps D.Port.maps_left ports.new 0) text.items) }
    ensures there { OnOk result (AreAllThere ports.new) }
    ensures others { OnOk result (OthersLearn D.Port.maps D.Port.maps_left D.Port.told D.Port.faults (sections_of script.now) ports.old ports.new) }
    ensures memory_alone { IsOkUnless result Errno.NoMemory }
{
    let count = count_actors(script);
    if count < 2 {
        return match run_alone(rt, alloc, script, driver, ports) {
            Ok((text, _entries)) => Ok(text),
            Err(errno) => Err(errno),
        };
    }
    match run_several(rt, alloc, driver, ports, script) {
        Ok((printed, history)) => output_of(
            alloc,
            script,
            &printed.setup,
            &printed.actors,
            &printed.last,
            &history,
        ),
        Err(errno) => Err(errno),
    }
}
