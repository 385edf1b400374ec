//! One actor's section, from its first statement to the closing of its files.
ghost use Rattle.std.specs.Prelude.{◌≡◌, ◌⊎◌, ◌≤◌, [], length, map, IfOk, IfErr};
ghost use Rattle.gl_base.specs.declared.errno.Errno.TheVariants.{Full, NoMemory};
ghost use Rattle.gl_talk.specs.Open.{no_names};
ghost use Rattle.gl_talk.specs.Over.{columns_in};
ghost use Rattle.gl_talk.specs.Talk.{talks};
ghost use Rattle.gl_check.specs.Drivers.{driver_kind};
ghost use Rattle.gl_session.specs.Ports.{OwnsNothing};
ghost use Rattle.gl_session.specs.Performed.{StoppedFull};
ghost use Rattle.gl_check.specs.Turns.{carried};
ghost use Rattle.gl_session.specs.Workers.{PlaysWhole};

use crate::play::{play, play_all};
use crate::player::Player;
use crate::rendezvous::Rendezvous;
use gl_base::{ByteList, Errno};
use gl_core::Core;
use gl_driver::Driver;
use gl_script::Statement;
use gl_talk::Talk;
use std::alloc::Global;
use std::sync::Wait;

/// Carries the statements of a section out as a talk of its own, and then closes what is open. Gives what it printed.
pub fn play_section<R: Wait, D: Driver<Core>>(
    rt: &R,
    alloc: Global,
    player: &mut Player<'_, D>,
    statements: &[Statement<'_>],
) -> Result<ByteList, Errno>
    requires none { OwnsNothing D.OwnEntries }
    requires few { length statements.now ≤ 1048576 }
    requires new { (player.old.carried.files ≡ []) × (player.old.text ≡ []) }
    ensures device { player.new.gate ≡ player.old.gate }
    ensures played { IfOk result (λ text. PlaysWhole (driver_kind D.ENTRIES D.is_planned D.OwnEntries D.Follows) (talks 0 (map columns_in statements.now) no_names)
        player.old.carried.maps player.old.view player.old.carried.told text player.new.view player.new.carried.told) }
    ensures maps { IfOk result (λ _. player.new.carried.maps ≡ player.old.carried.maps) }
    ensures stopped { IfErr result (λ e. (e ≡ NoMemory) ⊎ ((e ≡ Full)
        × StoppedFull (driver_kind D.ENTRIES D.is_planned D.OwnEntries D.Follows) (talks 0 (map columns_in statements.now) no_names) player.old.view (carried [] player.old.carried.told player.old.carried.maps) player.new.view)) }
{
    let mut talk = match Talk::new(alloc) {
        Ok(talk) => talk,
        Err(errno) => return Err(errno),
    };
    match play_all(rt, alloc, player, &mut talk, statements) {
        Ok(()) => {}
        Err(errno) => return Err(errno),
    }
    talk.quit();
    match play(rt, alloc, player, &mut talk) {
        Ok(()) => Ok(ByteList::of(player.take_text(alloc))),
        Err(errno) => Err(errno),
    }
}

/// Waits for the other actors, and then carries the section out.
pub fn play_beside<R: Wait, D: Driver<Core>>(
    rt: &R,
    alloc: Global,
    player: &mut Player<'_, D>,
    start: &Rendezvous,
    statements: &[Statement<'_>],
) -> Result<ByteList, Errno>
    requires none { OwnsNothing D.OwnEntries }
    requires few { length statements.now ≤ 1048576 }
    requires new { (player.old.carried.files ≡ []) × (player.old.text ≡ []) }
    ensures device { player.new.gate ≡ player.old.gate }
    ensures played { IfOk result (λ text. PlaysWhole (driver_kind D.ENTRIES D.is_planned D.OwnEntries D.Follows) (talks 0 (map columns_in statements.now) no_names)
        player.old.carried.maps player.old.view player.old.carried.told text player.new.view player.new.carried.told) }
    ensures maps { IfOk result (λ _. player.new.carried.maps ≡ player.old.carried.maps) }
    ensures stopped { IfErr result (λ e. (e ≡ NoMemory) ⊎ ((e ≡ Full)
        × StoppedFull (driver_kind D.ENTRIES D.is_planned D.OwnEntries D.Follows) (talks 0 (map columns_in statements.now) no_names) player.old.view (carried [] player.old.carried.told player.old.carried.maps) player.new.view)) }
{
    start.meet();
    play_section(rt, alloc, player, statements)
}
